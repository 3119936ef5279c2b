// The table of frames that stands beside code: each line is checked against what is written before it and at each place that it
// leads to.

ghost use Rattle.std.specs.Prelude.{◌≡◌, ◌↔◌, ◌⊎◌, ◌+◌, ◌<◌, ◌≤◌, ℕ, suc, [], map, length, Some, slice_get, slice_index_or, IsTrue};
ghost use Rattle.aud_code.specs.Tabled.{counts};
ghost use Rattle.aud_code.specs.Flat.{instructions_from, start_at};
ghost use Rattle.aud_code.specs.Frames.{found, IsWritten, OpensWith};
ghost use Rattle.aud_code.specs.Seen.{inside, AllOpen, BarrierSees, BarrierSeesAgain, BarriersSee, BehindSees, BodiesSee, BodySees, DoingSees, EachSame, EitherSee, EndingSees, Fewer, OperationSees};
ghost use Rattle.aud_code.specs.Seen.{GuardsSee, IsSeen, LastSees, LineSees, NamesOpen, OpenedSees, StepSees};
ghost use Rattle.aud_code.specs.Seen.{OutSees, PlaceSees, WaySees, WithinSees};
ghost use Rattle.aud_code.specs.Seen.{open_with, with_own};
ghost use Rattle.aud_code.specs.View.{behind_offers, beside, bodies_in, bodies_of, bodies_offered, frames_in, inside_of, plain_among, plain_barrier, plain_code, plain_end, plain_ending, plain_guard};
ghost use Rattle.aud_code.specs.View.{plain_instruction, plain_last, plain_line, way_beside, way_of};

use crate::frames::{body_offered, found, opener};
use crate::instruction::Instruction;
use crate::line::{Among, Barrier, Code, EndLine, Ending, Guard, Last, Line, Offer};
use aud_meaning::state::{Construct, OpenAccept};
use aud_typed::program::Variable;

/// Whether each line names variables of frames that are open alone, by the table of frames, and leads to where those
/// are open that are written there.
pub(crate) fn is_seen(code: &Code) -> bool
    ensures { IsTrue result ↔ IsSeen (plain_code code.now) (map counts code.now.operands.items)
        code.now.tasks.items (frames_in code.now.barriers.items) code.now.seen.items }
{
    body_sees(&code.seen, 0, start(code, 0)) && places_see(code) && barriers_see(&code.barriers)
}

// Whether each barrier names variables of frames that are open for it alone.
fn barriers_see(barriers: &[Barrier]) -> bool
    ensures { IsTrue result ↔
        BarriersSee (map plain_barrier barriers.now) (frames_in barriers.now) }
{
    for barrier in barriers {
        if !all_open(&barrier.lines, barrier.frames) {
            return false;
        }
    }
    true
}

// The instructions of a barrier, for which so many frames are open.
fn all_open(lines: &[Line], frames: usize) -> bool
    ensures { IsTrue result ↔ AllOpen (instructions_from (map plain_line lines.now)) frames }
{
    for line in lines {
        match line {
            Line::Instruction(instruction) => {
                if !names_open(instruction, frames, false) {
                    return false;
                }
            }
            Line::End(_) => return true,
        }
    }
    true
}

fn places_see(code: &Code) -> bool
    ensures { IsTrue result ↔ ((place : ℕ) → place < length code.now.lines.items →
        PlaceSees (plain_code code.now) (map counts code.now.operands.items)
        code.now.tasks.items (frames_in code.now.barriers.items) code.now.seen.items place) }
{
    for place in 0..code.lines.len() {
        if !place_sees(code, place) {
            return false;
        }
    }
    true
}

fn place_sees(code: &Code, place: usize) -> bool
    requires { place < length code.now.lines.items }
    ensures { IsTrue result ↔
        PlaceSees (plain_code code.now) (map counts code.now.operands.items)
        code.now.tasks.items (frames_in code.now.barriers.items) code.now.seen.items place }
{
    match code.seen.get(place) {
        Some(frames) => line_sees(code, &code.lines[place], place, *frames),
        None => false,
    }
}

// A line, before which so many frames are open.
fn line_sees(code: &Code, line: &Line, place: usize, frames: usize) -> bool
    requires { place < length code.now.lines.items }
    ensures { IsTrue result ↔ LineSees (plain_code code.now) (map counts code.now.operands.items)
        code.now.tasks.items (frames_in code.now.barriers.items) code.now.seen.items
        (Some (plain_line line.now)) place frames }
{
    match line {
        Line::Instruction(instruction) => {
            names_open(instruction, frames, has_begun(code, place))
                && is_fewer(&code.seen, 0, frames, place + 1)
                && accept_sees(code, instruction, place, frames)
        }
        Line::End(end) => within_sees(&code.seen, end.within, frames)
            && last_sees(code, end, frames),
    }
}

// The accept that an instruction opens, if it opens one.
fn accept_sees(code: &Code, instruction: &Instruction, place: usize, frames: usize) -> bool
    ensures { IsTrue result ↔ OpensWith (plain_instruction instruction.now)
        (λ accept. StepSees code.now.seen.items
        (found (map plain_line code.now.lines.items) place) frames accept) }
{
    match instruction {
        Instruction::OpensAccept(accept) => step_sees(code, *accept, place, frames),
        _ => true,
    }
}

fn step_sees(code: &Code, accept: OpenAccept, place: usize, frames: usize) -> bool
    ensures { IsTrue result ↔
        StepSees code.now.seen.items (found (map plain_line code.now.lines.items) place) frames accept }
{
    match found(&code.lines, place) {
        Some(end) => opened_sees(&code.seen, &end.last, accept, frames),
        None => true,
    }
}

// What is done by an accept that is opened in a selective accept's step.
fn opened_sees(seen: &[usize], last: &Last, accept: OpenAccept, frames: usize) -> bool
    ensures { IsTrue result ↔
        OpenedSees seen.now (plain_last last.now) (bodies_of last.now) frames accept }
{
    match last {
        Last::Concerns(Among::Select { own, offers, .. }, _) => {
            match body_offered(*own, offers, accept.alternative) {
                Some(body) => doing_sees(seen, frames, accept.region, body),
                None => false,
            }
        }
        _ => true,
    }
}

// Whether the cells of an object have begun before a line.
fn has_begun(code: &Code, place: usize) -> bool
    ensures { (n : ℕ) →
        with_own result n ≡ open_with (slice_get (map counts code.now.operands.items) place) n }
{
    match code.operands.get(place) {
        Some(before) => before.cells,
        None => false,
    }
}

// Whether each variable that an instruction names is of a frame that is open, or of an object whose cells have begun.
fn names_open(instruction: &Instruction, frames: usize, begun: bool) -> bool
    ensures { IsTrue result ↔ NamesOpen (plain_instruction instruction.now) (with_own begun frames) }
{
    match instruction {
        Instruction::Load(variable)
        | Instruction::Count(variable, _)
        | Instruction::Find(variable, _) => is_open(variable.level, frames, begun),
        Instruction::LoadElement(array) | Instruction::FindElement(array, _) => {
            array.length == 0 || is_open(array.first.level, frames, begun)
        }
        _ => true,
    }
}

fn is_open(frame: usize, frames: usize, begun: bool) -> bool
    ensures { IsTrue result ↔ frame < with_own begun frames }
{
    if begun {
        frame <= frames
    } else {
        frame < frames
    }
}

fn last_sees(code: &Code, end: &EndLine, frames: usize) -> bool
    ensures { IsTrue result ↔ LastSees (plain_code code.now)
        code.now.tasks.items (frames_in code.now.barriers.items) code.now.seen.items
        (plain_last end.now.last) frames (plain_end end.now) }
{
    let seen = &code.seen;
    match &end.last {
        Last::Does(ending, next) => {
            ending_sees(code, *ending, frames)
                && is_fewer(seen, 0, frames, *next)
                && out_sees(seen, end.within, frames, end.out)
        }
        Last::Concerns(among, next) => {
            among_sees(code, among, frames)
                && is_fewer(seen, 0, frames, *next)
                && out_sees(seen, end.within, frames, end.out)
        }
        Last::Continues { behind, inside, .. } => {
            is_fewer(seen, 1, frames, *behind) && is_fewer(seen, 0, frames, *inside)
        }
        Last::Guards(guards) => {
            guards_see(seen, guards, frames) && is_fewer(seen, 0, frames, end.out)
        }
        Last::Ends(Construct::Unit, _) => true,
        Last::Ends(Construct::Block | Construct::Accept, next) => {
            behind_sees(code, end, frames, *next)
        }
        Last::Leaves { loops, to } => frames != 0 && is_fewer(seen, *loops, frames - 1, *to),
    }
}

// Where a statement's step leads besides, and the body that it enters.
fn ending_sees(code: &Code, ending: Ending, frames: usize) -> bool
    ensures { IsTrue result ↔ (EndingSees (plain_code code.now)
        code.now.tasks.items (frames_in code.now.barriers.items) code.now.seen.items
        (plain_ending ending) frames
        × (EachSame code.now.seen.items (inside (plain_ending ending) frames) (inside_of ending)
        × (BodiesSee code.now.seen.items (plain_ending ending) frames []
        × WaySees code.now.seen.items frames (way_of ending)))) }
{
    let seen = &code.seen;
    match ending {
        Ending::Declare { again: inside, .. } | Ending::If(inside) | Ending::While(inside) => {
            is_fewer(seen, 0, frames, inside)
        }
        Ending::Loop { inside, .. } | Ending::Block { inside, .. } => {
            is_one_more(seen, frames, inside)
        }
        Ending::Exit(way) | Ending::Return(way) | Ending::ReturnValue(way) => {
            is_fewer(seen, way.loops, frames, way.to)
        }
        Ending::Call(unit) => body_sees(seen, frames, start(code, unit)),
        Ending::DeclareArray(_, _)
        | Ending::Null
        | Ending::Assign
        | Ending::Put
        | Ending::Raise(_)
        | Ending::RaiseAgain
        | Ending::OwnCall => true,
    }
}

// Where a step leads besides that concerns others, the bodies that it enters, and what its accepts do.
fn among_sees(code: &Code, among: &Among, frames: usize) -> bool
    ensures { IsTrue result ↔ (EndingSees (plain_code code.now)
        code.now.tasks.items (frames_in code.now.barriers.items) code.now.seen.items
        (plain_among among.now) frames
        × (EachSame code.now.seen.items (inside (plain_among among.now) frames) (beside among.now)
        × (BodiesSee code.now.seen.items (plain_among among.now) frames (bodies_in among.now)
        × WaySees code.now.seen.items frames (way_beside among.now)))) }
{
    let seen = &code.seen;
    match among {
        Among::DeclareTasks(tasks) => {
            body_sees(seen, frames, start(code, body_of(code, tasks.task_type)))
        }
        Among::Call { otherwise, .. } => is_fewer(seen, 0, frames, *otherwise),
        Among::CallObject {
            object,
            entry,
            otherwise,
            ..
        } => {
            object.level < frames
                && barrier_sees(&code.barriers, *object, *entry)
                && is_fewer(seen, 0, frames, *otherwise)
        }
        Among::Operation { object, unit } => {
            object.level < frames && operation_sees(seen, *object, start(code, *unit))
        }
        Among::Accept { region, body, .. } => doing_sees(seen, frames, *region, *body),
        Among::Select { own, offers, .. } => {
            either_sees(seen, frames, *own) && offers_see(seen, frames, offers)
        }
        Among::RequeueTask { way, .. } => is_fewer(seen, way.loops, frames, way.to),
        Among::RequeueObject { object, again, way } => {
            object.level < frames
                && barrier_sees_again(&code.barriers, *object, again.entry)
                && is_fewer(seen, way.loops, frames, way.to)
        }
        Among::DeclareObject(_)
        | Among::Activate
        | Among::Activated
        | Among::Delay
        | Among::Abort => true,
    }
}

// The barrier of an entry that is called, whose object's number is in a variable of the innermost frame around the object's.
fn barrier_sees(barriers: &[Barrier], object: Variable, entry: usize) -> bool
    ensures { IsTrue result ↔ BarrierSees (frames_in barriers.now) object entry }
{
    match barriers.get(entry) {
        Some(barrier) => is_more(object.level, 2, barrier.frames),
        None => false,
    }
}

// The same where a call is made again, also in the object's body.
fn barrier_sees_again(barriers: &[Barrier], object: Variable, entry: usize) -> bool
    ensures { IsTrue result ↔ BarrierSeesAgain (frames_in barriers.now) object entry }
{
    match barriers.get(entry) {
        Some(barrier) => is_named(object, barrier.frames),
        None => false,
    }
}

fn is_named(object: Variable, frames: usize) -> bool
    ensures { IsTrue result ↔
        ((frames ≡ object.level + 2) ⊎ ((object.index ≡ 0) × (frames ≡ object.level + 1))) }
{
    is_more(object.level, 2, frames) || object.index == 0 && is_more(object.level, 1, frames)
}

// Whether these are so many more frames than a level.
fn is_more(level: usize, more: usize, frames: usize) -> bool
    ensures { IsTrue result ↔ (frames ≡ level + more) }
{
    more <= frames && frames - more == level
}

// Where alternatives lead, and to what their accepts do.
fn offers_see(seen: &[usize], frames: usize, offers: &[Offer]) -> bool
    ensures { IsTrue result ↔ (EachSame seen.now frames (behind_offers offers.now)
        × EitherSee seen.now frames (bodies_offered offers.now)) }
{
    for offer in offers {
        if !offer_sees(seen, frames, *offer) {
            return false;
        }
    }
    true
}

fn offer_sees(seen: &[usize], frames: usize, offer: Offer) -> bool
    ensures { IsTrue result ↔ (Fewer seen.now 0 frames offer.behind
        × (Fewer seen.now 0 frames offer.body ⊎ Fewer seen.now 0 (suc frames) offer.body)) }
{
    is_fewer(seen, 0, frames, offer.behind) && either_sees(seen, frames, offer.body)
}

fn either_sees(seen: &[usize], frames: usize, body: usize) -> bool
    ensures { IsTrue result ↔
        (Fewer seen.now 0 frames body ⊎ Fewer seen.now 0 (suc frames) body) }
{
    is_fewer(seen, 0, frames, body) || is_one_more(seen, frames, body)
}

// What an accept does has one more frame; where it does nothing, it is what follows.
fn doing_sees(seen: &[usize], frames: usize, region: Option<usize>, body: usize) -> bool
    ensures { IsTrue result ↔ DoingSees seen.now region frames body }
{
    match region {
        Some(_) => is_one_more(seen, frames, body),
        None => is_fewer(seen, 0, frames, body),
    }
}

// Behind the end of a construct, whose frame is left.
fn behind_sees(code: &Code, end: &EndLine, frames: usize, next: usize) -> bool
    ensures { IsTrue result ↔
        BehindSees (plain_code code.now)
        code.now.tasks.items (frames_in code.now.barriers.items) code.now.seen.items
        frames (plain_end end.now) next }
{
    match opener(&code.lines, end.within) {
        Some(step) => {
            frames != 0
                && is_fewer(&code.seen, 0, frames - 1, next)
                && out_sees(&code.seen, step.within, frames - 1, end.out)
        }
        None => false,
    }
}

fn guards_see(seen: &[usize], guards: &[Guard], frames: usize) -> bool
    ensures { IsTrue result ↔ GuardsSee seen.now frames (map plain_guard guards.now) }
{
    for guard in guards {
        if !is_fewer(seen, 0, frames, guard.to) {
            return false;
        }
    }
    true
}

// The innermost frame is one more than where the step stands that opened it.
fn within_sees(seen: &[usize], within: Option<usize>, frames: usize) -> bool
    ensures { IsTrue result ↔ WithinSees seen.now within frames }
{
    match within {
        Some(opened) => is_fewer(seen, 1, frames, opened),
        None => true,
    }
}

// Where an exception leads.
fn out_sees(seen: &[usize], within: Option<usize>, frames: usize, out: usize) -> bool
    ensures { IsTrue result ↔ OutSees seen.now within frames out }
{
    match within {
        Some(_) => is_at_most(seen, frames, out),
        None => is_fewer(seen, 0, frames, out),
    }
}

fn is_at_most(seen: &[usize], frames: usize, place: usize) -> bool
    ensures { IsTrue result ↔ IsWritten (slice_get seen.now place) (λ m. m ≤ frames) }
{
    match seen.get(place) {
        Some(there) => *there <= frames,
        None => false,
    }
}

// Whether so many frames fewer are open at a place.
fn is_fewer(seen: &[usize], fewer: usize, frames: usize, place: usize) -> bool
    ensures { IsTrue result ↔ Fewer seen.now fewer frames place }
{
    match seen.get(place) {
        Some(there) => *there <= frames && frames - *there == fewer,
        None => false,
    }
}

fn is_one_more(seen: &[usize], frames: usize, place: usize) -> bool
    ensures { IsTrue result ↔ Fewer seen.now 0 (suc frames) place }
{
    match seen.get(place) {
        Some(there) => frames < *there && *there - frames == 1,
        None => false,
    }
}

// Whether a body that begins at a place may be entered where so many frames are open.
fn body_sees(seen: &[usize], frames: usize, place: usize) -> bool
    ensures { IsTrue result ↔ BodySees seen.now frames place }
{
    match seen.get(place) {
        Some(there) => 1 <= *there && *there - 1 <= frames,
        None => false,
    }
}

// The body of an operation, which sees besides the frames around its object's that of the object, and its own.
fn operation_sees(seen: &[usize], object: Variable, place: usize) -> bool
    ensures { IsTrue result ↔ OperationSees seen.now object place }
{
    match seen.get(place) {
        Some(there) => is_more(object.level, 3, *there),
        None => false,
    }
}

// Where the body of a number begins.
fn start(code: &Code, body: usize) -> usize
    ensures { result ≡ start_at (plain_code code.now) body }
{
    match code.starts.get(body) {
        Some(place) => *place,
        None => code.spare,
    }
}

// The body of a type of tasks.
fn body_of(code: &Code, task_type: usize) -> usize
    ensures { result ≡ slice_index_or code.now.tasks.items task_type 0 }
{
    match code.tasks.get(task_type) {
        Some(body) => *body,
        None => 0,
    }
}
