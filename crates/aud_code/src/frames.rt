// The frames that are open where steps stand.

ghost use Rattle.std.specs.Prelude.{◌≡◌, ◌↔◌, ◌⊎◌, [], ◌∷◌, drop, map, None, Some, slice_get};
ghost use Rattle.std.specs.Prelude.{IfNone, IfSome, IsTrue};
ghost use Rattle.aud_code.specs.Frames.{found, frame_inside, opener, AcceptAround, At, Behind, BlockAround};
ghost use Rattle.aud_code.specs.Frames.{BodiesAt, BodyAt, EitherAt, EachOpened, OpensAccept, OpensWith, IsWritten};
ghost use Rattle.aud_code.specs.Frames.{EachAt, GoTo, GuardsAt, IsEnd, LastFits, LoopAround};
ghost use Rattle.aud_code.specs.Frames.{Found, OpensBlock, OpensLoop, OutFits, OutOf, OutOfLoops};
ghost use Rattle.aud_code.specs.Frames.{StepFits, TakesExceptions, WayFits, WaysAt};
ghost use Rattle.aud_code.specs.View.{behind_offers, beside, bodies_in, bodies_offered};
ghost use Rattle.aud_code.specs.Flat.{instructions_from};
ghost use Rattle.aud_code.specs.View.{inside_of, plain_among, plain_end, plain_ending, plain_guard};
ghost use Rattle.aud_code.specs.View.{plain_instruction, plain_last};
ghost use Rattle.aud_code.specs.View.{plain_line, way_beside, way_of};

use crate::instruction::Instruction;
use crate::line::{Among, EndLine, Ending, Guard, Last, Line, Offer};
use aud_meaning::state::Construct;

/// The ending of the step that begins at a place; none behind all lines.
pub(crate) fn found(lines: &[Line], first: usize) -> Option<&EndLine>
    ensures some { IfSome result (λ end.
        found (map plain_line lines.now) first ≡ Some (plain_end end.now)) }
    ensures none { IfNone result (found (map plain_line lines.now) first ≡ None) }
{
    for place in first..lines.len() {
        match &lines[place] {
            Line::Instruction(_) => {}
            Line::End(end) => return Some(end),
        }
    }
    None
}

/// Whether a step begins at a place that stands within this frame.
pub(crate) fn is_within(lines: &[Line], place: usize, within: Option<usize>) -> bool
    ensures { IsTrue result ↔ At (map plain_line lines.now) place within }
{
    match found(lines, place) {
        Some(end) => end.within == within,
        None => false,
    }
}

/// Whether the step that begins at a place, if one does, leaves the frames open that are to be open where it leads.
pub(crate) fn step_fits(lines: &[Line], place: usize) -> bool
    ensures { IsTrue result ↔ StepFits (map plain_line lines.now) place }
{
    match found(lines, place) {
        Some(end) => fits(lines, place, end),
        None => true,
    }
}

// The ending of the step at a place.
fn fits(lines: &[Line], place: usize, end: &EndLine) -> bool
    ensures { IsTrue result ↔ LastFits (map plain_line lines.now)
        (plain_last end.now.last) place (plain_end end.now) }
{
    let within = end.within;
    match &end.last {
        Last::Does(ending, next) => {
            is_within(lines, *next, within)
                && ending_fits(lines, place, within, *ending)
                && out_fits(lines, within, end.out)
        }
        Last::Concerns(among, next) => {
            is_within(lines, *next, within)
                && among_fits(lines, place, within, among)
                && out_fits(lines, within, end.out)
        }
        Last::Continues { behind, inside, .. } => continues_fit(lines, within, *behind, *inside),
        Last::Guards(guards) => {
            guards_within(lines, guards, within) && goes_to_end(lines, within, end.out)
        }
        Last::Ends(Construct::Unit, _) => within.is_none(),
        Last::Ends(Construct::Block, next) => block_end_fits(lines, within, *next, end.out),
        Last::Ends(Construct::Accept, next) => accept_end_fits(lines, within, *next, end.out),
        Last::Leaves { loops, to } => leaving_fits(lines, within, *loops, *to),
    }
}

// Where a statement's step leads besides: into the frame that it opens, if it opens one, or out of loops. A call leads to a body,
// which begins with no frame of a construct.
fn ending_fits(lines: &[Line], place: usize, within: Option<usize>, ending: Ending) -> bool
    ensures { IsTrue result ↔ (EachAt (map plain_line lines.now) (inside_of ending)
        (frame_inside (plain_ending ending) place within)
        × (BodiesAt (map plain_line lines.now) (plain_ending ending) within place []
        × WayFits (map plain_line lines.now) within (way_of ending))) }
{
    match ending {
        Ending::Declare { again: inside, .. } | Ending::If(inside) | Ending::While(inside) => {
            is_within(lines, inside, within)
        }
        Ending::Loop { inside, .. } | Ending::Block { inside, .. } => {
            is_within(lines, inside, Some(place))
        }
        Ending::Exit(way) | Ending::Return(way) | Ending::ReturnValue(way) => {
            leaves_loops(lines, within, way.loops, way.to)
        }
        Ending::DeclareArray(_, _)
        | Ending::Null
        | Ending::Assign
        | Ending::Put
        | Ending::Raise(_)
        | Ending::RaiseAgain
        | Ending::Call(_)
        | Ending::OwnCall => true,
    }
}

// Where a step leads besides that concerns others, or out of loops, and to what its accepts do.
fn among_fits(lines: &[Line], place: usize, within: Option<usize>, among: &Among) -> bool
    ensures { IsTrue result ↔ (EachAt (map plain_line lines.now) (beside among.now) within
        × (BodiesAt (map plain_line lines.now) (plain_among among.now) within place
        (bodies_in among.now)
        × WayFits (map plain_line lines.now) within (way_beside among.now))) }
{
    match among {
        Among::Call { otherwise, .. } | Among::CallObject { otherwise, .. } => {
            is_within(lines, *otherwise, within)
        }
        Among::Accept { region, body, .. } => body_fits(lines, place, within, *region, *body),
        Among::Select { own, offers, .. } => {
            alternatives_fit(lines, place, within, *own, offers)
                && accepts_fit(lines, place, within, *own, offers)
        }
        Among::RequeueTask { way, .. } | Among::RequeueObject { way, .. } => {
            leaves_loops(lines, within, way.loops, way.to)
        }
        Among::DeclareTasks(_)
        | Among::DeclareObject(_)
        | Among::Activate
        | Among::Activated
        | Among::Operation { .. }
        | Among::Delay
        | Among::Abort => true,
    }
}

// The same of a selective accept, whose own step begins at the place `own`.
fn alternatives_fit(
    lines: &[Line],
    place: usize,
    within: Option<usize>,
    own: usize,
    offers: &[Offer],
) -> bool
    ensures { IsTrue result ↔ (EachAt (map plain_line lines.now) (behind_offers offers.now) within
        × EitherAt (map plain_line lines.now) within place (own ∷ bodies_offered offers.now)) }
{
    is_either(lines, place, within, own) && offers_fit(lines, place, within, offers)
}

// Where alternatives lead, and to what their accepts do.
fn offers_fit(lines: &[Line], place: usize, within: Option<usize>, offers: &[Offer]) -> bool
    ensures { IsTrue result ↔ (EachAt (map plain_line lines.now) (behind_offers offers.now) within
        × EitherAt (map plain_line lines.now) within place (bodies_offered offers.now)) }
{
    for offer in offers {
        if !offer_fits(lines, place, within, *offer) {
            return false;
        }
    }
    true
}

fn offer_fits(lines: &[Line], place: usize, within: Option<usize>, offer: Offer) -> bool
    ensures { IsTrue result ↔ (At (map plain_line lines.now) offer.behind within
        × (At (map plain_line lines.now) offer.body within
        ⊎ At (map plain_line lines.now) offer.body (Some place))) }
{
    is_within(lines, offer.behind, within) && is_either(lines, place, within, offer.body)
}

// Within the step or beside it.
fn is_either(lines: &[Line], place: usize, within: Option<usize>, body: usize) -> bool
    ensures { IsTrue result ↔ (At (map plain_line lines.now) body within
        ⊎ At (map plain_line lines.now) body (Some place)) }
{
    is_within(lines, body, within) || is_within(lines, body, Some(place))
}

// What an accept does stands within its step; where it does nothing, the step leads on.
fn body_fits(
    lines: &[Line],
    place: usize,
    within: Option<usize>,
    region: Option<usize>,
    body: usize,
) -> bool
    ensures { IsTrue result ↔ BodyAt (map plain_line lines.now) region within place body }
{
    match region {
        Some(_) => is_within(lines, body, Some(place)),
        None => is_within(lines, body, within),
    }
}

// The accepts that the instructions of a selective accept's step open.
fn accepts_fit(
    lines: &[Line],
    place: usize,
    within: Option<usize>,
    own: usize,
    offers: &[Offer],
) -> bool
    ensures { IsTrue result ↔ EachOpened (instructions_from (drop place (map plain_line lines.now)))
        (λ accept. IsWritten (slice_get (own ∷ bodies_offered offers.now) accept.alternative)
        (BodyAt (map plain_line lines.now) accept.region within place)) }
{
    for here in place..lines.len() {
        match &lines[here] {
            Line::Instruction(instruction) => {
                if !opened_fits(lines, place, within, own, offers, instruction) {
                    return false;
                }
            }
            Line::End(_) => return true,
        }
    }
    true
}

// The accept that an instruction opens, if it opens one.
fn opened_fits(
    lines: &[Line],
    place: usize,
    within: Option<usize>,
    own: usize,
    offers: &[Offer],
    instruction: &Instruction,
) -> bool
    ensures { IsTrue result ↔ OpensWith (plain_instruction instruction.now)
        (λ accept. IsWritten (slice_get (own ∷ bodies_offered offers.now) accept.alternative)
        (BodyAt (map plain_line lines.now) accept.region within place)) }
{
    match instruction {
        Instruction::OpensAccept(accept) => match body_offered(own, offers, accept.alternative) {
            Some(body) => body_fits(lines, place, within, accept.region, body),
            None => false,
        },
        _ => true,
    }
}

/// Where it begins what is done by the alternative of a number; the step itself has the number 0.
pub(crate) fn body_offered(own: usize, offers: &[Offer], alternative: usize) -> Option<usize>
    ensures { result ≡ slice_get (own ∷ bodies_offered offers.now) alternative }
{
    if alternative == 0 {
        return Some(own);
    }
    match offers.get(alternative - 1) {
        Some(offer) => Some(offer.body),
        None => None,
    }
}

// The end of a loop's statements, in the loop's frame.
fn continues_fit(lines: &[Line], within: Option<usize>, behind: usize, inside: usize) -> bool
    ensures { IsTrue result ↔ LoopAround (map plain_line lines.now) within
        (λ around. WaysAt (map plain_line lines.now) around within (behind ∷ inside ∷ [])) }
{
    match loop_around(lines, within) {
        Some(step) => is_within(lines, behind, step.within) && is_within(lines, inside, within),
        None => false,
    }
}

// The end of a block, in the block's frame; what is around the block comes behind it.
fn block_end_fits(lines: &[Line], within: Option<usize>, next: usize, out: usize) -> bool
    ensures { IsTrue result ↔ BlockAround (map plain_line lines.now) within
        (Behind (map plain_line lines.now) next out) }
{
    match block_around(lines, within) {
        Some(step) => is_within(lines, next, step.within) && out_fits(lines, step.within, out),
        None => false,
    }
}

// The end of what an accept does, in its frame; what is around the accept comes behind it.
fn accept_end_fits(lines: &[Line], within: Option<usize>, next: usize, out: usize) -> bool
    ensures { IsTrue result ↔ AcceptAround (map plain_line lines.now) within
        (Behind (map plain_line lines.now) next out) }
{
    match accept_around(lines, within) {
        Some(step) => is_within(lines, next, step.within) && out_fits(lines, step.within, out),
        None => false,
    }
}

// On a way out of a block and of this many loops around it.
fn leaving_fits(lines: &[Line], within: Option<usize>, loops: usize, to: usize) -> bool
    ensures { IsTrue result ↔ BlockAround (map plain_line lines.now) within
        (λ around. OutOfLoops (map plain_line lines.now) loops around
        (At (map plain_line lines.now) to)) }
{
    match block_around(lines, within) {
        Some(step) => leaves_loops(lines, step.within, loops, to),
        None => false,
    }
}

// Out of this number of loops, to a place.
fn leaves_loops(lines: &[Line], within: Option<usize>, loops: usize, to: usize) -> bool
    ensures { IsTrue result ↔ OutOfLoops (map plain_line lines.now) loops within
        (At (map plain_line lines.now) to) }
{
    let mut around = within;
    for _ in 0..loops {
        match loop_around(lines, around) {
            Some(step) => around = step.within,
            None => return false,
        }
    }
    is_within(lines, to, around)
}

// The step of the loop whose frame is the innermost one.
fn loop_around(lines: &[Line], within: Option<usize>) -> Option<&EndLine>
    ensures some { IfSome result (λ step.
        (opener (map plain_line lines.now) within ≡ Some (plain_end step.now))
        × OpensLoop (plain_last step.now.last)) }
    ensures none { IfNone result
        (Found (opener (map plain_line lines.now) within) (λ step. OpensLoop step.last) → ⊥) }
{
    let step = opener(lines, within)?;
    if opens_loop(&step.last) {
        Some(step)
    } else {
        None
    }
}

// The step of the block whose frame is the innermost one.
fn block_around(lines: &[Line], within: Option<usize>) -> Option<&EndLine>
    ensures some { IfSome result (λ step.
        (opener (map plain_line lines.now) within ≡ Some (plain_end step.now))
        × OpensBlock (plain_last step.now.last)) }
    ensures none { IfNone result
        (Found (opener (map plain_line lines.now) within) (λ step. OpensBlock step.last) → ⊥) }
{
    let step = opener(lines, within)?;
    if opens_block(&step.last) {
        Some(step)
    } else {
        None
    }
}

// The step of the accept whose frame is the innermost one.
fn accept_around(lines: &[Line], within: Option<usize>) -> Option<&EndLine>
    ensures some { IfSome result (λ step.
        (opener (map plain_line lines.now) within ≡ Some (plain_end step.now))
        × OpensAccept (plain_last step.now.last)) }
    ensures none { IfNone result
        (Found (opener (map plain_line lines.now) within) (λ step. OpensAccept step.last) → ⊥) }
{
    let step = opener(lines, within)?;
    if opens_accept(&step.last) {
        Some(step)
    } else {
        None
    }
}

/// The step that opened the innermost frame.
pub(crate) fn opener(lines: &[Line], within: Option<usize>) -> Option<&EndLine>
    ensures some { IfSome result (λ step.
        opener (map plain_line lines.now) within ≡ Some (plain_end step.now)) }
    ensures none { IfNone result (opener (map plain_line lines.now) within ≡ None) }
{
    found(lines, within?)
}

// Where exceptions go of what stands within this frame.
fn out_fits(lines: &[Line], within: Option<usize>, out: usize) -> bool
    ensures { IsTrue result ↔ OutFits (map plain_line lines.now) within out }
{
    match within {
        Some(place) => match found(lines, place) {
            Some(step) => out_of_opener(lines, place, step, out),
            None => false,
        },
        None => goes_to(lines, within, out),
    }
}

// Those of a loop's statements go where those of the loop's own step go.
fn out_of_opener(lines: &[Line], place: usize, step: &EndLine, out: usize) -> bool
    ensures { IsTrue result ↔ OutOf (map plain_line lines.now)
        (plain_last step.now.last) place step.now.out out }
{
    match &step.last {
        Last::Does(Ending::Loop { .. }, _) => step.out == out,
        _ => goes_to(lines, Some(place), out),
    }
}

fn goes_to(lines: &[Line], within: Option<usize>, out: usize) -> bool
    ensures { IsTrue result ↔ GoTo (map plain_line lines.now) within out }
{
    match found(lines, out) {
        Some(end) => takes_exceptions(&end.last) && end.within == within,
        None => false,
    }
}

// From guarded statements to the end of their construct.
fn goes_to_end(lines: &[Line], within: Option<usize>, out: usize) -> bool
    ensures { IsTrue result ↔ Found (found (map plain_line lines.now) out)
        (λ end. IsEnd end.last × (end.within ≡ within)) }
{
    match found(lines, out) {
        Some(end) => is_end(&end.last) && end.within == within,
        None => false,
    }
}

fn guards_within(lines: &[Line], guards: &[Guard], within: Option<usize>) -> bool
    ensures { IsTrue result ↔
        GuardsAt (map plain_line lines.now) within (map plain_guard guards.now) }
{
    for guard in guards {
        if !is_within(lines, guard.to, within) {
            return false;
        }
    }
    true
}

fn opens_loop(last: &Last) -> bool
    ensures { IsTrue result ↔ OpensLoop (plain_last last.now) }
{
    matches!(last, Last::Does(Ending::Loop { .. }, _))
}

fn opens_block(last: &Last) -> bool
    ensures { IsTrue result ↔ OpensBlock (plain_last last.now) }
{
    matches!(last, Last::Does(Ending::Block { .. }, _))
}

fn opens_accept(last: &Last) -> bool
    ensures { IsTrue result ↔ OpensAccept (plain_last last.now) }
{
    matches!(
        last,
        Last::Concerns(Among::Accept { .. } | Among::Select { .. }, _)
    )
}

fn takes_exceptions(last: &Last) -> bool
    ensures { IsTrue result ↔ TakesExceptions (plain_last last.now) }
{
    matches!(last, Last::Guards(_) | Last::Ends(_, _))
}

fn is_end(last: &Last) -> bool
    ensures { IsTrue result ↔ IsEnd (plain_last last.now) }
{
    matches!(last, Last::Ends(_, _))
}
