// Where a task stands, whether it acts or not.

ghost use Rattle.std.specs.Prelude.{◌≡◌};
ghost use Rattle.aud_meaning.specs.Run.{end_kind_by, master_left_by};
ghost use Rattle.aud_meaning.specs.Ties.Stack.{out_of_loops};
ghost use Rattle.aud_meaning.specs.Ties.Part.{Part};
ghost use Rattle.aud_code.specs.Places.{Spot};
ghost use Rattle.aud_sequential.specs.Next.{IsNextKind, place_in};
ghost use Rattle.aud_sequential.specs.Standing.{StandsAt, LeavesIn, LeavesMaster, leaves_by};

use crate::coming::step_kind;
use aud_code::line::Last;
use aud_code::sound_code::SoundCode;
use aud_exc::propagation::find_handler;
use aud_meaning::state::{Pending, StepKind};
use aud_store::purpose::Purpose;
use aud_store::stack::Stack;
use aud_text::place::Pos;

/// Where a task stands, the exception that is pending, and its open frames.
#[derive(Clone, Copy)]
pub struct Standing<'a> {
    pub place: usize,
    pub pending: Option<Pending>,
    pub stack: &'a Stack,
}

impl Standing<'_> {
    /// The kind of its next step.
    pub fn next_kind(&self, code: &SoundCode) -> StepKind
        ensures { (p : Part Spot) →
            StandsAt self.now.place self.now.pending self.now.stack.now p →
            IsNextKind code.now p result }
    {
        match self.pending {
            None => match code.ending(self.place) {
                Some(ending) => step_kind(&ending.last, self.end_kind()),
                None => self.end_kind(),
            },
            Some(pending) => match find_handler(code, self.place, pending.exception) {
                Some(_) => StepKind::Handler,
                None => self.end_kind(),
            },
        }
    }

    /// The place that is shown for its next step.
    pub fn shown_place(&self, code: &SoundCode) -> Pos
        ensures { result ≡ place_in code.now self.now.place self.now.pending }
    {
        match self.pending {
            None => match code.ending(self.place) {
                Some(ending) => ending.at,
                None => Pos { line: 0, col: 0 },
            },
            Some(pending) => pending.at,
        }
    }

    /// The master that its next step leaves, if that is the end of a block or procedure (RM 9.3).
    pub fn master_left(&self, code: &SoundCode) -> Option<usize>
        ensures { (p : Part Spot) →
            StandsAt self.now.place self.now.pending self.now.stack.now p →
            LeavesMaster code.now p result }
    {
        if self.leaves_construct(code) {
            self.innermost_master()
        } else {
            None
        }
    }

    // Whether its next step leaves the innermost construct.
    fn leaves_construct(&self, code: &SoundCode) -> bool
        ensures { (p : Part Spot) →
            StandsAt self.now.place self.now.pending self.now.stack.now p →
            LeavesIn code.now p result }
    {
        match self.pending {
            None => match code.ending(self.place) {
                Some(ending) => leaves(&ending.last),
                None => true,
            },
            Some(pending) => match find_handler(code, self.place, pending.exception) {
                Some(_) => false,
                None => true,
            },
        }
    }

    // The master that is the innermost construct; a body is none that is left.
    fn innermost_master(&self) -> Option<usize>
        ensures { result ≡ master_left_by (out_of_loops self.now.stack.now).opened }
    {
        match self.stack.construct() {
            Some(open) => match open.purpose {
                Purpose::Block | Purpose::Procedure { .. } => Some(open.frame),
                Purpose::Body
                | Purpose::Loop
                | Purpose::Operation { .. }
                | Purpose::Entry { .. }
                | Purpose::Accept { .. } => None,
            },
            None => None,
        }
    }

    // The kind of the step that leaves the innermost construct.
    fn end_kind(&self) -> StepKind
        ensures { result ≡ end_kind_by (out_of_loops self.now.stack.now).opened }
    {
        match self.stack.construct() {
            Some(open) => match open.purpose {
                Purpose::Block | Purpose::Procedure { .. } => StepKind::Leave,
                Purpose::Body | Purpose::Loop => StepKind::Complete,
                Purpose::Operation { .. } | Purpose::Entry { .. } => StepKind::Finish,
                Purpose::Accept { .. } => StepKind::Endaccept,
            },
            None => StepKind::Complete,
        }
    }
}

// Whether a step leaves the innermost construct, by how it ends.
fn leaves(last: &Last) -> bool
    ensures { result ≡ leaves_by last.now }
{
    match last {
        Last::Guards(_) | Last::Ends(_, _) | Last::Leaves { .. } => true,
        Last::Does(_, _) | Last::Concerns(_, _) | Last::Continues { .. } => false,
    }
}
