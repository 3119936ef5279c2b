// How many operands stand at a place, and what instructions and endings make of them.

ghost use Rattle.std.specs.Prelude.{◌≡◌, ◌↔◌, ◌+◌, ◌-◌, ◌≤◌, List, IsTrue};
ghost use Rattle.aud_code.specs.Flat.{FlatLine};
ghost use Rattle.aud_code.specs.Sound.{Counts as Standing, no_counts, EndingFine, InstructionFine, LastFine};
ghost use Rattle.aud_code.specs.View.{plain_among, plain_instruction, plain_ending, plain_last};
ghost use Rattle.aud_code.specs.Verified.{IsEnough, IsMet, Needs};
ghost use Rattle.aud_code.specs.Tabled.{behind, changed, counts, GoesOver, LeadsTo};

use crate::instruction::Instruction;
use crate::line::{Among, Ending, Last};

/// How many Integers, truth values, targets and tasks that are named; and whether the cells of an object have begun.
#[derive(Clone, Copy)]
pub struct Counts {
    pub integers: usize,
    pub booleans: usize,
    pub targets: usize,
    pub names: usize,
    pub cells: bool,
}

/// No operands.
pub const NOTHING: Counts = Counts {
    integers: 0,
    booleans: 0,
    targets: 0,
    names: 0,
    cells: false,
};

const INTEGER: Counts = Counts {
    integers: 1,
    ..NOTHING
};

const INTEGERS: Counts = Counts {
    integers: 2,
    ..NOTHING
};

const TRUTH: Counts = Counts {
    booleans: 1,
    ..NOTHING
};

const TRUTHS: Counts = Counts {
    booleans: 2,
    ..NOTHING
};

const TARGET: Counts = Counts {
    targets: 1,
    ..NOTHING
};

const NAME: Counts = Counts {
    names: 1,
    ..NOTHING
};

const CELLS: Counts = Counts {
    cells: true,
    ..NOTHING
};

const TARGET_AND_INTEGER: Counts = Counts {
    integers: 1,
    ..TARGET
};

/// What an instruction takes, and what it leaves for the line behind it.
#[derive(Clone, Copy)]
pub struct Effect {
    pub takes: Counts,
    pub leaves: Counts,
}

impl Counts {
    /// Whether there are none.
    pub(crate) fn is_nothing(self) -> bool
        ensures { IsTrue result ↔ (counts self ≡ no_counts) }
    {
        self.integers == 0
            && self.booleans == 0
            && self.targets == 0
            && self.names == 0
            && !self.cells
    }

    /// Whether the others are as many.
    pub(crate) fn is_same(self, other: Counts) -> bool
        ensures { IsTrue result ↔ (counts self ≡ counts other) }
    {
        self.integers == other.integers
            && self.booleans == other.booleans
            && self.targets == other.targets
            && self.names == other.names
            && self.cells == other.cells
    }

    /// Whether these are found among all that there are.
    pub(crate) fn are_among(self, all: Counts) -> bool
        ensures { IsTrue result ↔ IsEnough self (counts all) }
    {
        self.integers <= all.integers
            && self.booleans <= all.booleans
            && self.targets <= all.targets
            && self.names <= all.names
            && is_met(self.cells, all.cells)
    }
}

impl Effect {
    /// Whether it makes the ones of the others.
    pub(crate) fn makes(self, before: Counts, next: Counts) -> bool
        requires { IsEnough self.takes (counts before) }
        ensures { IsTrue result ↔ (counts next ≡ changed self (counts before)) }
    {
        let Effect { takes, leaves } = self;
        is_changed(
            before.integers,
            takes.integers,
            leaves.integers,
            next.integers,
        ) && is_changed(
            before.booleans,
            takes.booleans,
            leaves.booleans,
            next.booleans,
        ) && is_changed(before.targets, takes.targets, leaves.targets, next.targets)
            && is_changed(before.names, takes.names, leaves.names, next.names)
            && next.cells == (leaves.cells || before.cells)
    }
}

// Whether the cells of an object have begun, where that is needed.
fn is_met(needed: bool, begun: bool) -> bool
    ensures { IsTrue result ↔ IsMet needed begun }
{
    if needed { begun } else { true }
}

// Operands of one sort.
fn is_changed(before: usize, takes: usize, leaves: usize, next: usize) -> bool
    requires { takes ≤ before }
    ensures { IsTrue result ↔ (next ≡ before - takes + leaves) }
{
    leaves <= next && before - takes == next - leaves
}

/// What an instruction takes and leaves, which goes on with the next line. What one leaves that passes others is as
/// many as there were before it.
pub fn effect_of(instruction: &Instruction) -> Effect
    ensures fine { (ls : List FlatLine) → (cs : List Standing) → (c : Standing) →
        InstructionFine (plain_instruction instruction.now) (LeadsTo ls cs) c ↔ (
        IsEnough result.takes c × (LeadsTo ls cs 0 (changed result c)
        × GoesOver (plain_instruction instruction.now) (LeadsTo ls cs) c)) }
    ensures next { (c : Standing) →
        changed result c ≡ behind (plain_instruction instruction.now) c }
{
    match instruction {
        Instruction::Push(_) | Instruction::Load(_) | Instruction::Count(_, _) => {
            makes(NOTHING, INTEGER)
        }
        Instruction::LoadElement(_) | Instruction::OnOne(_) | Instruction::Check(_) => {
            makes(INTEGER, INTEGER)
        }
        Instruction::OnTwo(_) => makes(INTEGERS, INTEGER),
        Instruction::Cell => makes(TRUTH, INTEGER),
        Instruction::PushTruth(_) => makes(NOTHING, TRUTH),
        Instruction::Truth | Instruction::IsCallable | Instruction::IsTerminated => {
            makes(INTEGER, TRUTH)
        }
        Instruction::Negate => makes(TRUTH, TRUTH),
        Instruction::Relate(_) => makes(INTEGERS, TRUTH),
        Instruction::Compare(_) | Instruction::Combine(_) => makes(TRUTHS, TRUTH),
        Instruction::PassIfFalse(_)
        | Instruction::PassIfTrue(_)
        | Instruction::AppendTruth
        | Instruction::OpensAccept(_)
        | Instruction::OpensDelay(_)
        | Instruction::OpensTerminate => makes(TRUTH, NOTHING),
        Instruction::Find(_, _) => makes(NOTHING, TARGET),
        Instruction::FindElement(_, _) => makes(INTEGER, TARGET),
        Instruction::LoadFound => makes(TARGET, TARGET_AND_INTEGER),
        Instruction::PassCopy(_) => makes(TARGET_AND_INTEGER, NOTHING),
        Instruction::AppendText(_)
        | Instruction::AppendNewLine
        | Instruction::Milliseconds(_)
        | Instruction::Mark
        | Instruction::PassUnlessNext(_, _)
        | Instruction::SetTime(_) => makes(NOTHING, NOTHING),
        Instruction::AppendImage
        | Instruction::Pass
        | Instruction::Seconds
        | Instruction::Component => makes(INTEGER, NOTHING),
        Instruction::Name => makes(INTEGER, NAME),
        Instruction::BeginObject => makes(NOTHING, CELLS),
    }
}

fn makes(takes: Counts, leaves: Counts) -> Effect
    ensures { result ≡ record { takes = takes; leaves = leaves } }
{
    Effect { takes, leaves }
}

/// What the ending of a step needs.
pub(crate) fn need_of_last(last: &Last) -> Counts
    ensures { Needs (LastFine (plain_last last.now)) result }
{
    match last {
        Last::Does(ending, _) => need_of_ending(*ending),
        Last::Concerns(among, _) => need_of_among(among),
        Last::Continues { .. } | Last::Guards(_) | Last::Ends(_, _) | Last::Leaves { .. } =>
            NOTHING,
    }
}

// What the ending of a step needs that concerns others.
fn need_of_among(among: &Among) -> Counts
    ensures { Needs (EndingFine (plain_among among.now)) result }
{
    match among {
        Among::Call { .. } | Among::RequeueTask { .. } => NAME,
        Among::DeclareObject(_) => CELLS,
        Among::DeclareTasks(_)
        | Among::Activate
        | Among::Activated
        | Among::CallObject { .. }
        | Among::Operation { .. }
        | Among::Delay
        | Among::Accept { .. }
        | Among::Select { .. }
        | Among::Abort
        | Among::RequeueObject { .. } => NOTHING,
    }
}

// What the ending of a statement's step needs.
fn need_of_ending(ending: Ending) -> Counts
    ensures { Needs (EndingFine (plain_ending ending)) result }
{
    match ending {
        Ending::Declare { .. } | Ending::ReturnValue(_) => INTEGER,
        Ending::Assign => TARGET_AND_INTEGER,
        Ending::If(_) | Ending::While(_) | Ending::Exit(_) => TRUTH,
        Ending::Loop { .. } => INTEGERS,
        Ending::DeclareArray(_, _)
        | Ending::Null
        | Ending::Put
        | Ending::Raise(_)
        | Ending::RaiseAgain
        | Ending::Block { .. }
        | Ending::Return(_)
        | Ending::Call(_)
        | Ending::OwnCall => NOTHING,
    }
}
