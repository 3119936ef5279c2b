// What expressions ask of tasks and entries.

ghost use Rattle.std.specs.Prelude.{◌≡◌, nat_abs, pos, IfOk, OnOk};
ghost use Rattle.aud_meaning.specs.Evaluation.{Facts as FactsOf};
ghost use Rattle.aud_code.specs.Instruction.{Count, IsCallable, IsTerminated};
ghost use Rattle.aud_code.specs.Sound.{counts_of};
ghost use Rattle.aud_expr.specs.declared.flow.Flow.TheVariants.{Passes};
ghost use Rattle.aud_expr.specs.Flow.{FindsOperands, Asks, Seen};

use crate::operands::Operands;
use crate::variables::value_seen;
use aud_store::frames::Frames;
use aud_text::int32::Int32;
use aud_typed::program::Variable;
use std::alloc::AllocError;

/// What expressions ask of tasks, by their numbers, and of their entries' queues (RM 9.9).
pub trait Facts {
    ghost facts: { Self → FactsOf };

    /// How many calls are queued on an entry, by its owner's number.
    fn count(&self, owner: usize, entry: usize) -> usize
        ensures { result ≡ (facts self.now).count owner entry };

    /// Whether a task is callable.
    fn is_callable(&self, task: usize) -> bool
        ensures { result ≡ (facts self.now).callable task };

    /// Whether a task is terminated.
    fn is_terminated(&self, task: usize) -> bool
        ensures { result ≡ (facts self.now).terminated task };
}

#[tactic(auto, using(crate::proofs::OwnCells::facts_same))]
pub fn is_callable<F: Facts>(facts: &F, operands: &mut Operands) -> Result<(), AllocError>
    requires { FindsOperands IsCallable (counts_of operands.old) }
    ensures { OnOk result
        (Asks (F.facts facts.now) IsCallable (Passes 0) operands.old operands.new) }
{
    let task = number_in(operands.pop());
    operands.push_truth(facts.is_callable(task))
}

#[tactic(auto, using(crate::proofs::OwnCells::facts_same))]
pub fn is_terminated<F: Facts>(facts: &F, operands: &mut Operands) -> Result<(), AllocError>
    requires { FindsOperands IsTerminated (counts_of operands.old) }
    ensures { OnOk result
        (Asks (F.facts facts.now) IsTerminated (Passes 0) operands.old operands.new) }
{
    let task = number_in(operands.pop());
    operands.push_truth(facts.is_terminated(task))
}

/// How many calls are queued on this entry of the task or object whose number the variable's cell holds. Memory holds
/// no more of them than an Integer is large.
#[tactic(auto, using(crate::proofs::OwnCells::facts_same))]
pub fn count<F: Facts>(
    variable: Variable,
    entry: usize,
    facts: &F,
    display: &[usize],
    frames: &Frames,
    operands: &mut Operands,
) -> Result<(), AllocError>
    ensures { OnOk result (Seen (F.facts facts.now) display.now frames.now
        (Count variable entry) (Passes 0) operands.old operands.new) }
{
    let owner = number_in(value_seen(variable, display, frames, operands));
    let count = integer_of(facts.count(owner, entry))?;
    operands.push(count)
}

/// A number as an Integer. Memory is refused where it is too large for one, since no memory holds so many calls or objects.
pub fn integer_of(number: usize) -> Result<Int32, AllocError>
    ensures { IfOk result (λ z. z ≡ pos number) }
{
    match i32::try_from(number) {
        Ok(value) => Ok(Int32::new(value)),
        Err(_) => Err(AllocError),
    }
}

/// The number that a cell holds.
pub fn number_in(cell: Int32) -> usize
    ensures { result ≡ nat_abs cell }
{
    cell.get().unsigned_abs() as usize
}
