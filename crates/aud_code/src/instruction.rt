// Instructions, which evaluate the expressions of a step.

use aud_meaning::state::OpenAccept;
use aud_text::int32::Int32;
use aud_text::text::Text;
use aud_typed::program::{ArrayAt, Binary, Duration, Logical, Relation, Subtype, Unary, Variable};

/// An instruction. They work on the operands of a step: Integers, truth values and targets, of which the newest is taken
/// first, the arguments of a call, the tasks that are named, a text that grows at its end, the time that is waited for, the
/// cells of an object that is declared, and the alternatives of a selective accept that are open.
#[derive(Drop)]
pub enum Instruction {
    /// One more Integer.
    Push(Int32),
    /// What the variable's cell holds, as one more Integer.
    Load(Variable),
    /// Takes the newest Integer, an index; what the element's cell holds, as one more Integer. Constraint_Error is raised
    /// where the array has no element of that index (RM 4.1.1(7)).
    LoadElement(ArrayAt),
    /// An operator in place of the newest Integer.
    OnOne(Unary),
    /// An operator in place of the two newest Integers; the newest is its right operand.
    OnTwo(Binary),
    /// How many calls are queued on this entry of the task or object whose number the variable's cell holds, as one more Integer
    /// (RM 9.9(5)).
    Count(Variable, usize),
    /// The newest Integer is in the subtype's range, or Constraint_Error is raised (RM 4.6(51)).
    Check(Subtype),
    /// Takes the newest truth value; one more Integer, which a cell holds for it.
    Cell,
    /// One more truth value.
    PushTruth(bool),
    /// Takes the newest Integer, which a cell held; one more truth value.
    Truth,
    /// The other truth value in place of the newest one.
    Negate,
    /// Takes the two newest Integers, the newest being the right operand; one more truth value.
    Relate(Relation),
    /// A relation in place of the two newest truth values; the newest is its right operand.
    Compare(Relation),
    /// An operator in place of the two newest truth values; the newest is its right operand.
    Combine(Logical),
    /// Takes the newest Integer, a task's number; whether that task is callable, as one more truth value (RM 9.9(2)).
    IsCallable,
    /// The same; whether that task is terminated (RM 9.9(3)).
    IsTerminated,
    /// Takes the newest truth value where it is true. A false one stays, and this number of instructions is passed.
    PassIfFalse(usize),
    /// Takes the newest truth value where it is false. A true one stays, and this number of instructions is passed.
    PassIfTrue(usize),
    /// The variable's cell, with its subtype, as one more target.
    Find(Variable, Subtype),
    /// Takes the newest Integer, an index; the element's cell, with its subtype, as one more target. Constraint_Error is raised
    /// where the array has no element of that index (RM 4.1.1(7)).
    FindElement(ArrayAt, Subtype),
    /// What the newest target's cell holds, as one more Integer.
    LoadFound,
    /// Takes the newest Integer, as the next argument of a call.
    Pass,
    /// Takes the newest Integer, as the next argument, and the newest target, to which the formal of this number is copied back
    /// (RM 6.4.1(17)).
    PassCopy(usize),
    AppendText(Text),
    /// Takes the newest Integer, and puts its image at the text's end.
    AppendImage,
    /// Takes the newest truth value, and puts its image at the text's end.
    AppendTruth,
    AppendNewLine,
    /// Takes the newest Integer, a task's number, as that of one more task that is named.
    Name,
    /// The time that is waited for.
    Milliseconds(Duration),
    /// Takes the newest Integer: the time that is waited for, in seconds, and none where it is negative (RM 9.6).
    Seconds,
    /// The cells of an object that is declared begin; the first one holds its number (RM 9.4).
    BeginObject,
    /// Takes the newest Integer, as the next cell of the object.
    Component,
    /// Takes the newest truth value, that of a guard; where it is true, this accept is open (RM 9.7.1(14)).
    OpensAccept(OpenAccept),
    /// The same of the delay of the alternative of this number, whose time is not known yet.
    OpensDelay(usize),
    /// The same of a terminate alternative.
    OpensTerminate,
    /// What stands before it decides whether the step can be done.
    Mark,
    /// Unless the next open delay without a time is that of the alternative of the first number, this many instructions
    /// are passed.
    PassUnlessNext(usize, usize),
    /// The delay of the alternative of this number ends behind the time that is waited for.
    SetTime(usize),
}
