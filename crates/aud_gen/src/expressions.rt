// The instructions of expressions and arguments.

ghost use Rattle.std.specs.Prelude.{◌≡◌, ◌∷◌, [], length};
ghost use Rattle.aud_typed.specs.Ties.View.{plain_argument, plain_arguments, plain_delay, plain_form};
ghost use Rattle.aud_typed.specs.Ties.View.{plain_integer, plain_task, plain_boolean, plain_value, plain_reference, plain_text};
ghost use Rattle.aud_code.specs.Instruction.{AppendText};
ghost use Rattle.aud_layout.specs.Instructions.{argument_code, arguments_code, copied_code, delay_code, form_code};
ghost use Rattle.aud_layout.specs.Instructions.{integer_code, task_code, condition_code, value_code, reference_code, text_code};
ghost use Rattle.aud_gen.specs.Writes.{right_code, Finds, Instructs};

use crate::lengths::boolean_length;
use crate::writer::Writer;
use aud_code::instruction::Instruction;
use aud_meaning::values::nearest_zero;
use aud_text::text::Text;
use aud_typed::program::{
    Argument, BooleanExpression, CallForm, Connective, DelayExpression, IntegerExpression,
    Reference, Subtype, TaskName, TextExpression, ValueExpression,
};

impl Writer {
    /// An expression of type Integer.
    pub fn write_integer(&mut self, e: &IntegerExpression)
        ensures { Instructs self.old self.new (integer_code (plain_integer e.now)) }
    {
        match e {
            IntegerExpression::Number(value) => self.instruct(Instruction::Push(*value)),
            IntegerExpression::Variable(v) => self.instruct(Instruction::Load(*v)),
            IntegerExpression::Count(v, entry) => self.instruct(Instruction::Count(*v, *entry)),
            IntegerExpression::Element(array, index) => {
                self.write_integer(index);
                self.instruct(Instruction::LoadElement(*array))
            }
            IntegerExpression::Unary(operator, x) => {
                self.write_integer(x);
                self.instruct(Instruction::OnOne(*operator))
            }
            IntegerExpression::Chain(first, rest) => {
                self.write_integer(first);
                for next in rest {
                    self.write_integer(&next.right);
                    self.instruct(Instruction::OnTwo(next.operator));
                }
            }
        }
    }

    /// The number of a task.
    pub fn write_task(&mut self, t: &TaskName)
        ensures { Instructs self.old self.new (task_code (plain_task t.now)) }
    {
        match t {
            TaskName::Single(v) => self.instruct(Instruction::Load(*v)),
            TaskName::Element(array, index) => {
                self.write_integer(index);
                self.instruct(Instruction::LoadElement(*array))
            }
        }
    }

    /// An expression of type Boolean.
    #[cycle(boolean)]
    pub fn write_boolean(&mut self, e: &BooleanExpression)
        ensures { Instructs self.old self.new (condition_code (plain_boolean e.now)) }
    {
        match e {
            BooleanExpression::Truth(value) => self.instruct(Instruction::PushTruth(*value)),
            BooleanExpression::Variable(v) => {
                self.instruct(Instruction::Load(*v));
                self.instruct(Instruction::Truth)
            }
            BooleanExpression::Element(array, index) => {
                self.write_integer(index);
                self.instruct(Instruction::LoadElement(*array));
                self.instruct(Instruction::Truth)
            }
            BooleanExpression::Not(x) => {
                self.write_boolean(x);
                self.instruct(Instruction::Negate)
            }
            BooleanExpression::Relation(relation, x, y) => {
                self.write_integer(x);
                self.write_integer(y);
                self.instruct(Instruction::Relate(*relation))
            }
            BooleanExpression::Comparison(relation, x, y) => {
                self.write_boolean(x);
                self.write_boolean(y);
                self.instruct(Instruction::Compare(*relation))
            }
            BooleanExpression::Chain(connective, first, rest) => {
                self.write_boolean(first);
                for next in rest {
                    self.write_right(*connective, next);
                }
            }
            BooleanExpression::Callable(task) => {
                self.write_task(task);
                self.instruct(Instruction::IsCallable)
            }
            BooleanExpression::Terminated(task) => {
                self.write_task(task);
                self.instruct(Instruction::IsTerminated)
            }
        }
    }

    // The right side of an operator, and the operator. A short circuit passes its right side where the left one decides.
    #[cycle(boolean)]
    fn write_right(&mut self, connective: Connective, e: &BooleanExpression)
        ensures { Instructs self.old self.new (right_code connective (plain_boolean e.now)) }
    {
        match connective {
            Connective::Logical(operator) => {
                self.write_boolean(e);
                self.instruct(Instruction::Combine(operator))
            }
            Connective::AndThen => {
                let passed = self.passed(e);
                self.instruct(Instruction::PassIfFalse(passed));
                self.write_boolean(e);
            }
            Connective::OrElse => {
                let passed = self.passed(e);
                self.instruct(Instruction::PassIfTrue(passed));
                self.write_boolean(e);
            }
        }
    }

    // How many instructions are passed where an expression is.
    fn passed(&mut self, e: &BooleanExpression) -> usize
        ensures { Finds self.old self.new
            (result ≡ length (condition_code (plain_boolean e.now))) }
    {
        self.behind(0, boolean_length(e))
    }

    /// A value for a place that asks for a subtype.
    pub fn write_value(&mut self, e: &ValueExpression)
        ensures { Instructs self.old self.new (value_code (plain_value e.now)) }
    {
        match e {
            ValueExpression::Whole(subtype, x) => {
                self.write_integer(x);
                self.instruct(Instruction::Check(*subtype))
            }
            ValueExpression::Truth(x) => {
                self.write_boolean(x);
                self.instruct(Instruction::Cell)
            }
        }
    }

    /// What is assigned.
    pub fn write_reference(&mut self, r: &Reference)
        ensures { Instructs self.old self.new (reference_code (plain_reference r.now)) }
    {
        match r {
            Reference::Scalar(v, subtype) => self.instruct(Instruction::Find(*v, *subtype)),
            Reference::Element(array, index, subtype) => {
                self.write_integer(index);
                self.instruct(Instruction::FindElement(*array, *subtype))
            }
        }
    }

    /// The arguments of a call, for the formals from the first one on.
    pub fn write_arguments(&mut self, arguments: &[Argument])
        ensures { Instructs self.old self.new (arguments_code 0 (plain_arguments arguments.now)) }
    {
        for number in 0..arguments.len() {
            self.write_argument(number, &arguments[number]);
        }
    }

    // An argument, for the formal of this number.
    fn write_argument(&mut self, number: usize, argument: &Argument)
        ensures { Instructs self.old self.new (argument_code number (plain_argument argument.now)) }
    {
        match argument {
            Argument::ByValue(e) => {
                self.write_value(e);
                self.instruct(Instruction::Pass)
            }
            Argument::ByCopy(is_in, formal, r) => {
                self.write_reference(r);
                self.write_first_value(*is_in, *formal);
                self.instruct(Instruction::PassCopy(number))
            }
        }
    }

    // What a formal of mode in out or out begins with, of this subtype.
    fn write_first_value(&mut self, is_in: bool, formal: Subtype)
        ensures { Instructs self.old self.new (copied_code is_in formal) }
    {
        if is_in {
            self.instruct(Instruction::LoadFound);
            self.instruct(Instruction::Check(formal))
        } else {
            self.instruct(Instruction::Push(nearest_zero(formal)))
        }
    }

    /// A delay.
    pub fn write_delay(&mut self, e: &DelayExpression)
        ensures { Instructs self.old self.new (delay_code (plain_delay e.now)) }
    {
        match e {
            DelayExpression::Fixed(time) => self.instruct(Instruction::Milliseconds(*time)),
            DelayExpression::Seconds(x) => {
                self.write_integer(x);
                self.instruct(Instruction::Seconds)
            }
        }
    }

    /// The time that a call waits.
    pub fn write_form(&mut self, form: &CallForm)
        ensures { Instructs self.old self.new (form_code (plain_form form.now)) }
    {
        match form {
            CallForm::Plain => {}
            CallForm::Conditional => {}
            CallForm::Timed(e) => self.write_delay(e),
        }
    }

    /// A text.
    pub fn write_text(&mut self, t: &TextExpression)
        ensures { Instructs self.old self.new (text_code (plain_text t.now)) }
    {
        match t {
            TextExpression::Literal(text) => self.write_literal(text),
            TextExpression::Image(e) => {
                self.write_integer(e);
                self.instruct(Instruction::AppendImage)
            }
            TextExpression::ImageTruth(e) => {
                self.write_boolean(e);
                self.instruct(Instruction::AppendTruth)
            }
            TextExpression::Join(first, rest) => {
                self.write_text(first);
                for next in rest {
                    self.write_text(next);
                }
            }
            TextExpression::NewLine => self.instruct(Instruction::AppendNewLine),
        }
    }

    fn write_literal(&mut self, text: &Text)
        ensures { Instructs self.old self.new (AppendText text.now ∷ []) }
    {
        match text.try_clone(self.alloc()) {
            Ok(text) => self.instruct(Instruction::AppendText(text)),
            Err(_) => self.refuse(),
        }
    }
}
