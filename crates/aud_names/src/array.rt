// Bounds of arrays, and what declarations of variables, constants, arrays, tasks and protected objects declare.

ghost use Rattle.std.specs.Prelude.{◌≡◌};
ghost use Rattle.aud_fault.specs.Least.{noted};
ghost use Rattle.aud_names.specs.Arrays.{with_sign, bound_value, bound_faults, or_zero, length_between, array_at, task_array_at, row_between, new_meaning, cells_of};

use crate::names::{Access, Array, Instance, Meaning, Object, Task, TaskArray};
use crate::rules::number_too_large;
use aud_fault::fault::Least;
use aud_syntax::tree::Bound;
use aud_text::int32::Int32;
use aud_typed::program::{ArrayAt, Subtype, Variable};

/// What a declaration declares: the subtype, where that is known, and whether constants (RM 3.3.1(5)).
#[derive(Clone, Copy)]
pub struct Scalar {
    pub subtype: Option<Subtype>,
    pub constant: bool,
}

/// The bounds of arrays, and the subtype of their elements, where that is known (RM 3.6).
#[derive(Clone, Copy)]
pub struct Row {
    pub low: i32,
    pub high: i32,
    pub subtype: Option<Subtype>,
}

/// The bounds of arrays of tasks, and the number of the tasks' type.
#[derive(Clone, Copy)]
pub struct TaskRow {
    pub low: i32,
    pub high: i32,
    pub task_type: usize,
}

/// What the names of a declaration are declared to be.
#[derive(Clone, Copy)]
pub enum Kind {
    /// Variables or constants.
    Scalar(Scalar),
    /// Arrays.
    Row(Row),
    /// Tasks of the type of this number (RM 9.1).
    Task(usize),
    /// Arrays of tasks.
    TaskRow(TaskRow),
    /// The protected object of this number (RM 9.4).
    Protected(usize),
}

fn with_sign(negative: bool, value: Option<Int32>) -> Option<Int32>
    ensures { result ≡ with_sign negative value }
{
    match value {
        None => None,
        Some(value) => {
            if negative {
                value.negated().ok()
            } else {
                Some(value)
            }
        }
    }
}

/// The value of a bound, none where it is none of type Integer (RM 3.6.1): notes its fault.
pub fn bound(bound: Bound, faults: &mut Least) -> Option<Int32>
    ensures value { result ≡ bound_value bound }
    ensures noted { faults.new ≡ noted faults.old (bound_faults bound) }
{
    let Bound { negative, number } = bound;
    let value = with_sign(negative, number.value);
    if value.is_none() {
        number_too_large(number.at, faults);
    }
    value
}

/// The value of a bound; what stands for a faulty one has no meaning.
pub fn or_zero(value: Option<Int32>) -> i32
    ensures { result ≡ or_zero value }
{
    match value {
        None => 0,
        Some(value) => value.get(),
    }
}

/// How many elements an array with these bounds has (RM 3.6.1(8)).
pub fn length_between(low: i32, high: i32) -> usize
    ensures { result ≡ length_between low high }
{
    if high < low {
        return 0;
    }
    high.abs_diff(low) as usize + 1
}

/// Where an array lies.
pub fn array_at(array: Array) -> ArrayAt
    ensures { result ≡ array_at array }
{
    ArrayAt {
        first: array.first,
        low: array.low,
        length: length_between(array.low, array.high),
    }
}

/// Where an array of tasks lies.
pub fn task_array_at(array: TaskArray) -> ArrayAt
    ensures { result ≡ task_array_at array }
{
    ArrayAt {
        first: array.first,
        low: array.low,
        length: length_between(array.low, array.high),
    }
}

/// Arrays with these bounds.
pub fn row_between(low: Option<Int32>, high: Option<Int32>, subtype: Option<Subtype>) -> Kind
    ensures { result ≡ row_between (or_zero low) (or_zero high) subtype }
{
    Kind::Row(Row {
        low: or_zero(low),
        high: or_zero(high),
        subtype,
    })
}

/// What is declared at a level from a cell on.
pub fn new_meaning(kind: Kind, level: usize, index: usize) -> Meaning
    ensures { result ≡ new_meaning kind level index }
{
    let variable = Variable { level, index };
    match kind {
        Kind::Scalar(scalar) => Meaning::Object(Object {
            variable,
            subtype: scalar.subtype,
            constant: scalar.constant,
            locked: false,
        }),
        Kind::Row(row) => Meaning::Array(Array {
            first: variable,
            low: row.low,
            high: row.high,
            subtype: row.subtype,
        }),
        Kind::Task(task_type) => Meaning::Task(Task {
            variable,
            task_type,
        }),
        Kind::TaskRow(row) => Meaning::TaskArray(TaskArray {
            first: variable,
            low: row.low,
            high: row.high,
            task_type: row.task_type,
        }),
        Kind::Protected(object) => Meaning::Protected(Instance {
            variable,
            object,
            access: Access::Outside,
        }),
    }
}

/// How many cells it takes.
pub fn cells_of(kind: Kind) -> usize
    ensures { result ≡ cells_of kind }
{
    match kind {
        Kind::Scalar(_) | Kind::Task(_) | Kind::Protected(_) => 1,
        Kind::Row(row) => length_between(row.low, row.high),
        Kind::TaskRow(row) => length_between(row.low, row.high),
    }
}
