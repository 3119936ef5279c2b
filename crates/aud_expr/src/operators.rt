// Operators of Integers and of truth values, and the ranges of subtypes.

ghost use Rattle.std.specs.Prelude.{◌≡◌, ◌+ℤ◌, IfSome, true};
ghost use Rattle.aud_meaning.specs.Evaluation.{unary_of, binary_of, cell_of, truth_of, related, logical_of, in_range};
ghost use Rattle.aud_meaning.specs.Step.{for_step, has_next};

use aud_text::int32::Int32;
use aud_text::raise::Raise;
use aud_typed::program::{Binary, Logical, Relation, Subtype, Unary};

/// The next value of a loop's parameter, unless its range has none (RM 5.5(9)).
#[inline(always)]
pub fn next_value(backward: bool, value: Int32, last: Int32) -> Option<Int32>
    ensures { IfSome result (λ next. (has_next backward value last ≡ true) ×
        (next ≡ value +ℤ for_step backward)) }
{
    let (value, last) = (value.get(), last.get());
    if backward {
        if value <= last {
            return None;
        }
        return Some(Int32::new(value - 1));
    }
    if last <= value {
        return None;
    }
    Some(Int32::new(value + 1))
}

#[inline(always)]
pub fn unary_of(operator: Unary, x: Int32) -> Result<Int32, Raise>
    ensures { result ≡ unary_of operator x }
{
    match operator {
        Unary::Negative => x.negated(),
        Unary::Magnitude => x.magnitude(),
    }
}

#[inline(always)]
pub fn binary_of(operator: Binary, x: Int32, y: Int32) -> Result<Int32, Raise>
    ensures { result ≡ binary_of operator x y }
{
    match operator {
        Binary::Sum => x.add(y),
        Binary::Difference => x.sub(y),
        Binary::Product => x.mul(y),
        Binary::Quotient => x.div(y),
        Binary::Modulus => x.modulo(y),
        Binary::Remainder => x.rem(y),
    }
}

/// What a cell holds for a truth value.
#[inline(always)]
pub fn cell_of(value: bool) -> Int32
    ensures { result ≡ cell_of value }
{
    if value { Int32::new(1) } else { Int32::new(0) }
}

/// The truth value that a cell holds.
#[inline(always)]
pub fn truth_of(value: Int32) -> bool
    ensures { result ≡ truth_of value }
{
    value.get() != 0
}

/// By how the first value stands to the second one, and not by a way of its own for each relation: machines relate in every loop.
#[inline(always)]
pub fn related(relation: Relation, x: Int32, y: Int32) -> bool
    ensures { result ≡ related relation x y }
{
    let (x, y) = (x.get(), y.get());
    if x < y {
        matches!(
            relation,
            Relation::Unequal | Relation::Less | Relation::AtMost
        )
    } else if x == y {
        matches!(
            relation,
            Relation::Equal | Relation::AtMost | Relation::AtLeast
        )
    } else {
        matches!(
            relation,
            Relation::Unequal | Relation::Greater | Relation::AtLeast
        )
    }
}

#[inline(always)]
pub fn logical_of(operator: Logical, x: bool, y: bool) -> bool
    ensures { result ≡ logical_of operator x y }
{
    match operator {
        Logical::And => x && y,
        Logical::Or => x || y,
        Logical::Xor => x != y,
    }
}

/// The value, or Constraint_Error where it is below the subtype's range (RM 4.6(51)).
#[inline(always)]
pub fn in_range(subtype: Subtype, value: Int32) -> Result<Int32, Raise>
    ensures { result ≡ in_range subtype value }
{
    let lowest = match subtype {
        Subtype::Integer => i32::MIN,
        Subtype::Natural | Subtype::Boolean => 0,
        Subtype::Positive => 1,
    };
    if value.get() < lowest {
        return Err(Raise::Constraint);
    }
    Ok(value)
}
