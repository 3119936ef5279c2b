// What is checked behind a part that is typed.
//
// Where memory is refused, the parts in hand are dropped. A function that knows their type does so
// branch by branch, at each of its ways out; one of any type does it by one call. So a part is handed
// to this function while more is checked.

ghost use Rattle.std.specs.Prelude.{◌≡◌, ◌++◌, ◌∷◌, [], IfOk, OnOk, Ok};

use std::alloc::{AllocError, Global};

/// What is made, where memory is not refused.
pub type Made<T> = Result<T, AllocError>;

/// What is left of a part that is checked, where memory is not refused.
pub type Left<T> = Result<Box<T>, AllocError>;

/// A part, and what is checked behind it.
pub fn both<T: Drop, U>(first: T, next: Made<U>) -> Made<(T, U)>
    ensures first { IfOk result (λ parts. parts.0 ≡ first) }
    ensures next { IfOk result (λ parts. next ≡ Ok parts.1) }
{
    let second = next?;
    Ok((first, second))
}

/// A part in a box.
pub fn boxed<T: Drop>(alloc: Global, part: T) -> Left<T>
    ensures { IfOk result (λ b. b.value ≡ part) }
{
    Ok(Box::new(alloc, part)?)
}

/// Adds a part to a list. `Vec::push` gives the part back where memory is refused; it is dropped here, once for all types.
pub fn add_last<T: Drop>(all: &mut Vec<T>, next: T) -> Made<()>
    ensures { OnOk result (all.new.items ≡ all.old.items ++ next ∷ []) }
{
    all.push(next)?;
    Ok(())
}

/// Puts what is in a box before a list.
pub fn add_first<T: Drop>(all: &mut Vec<T>, first: Box<T>) -> Made<()>
    ensures { OnOk result (all.new.items ≡ first.value ∷ all.old.items) }
{
    all.insert(0, Box::into_inner(first))?;
    Ok(())
}

/// Adds what is in a box to a list. It is not inlined, so that this does not stand in the stack frames of
/// statements that lie in one another.
#[inline(never)]
pub fn push<T: Drop>(all: &mut Vec<T>, next: Box<T>) -> Made<()>
    ensures { OnOk result (all.new.items ≡ all.old.items ++ next.value ∷ []) }
{
    all.push(Box::into_inner(next))?;
    Ok(())
}
