// What is read behind a tree.
//
// Where reading fails, the trees in hand are dropped. A function that knows their type does so branch
// by branch, at each of its ways out; one of any type does it by one call. So a tree is handed to
// these functions while more is read. They are not inlined, so what a drop takes of the stack is not
// in the frames of the functions that call each other.

ghost use Rattle.std.specs.Prelude.{◌≡◌};
ghost use Rattle.aud_cursor.specs.Ties.Behind.{Ends, both};

use crate::cursor::{Read, Rest, word};
use aud_lex::token::Kind;

/// A tree, and the tokens behind the word that ends it.
#[inline(never)]
pub fn ended<T: Drop>(tree: T, start: Rest, kind: Kind) -> Read<T>
    ensures { Ends kind tree start.entry result }
{
    let rest = word(start, kind)?;
    Ok((tree, rest))
}

/// A tree, and what is read behind it.
#[inline(never)]
pub fn both<T: Drop, U>(first: T, next: Read<U>) -> Read<(T, U)>
    ensures { result ≡ both first next.entry }
{
    let (second, rest) = next?;
    Ok(((first, second), rest))
}
