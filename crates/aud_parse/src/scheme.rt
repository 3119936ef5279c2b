// How often a loop is gone through (RM 5.5(3)).
//
// Trees are handed on in boxes, so that little stands in the stack frames of statements that lie in
// one another.

ghost use Rattle.aud_lex.specs.declared.token.Kind.TheVariants as kind;
ghost use Rattle.std.specs.Prelude.{◌∷◌, []};
ghost use Rattle.aud_grammar.specs.Grammar as g;
ghost use Rattle.aud_grammar.specs.Grammar.{N, T, Opt};
ghost use Rattle.aud_cursor.specs.Ties.Items.{opt_item};
ghost use Rattle.aud_parse.specs.Ties.Items.{scheme_item, range_items};
ghost use Rattle.aud_cursor.specs.Ties.Reads.{Reads, MayRead, ReadsAll};

use crate::build::boxed;
use aud_cursor::cursor::{Read, Rest, is, token, word};
use aud_cursor::leaf::{ident, mark};
use aud_lex::token::Kind;
use aud_parse_expr::expression::{expression, simple};
use aud_syntax::tree::{Iteration, LoopParameter, Simple};
use aud_text::place::Pos;
use std::alloc::Global;

/// How often a loop is gone through, and where that is said.
pub type Scheme = (Pos, Box<Iteration>);

/// As long as a condition is true.
fn while_scheme(alloc: Global, start: Rest, room: u32) -> Read<Scheme>
    ensures { Reads scheme_item (N g.While) room start.entry result }
{
    let (t, rest) = token(start, Kind::While)?;
    let (condition, rest) = expression(alloc, rest, room)?;
    let iteration = Iteration::While(Box::into_inner(condition));
    let boxed = boxed(alloc, iteration)?;
    Ok(((t.at(), boxed), rest))
}

/// The bounds of a loop's parameter (RM 3.5).
fn range(alloc: Global, start: Rest, room: u32) -> Read<(Box<Simple>, Box<Simple>)>
    ensures { ReadsAll range_items
        (N g.Simple ∷ T kind.DoubleDot ∷ N g.Simple ∷ []) room start.entry result }
{
    let (low, rest) = simple(alloc, start, room)?;
    let rest = word(rest, Kind::DoubleDot)?;
    let (high, rest) = simple(alloc, rest, room)?;
    Ok(((low, high), rest))
}

/// Once for each value of a parameter (RM 5.5(4)).
fn for_scheme(alloc: Global, start: Rest, room: u32) -> Read<Scheme>
    ensures { Reads scheme_item (N g.For) room start.entry result }
{
    let (t, rest) = token(start, Kind::For)?;
    let (name, rest) = ident(alloc, rest)?;
    let rest = word(rest, Kind::In)?;
    let (reverse, rest) = mark(rest, Kind::Reverse);
    let ((low, high), rest) = range(alloc, rest, room)?;
    let parameter = LoopParameter {
        name,
        reverse,
        low: Box::into_inner(low),
        high: Box::into_inner(high),
    };
    let boxed = boxed(alloc, Iteration::For(parameter))?;
    Ok(((t.at(), boxed), rest))
}

/// How often a loop is gone through, if that is said, and where.
#[inline(never)]
pub fn opt_scheme(alloc: Global, start: Rest, room: u32) -> Read<Option<Scheme>>
    ensures { MayRead (opt_item scheme_item) (Opt g.Iteration) room start.entry result }
{
    if is(start, Kind::While) {
        let (scheme, rest) = while_scheme(alloc, start, room)?;
        return Ok((Some(scheme), rest));
    }
    if is(start, Kind::For) {
        let (scheme, rest) = for_scheme(alloc, start, room)?;
        return Ok((Some(scheme), rest));
    }
    Ok((None, start))
}
