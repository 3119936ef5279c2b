// Identifiers, string literals, real numbers, and words of which only whether they are there is kept.

ghost use Rattle.std.specs.Prelude.{◌≡◌};
ghost use Rattle.aud_grammar.specs.Grammar as g;
ghost use Rattle.aud_grammar.specs.Grammar.{Phrase, N, Opt, Rep};
ghost use Rattle.aud_grammar.specs.Actions.{an_ident, a_literal, real_of, token};
ghost use Rattle.aud_cursor.specs.Ties.Items.{vec_item, opt_item};
ghost use Rattle.aud_cursor.specs.Ties.Parts.{IsBehind, IsMark, mark_item};
ghost use Rattle.aud_cursor.specs.Ties.Reads.{ReadsFlat, MayReadFlat, TakesAny};

use crate::cursor::{Read, Rest, accept, is, token};
use crate::value::{real_value, unquoted};
use aud_lex::token::{Kind, Token};
use aud_syntax::tree::{Ident, Literal, Real};
use aud_text::name::Name;
use std::alloc::Global;

/// An identifier (RM 2.3).
pub fn ident(alloc: Global, start: Rest) -> Read<Ident>
    ensures { ReadsFlat an_ident (N g.Identifier) start.entry result }
{
    let (t, rest) = token(start, Kind::Identifier)?;
    let name = Name::from_source(alloc, t.text())?;
    Ok((Ident { name, at: t.at() }, rest))
}

/// The name behind `end`, of the loop that is left, or of the exception that is raised, if there is
/// one (RM 5.5, 5.7, 6.3, 9.1, 11.3).
pub fn opt_ident(alloc: Global, start: Rest) -> Read<Option<Ident>>
    ensures { MayReadFlat (opt_item an_ident) (Opt g.Identifier) start.entry result }
{
    if is(start, Kind::Identifier) {
        let (name, rest) = ident(alloc, start)?;
        return Ok((Some(name), rest));
    }
    Ok((None, start))
}

/// Further names, each behind the delimiter (RM 3.3.1(4), 11.2).
pub fn more_idents(alloc: Global, start: Rest, delimiter: Kind) -> Read<Vec<Ident>>
    ensures { (p : Phrase) → IsBehind delimiter g.Identifier p →
        MayReadFlat (vec_item an_ident) (Rep p) start.entry result }
{
    let mut all = Vec::new(alloc);
    let mut rest = start;
    'turns: while let Some((_, behind)) = accept(rest, delimiter) {
        let (name, after) = ident(alloc, behind)?;
        all.push(name)?;
        rest = after;
    }
    Ok((all, rest))
}

/// Whether the word comes next, and the tokens behind it.
pub fn mark(start: Rest, kind: Kind) -> (bool, Rest)
    ensures { (p : Phrase) → IsMark kind p → TakesAny mark_item (Opt p) start.entry result }
{
    match accept(start, kind) {
        Some((_, rest)) => (true, rest),
        None => (false, start),
    }
}

/// A string literal (RM 2.6).
// Not inlined, so that its values do not stand in the stack frames of each nested expression.
#[inline(never)]
pub fn literal(alloc: Global, start: Rest) -> Read<Literal>
    ensures { ReadsFlat a_literal (N g.Literal) start.entry result }
{
    let (t, rest) = token(start, Kind::Text)?;
    let text = unquoted(alloc, t.text())?;
    Ok((Literal { text, at: t.at() }, rest))
}

/// The real number that is written (RM 2.4).
pub fn real_of(t: &Token) -> Real
    ensures { result ≡ real_of (token t.now) }
{
    let (whole, thousandths) = real_value(t.text());
    let at = t.at();
    Real {
        whole,
        thousandths,
        at,
    }
}
