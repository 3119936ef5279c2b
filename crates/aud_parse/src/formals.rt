// Formal parameters (RM 6.1).

ghost use Rattle.std.specs.Prelude.{◌∷◌, []};
ghost use Rattle.aud_lex.specs.declared.token.Kind.TheVariants as kind;
ghost use Rattle.aud_grammar.specs.Grammar as g;
ghost use Rattle.aud_grammar.specs.Grammar.{N, T, Opt};
ghost use Rattle.aud_cursor.specs.Ties.Items.{vec_item};
ghost use Rattle.aud_parse.specs.Ties.Items.{formal_item, specification_items};
ghost use Rattle.aud_cursor.specs.Ties.Reads.{Reads, MayRead, ReadsFlat, ReadsAll};

use crate::build::Specification;
use crate::declaration::identifiers;
use aud_cursor::behind::{both, ended};
use aud_cursor::cursor::{Read, Rest, accept, deeper, is, word};
use aud_cursor::leaf::ident;
use aud_cursor::mode::opt_mode;
use aud_lex::token::Kind;
use aud_syntax::tree::Formal;
use std::alloc::Global;

/// Formal parameters of one mode and subtype (RM 6.1(15)).
fn formal(alloc: Global, start: Rest) -> Read<Formal>
    ensures { ReadsFlat formal_item (N g.Formal) start.entry result }
{
    let (names, rest) = identifiers(alloc, start)?;
    let rest = word(rest, Kind::Colon)?;
    let (mode, rest) = opt_mode(rest);
    let ((names, subtype), rest) = both(names, ident(alloc, rest))?;
    let formal = Formal {
        names,
        mode,
        subtype,
    };
    Ok((formal, rest))
}

/// Formal parameters in their parentheses.
fn in_formals(alloc: Global, start: Rest) -> Read<Vec<Formal>>
    ensures { ReadsFlat (vec_item formal_item) (N g.InFormals) start.entry result }
{
    let mut all = Vec::new(alloc);
    let mut rest = word(start, Kind::LeftParenthesis)?;
    'turns: loop {
        let (one, after) = formal(alloc, rest)?;
        all.push(one)?;
        let Some((_, behind)) = accept(after, Kind::Semicolon) else {
            let rest = word(after, Kind::RightParenthesis)?;
            return Ok((all, rest));
        };
        rest = behind;
    }
}

/// The same, one level deeper.
fn formals(alloc: Global, start: Rest, room: u32) -> Read<Vec<Formal>>
    ensures { Reads (vec_item formal_item) (N g.Formals) room start.entry result }
{
    deeper(start, room, is(start, Kind::LeftParenthesis))?;
    in_formals(alloc, start)
}

/// Formal parameters, if there are any.
fn opt_formals(alloc: Global, start: Rest, room: u32) -> Read<Vec<Formal>>
    ensures { MayRead (vec_item formal_item) (Opt g.Formals) room start.entry result }
{
    if is(start, Kind::LeftParenthesis) {
        return formals(alloc, start, room);
    }
    let none = Vec::new(alloc);
    Ok((none, start))
}

/// A name, and the formal parameters behind it (RM 6.1, 9.5.2).
#[inline(never)]
pub fn head(alloc: Global, start: Rest, room: u32) -> Read<Specification>
    ensures { ReadsAll specification_items
        (N g.Identifier ∷ Opt g.Formals ∷ []) room start.entry result }
{
    let (name, rest) = ident(alloc, start)?;
    let (parts, rest) = both(name, opt_formals(alloc, rest, room))?;
    Ok((parts, rest))
}

/// The name of a procedure, its formal parameters, and the `is` behind them (RM 6.1, 6.3).
#[inline(never)]
pub fn specification(alloc: Global, start: Rest, room: u32) -> Read<Specification>
    ensures { ReadsAll specification_items
        (N g.Identifier ∷ Opt g.Formals ∷ T kind.Is ∷ []) room start.entry result }
{
    let (parts, rest) = head(alloc, start, room)?;
    ended(parts, rest, Kind::Is)
}
