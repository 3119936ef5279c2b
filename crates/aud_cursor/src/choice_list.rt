// For what exceptions a handler is (RM 11.2(5)).

ghost use Rattle.aud_grammar.specs.Grammar as g;
ghost use Rattle.aud_grammar.specs.Grammar.{N};
ghost use Rattle.aud_cursor.specs.Ties.Items.{choices_item};
ghost use Rattle.aud_cursor.specs.Ties.Reads.{ReadsFlat};

use crate::cursor::{Read, Rest, is, token};
use crate::leaf::{ident, more_idents};
use aud_lex::token::Kind;
use aud_syntax::tree::{Choices, Identifiers};
use std::alloc::Global;

/// All that are not named before.
fn others(alloc: Global, start: Rest) -> Read<Box<Choices>>
    ensures { ReadsFlat choices_item (N g.Others) start.entry result }
{
    let (t, rest) = token(start, Kind::Others)?;
    let boxed = Box::new(alloc, Choices::Others(t.at()))?;
    Ok((boxed, rest))
}

/// Those of some names.
fn named(alloc: Global, start: Rest) -> Read<Box<Choices>>
    ensures { ReadsFlat choices_item (N g.NamedChoices) start.entry result }
{
    let (first, rest) = ident(alloc, start)?;
    let (others, rest) = more_idents(alloc, rest, Kind::Bar)?;
    let boxed = Box::new(alloc, Choices::Named(Identifiers { first, others }))?;
    Ok((boxed, rest))
}

/// The choices of a handler (RM 11.2(5)).
#[inline(never)]
pub fn choices(alloc: Global, start: Rest) -> Read<Box<Choices>>
    ensures { ReadsFlat choices_item (N g.Choices) start.entry result }
{
    if is(start, Kind::Others) {
        return others(alloc, start);
    }
    named(alloc, start)
}
