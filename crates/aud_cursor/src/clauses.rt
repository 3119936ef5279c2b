// Context clauses (RM 10.1.2, 8.4): the library unit of each is Ada.Text_IO.

ghost use Rattle.aud_grammar.specs.Grammar as g;
ghost use Rattle.aud_grammar.specs.Grammar.{N, Rep};
ghost use Rattle.aud_grammar.specs.Actions.{none};
ghost use Rattle.aud_cursor.specs.Ties.Items.{vec_item, context_item};
ghost use Rattle.aud_cursor.specs.Ties.Reads.{ReadsFlat, MayReadFlat};

use crate::cursor::{Read, Rest, is, is_one_of, spelled, token, word};
use aud_lex::token::Kind;
use aud_syntax::tree::Context;
use std::alloc::Global;

const CLAUSES: [Kind; 2] = [Kind::With, Kind::Use];

/// The rest of a context clause, behind its first word.
fn library(start: Rest) -> Read<()>
    ensures { ReadsFlat (λ _. none) (N g.Library) start.entry result }
{
    let (_, rest) = spelled(start, b"ADA")?;
    let rest = word(rest, Kind::Point)?;
    let (_, rest) = spelled(rest, b"TEXT_IO")?;
    let rest = word(rest, Kind::Semicolon)?;
    Ok(((), rest))
}

/// A context clause.
fn clause(start: Rest) -> Read<Context>
    ensures { ReadsFlat context_item (N g.Clause) start.entry result }
{
    if is(start, Kind::With) {
        let (t, rest) = token(start, Kind::With)?;
        let (_, rest) = library(rest)?;
        return Ok((Context::With(t.at()), rest));
    }
    let (t, rest) = token(start, Kind::Use)?;
    let (_, rest) = library(rest)?;
    Ok((Context::Use(t.at()), rest))
}

/// The context clauses before a program (RM 10.1.2).
pub fn context(alloc: Global, start: Rest) -> Read<Vec<Context>>
    ensures { MayReadFlat (vec_item context_item) (Rep g.Clause) start.entry result }
{
    let mut all = Vec::new(alloc);
    let mut rest = start;
    'turns: while is_one_of(rest, &CLAUSES) {
        let (next, after) = clause(rest)?;
        all.push(next)?;
        rest = after;
    }
    Ok((all, rest))
}
