// Requeue statements (RM 9.5.4).

ghost use Rattle.aud_grammar.specs.Grammar as g;
ghost use Rattle.aud_grammar.specs.Grammar.{N, Opt};
ghost use Rattle.aud_cursor.specs.Ties.Parts.{mark_item};
ghost use Rattle.aud_parse.specs.Ties.Items.{boxed_statement_item};
ghost use Rattle.aud_cursor.specs.Ties.Reads.{Reads, MayReadFlat};

use crate::build::boxed;
use aud_cursor::behind::ended;
use aud_cursor::cursor::{Read, Rest, accept, token, word};
use aud_lex::token::Kind;
use aud_parse_expr::expression::name;
use aud_syntax::tree::Statement;
use std::alloc::Global;

/// Whether `with abort` comes next.
fn opt_with_abort(start: Rest) -> Read<bool>
    ensures { MayReadFlat mark_item (Opt g.WithAbort) start.entry result }
{
    let Some((_, behind)) = accept(start, Kind::With) else {
        return Ok((false, start));
    };
    let rest = word(behind, Kind::Abort)?;
    Ok((true, rest))
}

/// A requeue statement.
#[inline(never)]
pub fn requeue(alloc: Global, start: Rest, room: u32) -> Read<Box<Statement>>
    ensures { Reads boxed_statement_item (N g.Requeue) room start.entry result }
{
    let (begin, rest) = token(start, Kind::Requeue)?;
    let (target, rest) = name(alloc, rest, room)?;
    let (with_abort, rest) = opt_with_abort(rest)?;
    let statement = boxed(alloc, Statement::Requeue(begin.at(), target, with_abort))?;
    ended(statement, rest, Kind::Semicolon)
}
