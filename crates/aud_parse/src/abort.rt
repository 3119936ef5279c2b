// Abort statements (RM 9.8).

ghost use Rattle.aud_grammar.specs.Grammar as g;
ghost use Rattle.aud_grammar.specs.Grammar.{N, Rep};
ghost use Rattle.aud_cursor.specs.Ties.Items.{vec_item};
ghost use Rattle.aud_parse.specs.Ties.Items.{task_name_item, boxed_statement_item};
ghost use Rattle.aud_cursor.specs.Ties.Reads.{Reads, MayRead};

use crate::build::{add, made_abort};
use aud_cursor::behind::ended;
use aud_cursor::cursor::{Read, Rest, accept, token};
use aud_lex::token::Kind;
use aud_parse_expr::expression::name;
use aud_syntax::tree::{Name, Statement};
use std::alloc::Global;

/// Further names, each behind a comma.
fn more_names(alloc: Global, start: Rest, room: u32) -> Read<Vec<Name>>
    ensures { MayRead (vec_item task_name_item) (Rep g.MoreNames) room start.entry result }
{
    let mut all = Vec::new(alloc);
    let mut rest = start;
    'turns: while let Some((_, behind)) = accept(rest, Kind::Comma) {
        let (next, after) = name(alloc, behind, room)?;
        all = add(all, next)?;
        rest = after;
    }
    Ok((all, rest))
}

/// An abort statement.
#[inline(never)]
pub fn abort(alloc: Global, start: Rest, room: u32) -> Read<Box<Statement>>
    ensures { Reads boxed_statement_item (N g.Abort) room start.entry result }
{
    let (begin, rest) = token(start, Kind::Abort)?;
    let (first, rest) = name(alloc, rest, room)?;
    let (others, rest) = more_names(alloc, rest, room)?;
    let statement = made_abort(alloc, begin.at(), first, others)?;
    ended(statement, rest, Kind::Semicolon)
}
