// Entries (RM 9.5.2).

ghost use Rattle.aud_grammar.specs.Grammar as g;
ghost use Rattle.aud_grammar.specs.Grammar.{N, Rep};
ghost use Rattle.aud_cursor.specs.Ties.Items.{vec_item};
ghost use Rattle.aud_parse.specs.Ties.Items.{entry_item};
ghost use Rattle.aud_cursor.specs.Ties.Reads.{Reads, MayRead};

use crate::formals::head;
use aud_cursor::behind::ended;
use aud_cursor::cursor::{Read, Rest, is, word};
use aud_lex::token::Kind;
use aud_syntax::tree::EntryDeclaration;
use std::alloc::Global;

/// An entry (RM 9.5.2(2)).
pub fn entry_declaration(alloc: Global, start: Rest, room: u32) -> Read<EntryDeclaration>
    ensures { Reads entry_item (N g.EntryDeclaration) room start.entry result }
{
    let rest = word(start, Kind::Entry)?;
    let (parts, rest) = head(alloc, rest, room)?;
    let ((name, formals), rest) = ended(parts, rest, Kind::Semicolon)?;
    Ok((EntryDeclaration { name, formals }, rest))
}

/// The entries of a task.
pub fn entries(alloc: Global, start: Rest, room: u32) -> Read<Vec<EntryDeclaration>>
    ensures { MayRead (vec_item entry_item) (Rep g.EntryDeclaration) room start.entry result }
{
    let mut all = Vec::new(alloc);
    let mut rest = start;
    'turns: while is(rest, Kind::Entry) {
        let (next, after) = entry_declaration(alloc, rest, room)?;
        all.push(next)?;
        rest = after;
    }
    Ok((all, rest))
}
