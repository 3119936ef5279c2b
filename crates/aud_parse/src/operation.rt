// Operations of protected objects (RM 9.4(5)).

ghost use Rattle.aud_grammar.specs.Grammar as g;
ghost use Rattle.aud_grammar.specs.Grammar.{N, Rep};
ghost use Rattle.aud_cursor.specs.Ties.Items.{vec_item};
ghost use Rattle.aud_parse.specs.Ties.Items.{operation_item};
ghost use Rattle.aud_cursor.specs.Ties.Reads.{Reads, MayRead};

use crate::entry::entry_declaration;
use crate::formals::head;
use aud_cursor::behind::{both, ended};
use aud_cursor::cursor::{Read, Rest, is, is_one_of, word};
use aud_cursor::leaf::ident;
use aud_lex::token::Kind;
use aud_syntax::tree::Operation;
use std::alloc::Global;

/// What operations and their bodies begin with.
pub const OPERATIONS: [Kind; 3] = [Kind::Entry, Kind::Procedure, Kind::Function];

/// An entry.
fn entry_operation(alloc: Global, start: Rest, room: u32) -> Read<Operation>
    ensures { Reads operation_item (N g.EntryOperation) room start.entry result }
{
    let (entry, rest) = entry_declaration(alloc, start, room)?;
    Ok((Operation::Entry(entry), rest))
}

/// A procedure.
fn procedure_operation(alloc: Global, start: Rest, room: u32) -> Read<Operation>
    ensures { Reads operation_item (N g.ProcedureOperation) room start.entry result }
{
    let rest = word(start, Kind::Procedure)?;
    let (parts, rest) = head(alloc, rest, room)?;
    let ((name, formals), rest) = ended(parts, rest, Kind::Semicolon)?;
    Ok((Operation::Procedure(name, formals), rest))
}

/// A function.
fn function_operation(alloc: Global, start: Rest, room: u32) -> Read<Operation>
    ensures { Reads operation_item (N g.FunctionOperation) room start.entry result }
{
    let rest = word(start, Kind::Function)?;
    let (parts, rest) = head(alloc, rest, room)?;
    let (parts, rest) = ended(parts, rest, Kind::Return)?;
    let (parts, rest) = both(parts, ident(alloc, rest))?;
    let (((name, formals), subtype), rest) = ended(parts, rest, Kind::Semicolon)?;
    Ok((Operation::Function(name, formals, subtype), rest))
}

/// An operation.
pub fn operation(alloc: Global, start: Rest, room: u32) -> Read<Operation>
    ensures { Reads operation_item (N g.Operation) room start.entry result }
{
    if is(start, Kind::Entry) {
        return entry_operation(alloc, start, room);
    }
    if is(start, Kind::Procedure) {
        return procedure_operation(alloc, start, room);
    }
    function_operation(alloc, start, room)
}

/// The operations of a protected object in front of its `private`.
pub fn operations(alloc: Global, start: Rest, room: u32) -> Read<Vec<Operation>>
    ensures { MayRead (vec_item operation_item) (Rep g.Operation) room start.entry result }
{
    let mut all = Vec::new(alloc);
    let mut rest = start;
    'turns: while is_one_of(rest, &OPERATIONS) {
        let (next, after) = operation(alloc, rest, room)?;
        all.push(next)?;
        rest = after;
    }
    Ok((all, rest))
}
