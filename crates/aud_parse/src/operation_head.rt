// The heads of operations' bodies (RM 9.4(8)).

ghost use Rattle.std.specs.Prelude.{◌≡◌, IfOk};
ghost use Rattle.aud_grammar.specs.Grammar as g;
ghost use Rattle.aud_parse.specs.Ties.Heads.{ReadsHead};

use crate::build::{Specification, boxed};
use crate::formals::{head, specification};
use aud_cursor::behind::{both, ended};
use aud_cursor::cursor::{Read, Rest, is, token};
use aud_cursor::leaf::ident;
use aud_lex::token::Kind;
use aud_parse_expr::expression::expression;
use aud_syntax::tree::{Formal, Ident, OperationKind};
use aud_text::place::Pos;
use std::alloc::{AllocError, Global};

/// What stands in the body of an operation in front of its declarations.
#[derive(Drop)]
pub struct OperationHead {
    pub kind: OperationKind,
    /// Where its first word stands.
    pub at: Pos,
    pub name: Ident,
    pub formals: Vec<Formal>,
}

/// The head of its parts.
#[inline(never)]
fn head_of(
    alloc: Global,
    kind: OperationKind,
    at: Pos,
    parts: Specification,
) -> Result<Box<OperationHead>, AllocError>
    ensures { IfOk result (λ b. b.value ≡
        record { kind = kind; at = at; name = parts.0; formals = parts.1 }) }
{
    let (name, formals) = parts;
    let head = OperationHead {
        kind,
        at,
        name,
        formals,
    };
    boxed(alloc, head)
}

/// The head of an entry's body, with its barrier (RM 9.5.2(5, 7)).
fn entry_head(alloc: Global, start: Rest, room: u32) -> Read<Box<OperationHead>>
    ensures { ReadsHead g.EntryBody room start.entry result }
{
    let (begin, rest) = token(start, Kind::Entry)?;
    let (parts, rest) = head(alloc, rest, room)?;
    let (parts, rest) = ended(parts, rest, Kind::When)?;
    let (parts, rest) = both(parts, expression(alloc, rest, room))?;
    let ((parts, barrier), rest) = ended(parts, rest, Kind::Is)?;
    let kind = OperationKind::Entry(Box::into_inner(barrier));
    let head = head_of(alloc, kind, begin.at(), parts)?;
    Ok((head, rest))
}

/// The head of a procedure's body (RM 6.3).
fn procedure_head(alloc: Global, start: Rest, room: u32) -> Read<Box<OperationHead>>
    ensures { ReadsHead g.ProcedureBody room start.entry result }
{
    let (begin, rest) = token(start, Kind::Procedure)?;
    let (parts, rest) = specification(alloc, rest, room)?;
    let head = head_of(alloc, OperationKind::Procedure, begin.at(), parts)?;
    Ok((head, rest))
}

/// The head of a function's body, with the subtype of its value (RM 6.1, 6.3).
fn function_head(alloc: Global, start: Rest, room: u32) -> Read<Box<OperationHead>>
    ensures { ReadsHead g.FunctionBody room start.entry result }
{
    let (begin, rest) = token(start, Kind::Function)?;
    let (parts, rest) = head(alloc, rest, room)?;
    let (parts, rest) = ended(parts, rest, Kind::Return)?;
    let (parts, rest) = both(parts, ident(alloc, rest))?;
    let ((parts, subtype), rest) = ended(parts, rest, Kind::Is)?;
    let head = head_of(alloc, OperationKind::Function(subtype), begin.at(), parts)?;
    Ok((head, rest))
}

/// The head of an operation's body, and the `is` behind it.
#[inline(never)]
pub fn operation_head(alloc: Global, start: Rest, room: u32) -> Read<Box<OperationHead>>
    ensures { ReadsHead g.OperationBody room start.entry result }
{
    if is(start, Kind::Entry) {
        return entry_head(alloc, start, room);
    }
    if is(start, Kind::Procedure) {
        return procedure_head(alloc, start, room);
    }
    function_head(alloc, start, room)
}
