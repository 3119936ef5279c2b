// Tasks and task types (RM 9.1).

ghost use Rattle.std.specs.Prelude.{◌∷◌, []};
ghost use Rattle.aud_grammar.specs.Grammar as g;
ghost use Rattle.aud_grammar.specs.Grammar.{N, Opt};
ghost use Rattle.aud_grammar.specs.Actions.{token, made};
ghost use Rattle.aud_cursor.specs.Ties.Items.{opt_item};
ghost use Rattle.aud_parse.specs.Ties.Items.{definition_item, task_item, boxed_declaration_item};
ghost use Rattle.aud_cursor.specs.Ties.Reads.{Reads, MayRead, Completes};

use crate::build::boxed;
use crate::entry::entries;
use aud_cursor::behind::{both, ended};
use aud_cursor::cursor::{Read, Rest, is, word};
use aud_cursor::leaf::{ident, mark, opt_ident};
use aud_lex::token::{Kind, Token};
use aud_syntax::tree::{Declaration, Ident, TaskDeclaration, TaskDefinition};
use std::alloc::Global;

/// The definition of a task (RM 9.1(4)).
fn definition(alloc: Global, start: Rest, room: u32) -> Read<TaskDefinition>
    ensures { Reads definition_item (N g.TaskDefinition) room start.entry result }
{
    let rest = word(start, Kind::Is)?;
    let (entries, rest) = entries(alloc, rest, room)?;
    let (entries, rest) = ended(entries, rest, Kind::End)?;
    let ((entries, end_name), rest) = both(entries, opt_ident(alloc, rest))?;
    Ok((TaskDefinition { entries, end_name }, rest))
}

/// The definition of a task, if it has one.
fn opt_definition(alloc: Global, start: Rest, room: u32) -> Read<Option<TaskDefinition>>
    ensures { MayRead (opt_item definition_item) (Opt g.TaskDefinition) room start.entry result }
{
    if is(start, Kind::Is) {
        let (defined, rest) = definition(alloc, start, room)?;
        return Ok((Some(defined), rest));
    }
    Ok((None, start))
}

/// Whether a type is declared, the name, and the definition, if there is one.
fn parts(alloc: Global, start: Rest, room: u32) -> Read<(bool, Ident, Option<TaskDefinition>)>
    ensures { Reads task_item (N g.TaskDeclaration) room start.entry result }
{
    let (is_type, rest) = mark(start, Kind::Type);
    let (name, rest) = ident(alloc, rest)?;
    let ((name, definition), rest) = both(name, opt_definition(alloc, rest, room))?;
    ended((is_type, name, definition), rest, Kind::Semicolon)
}

/// A task or a task type, behind its first word (RM 9.1).
#[inline(never)]
pub fn task_declaration<'a>(
    alloc: Global,
    begin: &Token,
    start: Rest<'a>,
    room: u32,
) -> Read<'a, Box<Declaration>>
    ensures { Completes (λ es. made g.Task (token begin.now ∷ es))
        boxed_declaration_item (N g.TaskDeclaration ∷ []) room start.entry result }
{
    let ((is_type, name, definition), rest) = parts(alloc, start, room)?;
    let task = TaskDeclaration {
        at: begin.at(),
        is_type,
        name,
        definition,
    };
    let boxed = boxed(alloc, Declaration::Task(task))?;
    Ok((boxed, rest))
}
