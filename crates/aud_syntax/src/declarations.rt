// The canonical text of declarations in which no others lie, and of formal parameters.

ghost use Rattle.std.specs.Prelude.{map, Some};
ghost use Rattle.aud_syntax.specs.Ties.Writes.{Writes};
ghost use Rattle.aud_syntax.specs.Ties.View.{plain_expression, plain_maybe, plain_formal, plain_entry, plain_task_definition, plain_definition, plain_task};
ghost use Rattle.aud_syntax.specs.Why.Printed.{object_words, constant_words, minus_words, bound_words, range_words, index_words, array_words, exception_words, mode_words, formal_words, more_formals_words, formals_words, type_words, head_words, entry_words, entries_words, definition_words, declaration_words};

use crate::expressions::{push_expression, push_maybe};
use crate::tree::{
    Bound, EntryDeclaration, Expression, Formal, Ident, Identifiers, Mode, TaskDeclaration,
    TaskDefinition,
};
use crate::words::{
    push_end_name, push_ident, push_idents, push_last_word, push_number, push_two_words, push_word,
};
use crate::writing::Written;

// RM 3.3.1
pub fn push_object(
    out: &mut Written,
    names: &Identifiers,
    subtype: &Ident,
    value: &Option<Expression>,
)
    ensures { Writes out.old out.new
        (object_words names.now.first names.now.others.items subtype.now (plain_maybe value.now)) }
{
    push_idents(out, b",", names);
    push_word(out, b":");
    push_ident(out, subtype);
    push_maybe(out, b":=", value);
    push_last_word(out, b";");
}

// RM 3.3.1
pub fn push_constant(out: &mut Written, names: &Identifiers, subtype: &Ident, value: &Expression)
    ensures { Writes out.old out.new
        (constant_words names.now.first names.now.others.items subtype.now
        (plain_expression value.now)) }
{
    push_idents(out, b",", names);
    push_two_words(out, b":", b"constant");
    push_ident(out, subtype);
    push_word(out, b":=");
    push_expression(out, value);
    push_last_word(out, b";");
}

// RM 3.3.1, 3.6
pub fn push_array(out: &mut Written, names: &Identifiers, low: Bound, high: Bound, subtype: &Ident)
    ensures { Writes out.old out.new
        (array_words names.now.first names.now.others.items low high subtype.now) }
{
    push_idents(out, b",", names);
    push_two_words(out, b":", b"array");
    push_index(out, low, high);
    push_word(out, b"of");
    push_ident(out, subtype);
    push_last_word(out, b";");
}

// RM 3.6
fn push_index(out: &mut Written, low: Bound, high: Bound)
    ensures { Writes out.old out.new (index_words low high) }
{
    push_word(out, b"(");
    push_range(out, low, high);
    push_word(out, b")");
}

// RM 3.5
fn push_range(out: &mut Written, low: Bound, high: Bound)
    ensures { Writes out.old out.new (range_words (bound_words low) (bound_words high)) }
{
    push_bound(out, low);
    push_word(out, b"..");
    push_bound(out, high);
}

// RM 3.6.1
fn push_bound(out: &mut Written, bound: Bound)
    ensures { Writes out.old out.new (bound_words bound) }
{
    push_minus(out, bound.negative);
    push_number(out, bound.number);
}

fn push_minus(out: &mut Written, negative: bool)
    ensures { Writes out.old out.new (minus_words negative) }
{
    if negative {
        push_word(out, b"-");
    }
}

// RM 11.1
pub fn push_exceptions(out: &mut Written, names: &Identifiers)
    ensures { Writes out.old out.new
        (exception_words names.now.first names.now.others.items) }
{
    push_idents(out, b",", names);
    push_two_words(out, b":", b"exception");
    push_last_word(out, b";");
}

// RM 6.1
pub fn push_formals(out: &mut Written, formals: &[Formal])
    ensures { Writes out.old out.new (formals_words (map plain_formal formals.now)) }
{
    let Some((first, others)) = formals.split_first() else {
        return;
    };
    push_word(out, b"(");
    push_formal(out, first);
    push_more_formals(out, others);
    push_word(out, b")");
}

fn push_more_formals(out: &mut Written, formals: &[Formal])
    ensures { Writes out.old out.new
        (more_formals_words (map plain_formal formals.now)) }
{
    for next in formals {
        push_last_word(out, b";");
        push_formal(out, next);
    }
}

// RM 6.1(15)
fn push_formal(out: &mut Written, formal: &Formal)
    ensures { Writes out.old out.new (formal_words (plain_formal formal.now)) }
{
    push_idents(out, b",", &formal.names);
    push_word(out, b":");
    push_mode(out, formal.mode);
    push_ident(out, &formal.subtype);
}

// RM 6.1(16)
fn push_mode(out: &mut Written, mode: Mode)
    ensures { Writes out.old out.new (mode_words mode) }
{
    match mode {
        Mode::Unstated => {}
        Mode::In(_) => push_word(out, b"in"),
        Mode::Out(_) => push_word(out, b"out"),
        Mode::InOut(_) => push_two_words(out, b"in", b"out"),
    }
}

// RM 9.1
pub fn push_task(out: &mut Written, task: &TaskDeclaration)
    ensures { Writes out.old out.new (declaration_words (plain_task task.now)) }
{
    push_word(out, b"task");
    push_type(out, task.is_type);
    push_ident(out, &task.name);
    push_definition(out, &task.definition);
    push_last_word(out, b";");
}

fn push_type(out: &mut Written, is_type: bool)
    ensures { Writes out.old out.new (type_words is_type) }
{
    if is_type {
        push_word(out, b"type");
    }
}

// The definition of a task, if it has one (RM 9.1(4)).
fn push_definition(out: &mut Written, definition: &Option<TaskDefinition>)
    ensures { Writes out.old out.new
        (definition_words (plain_definition definition.now)) }
{
    match definition {
        None => {}
        Some(definition) => push_task_definition(out, definition),
    }
}

fn push_task_definition(out: &mut Written, definition: &TaskDefinition)
    ensures { Writes out.old out.new
        (definition_words (Some (plain_task_definition definition.now))) }
{
    push_last_word(out, b"is");
    push_entries(out, &definition.entries);
    push_word(out, b"end");
    push_end_name(out, &definition.end_name);
}

fn push_entries(out: &mut Written, entries: &[EntryDeclaration])
    ensures { Writes out.old out.new (entries_words (map plain_entry entries.now)) }
{
    for next in entries {
        push_entry(out, next);
    }
}

// RM 9.5.2(2)
pub fn push_entry(out: &mut Written, entry: &EntryDeclaration)
    ensures { Writes out.old out.new (entry_words (plain_entry entry.now)) }
{
    push_head(out, b"entry", &entry.name, &entry.formals);
    push_last_word(out, b";");
}

// A word, a name and formal parameters.
pub fn push_head(out: &mut Written, spelling: &[u8], name: &Ident, formals: &[Formal])
    ensures { Writes out.old out.new
        (head_words spelling.now name.now (map plain_formal formals.now)) }
{
    push_word(out, spelling);
    push_ident(out, name);
    push_formals(out, formals);
}
