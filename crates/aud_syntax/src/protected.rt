// The canonical text of protected objects, and of the heads of their operations.

ghost use Rattle.std.specs.Prelude.{map};
ghost use Rattle.aud_syntax.specs.Ties.Heads.{operation_head_words};
ghost use Rattle.aud_syntax.specs.Ties.Writes.{Writes};
ghost use Rattle.aud_syntax.specs.Ties.View.{plain_formal, plain_operation, plain_private, plain_private_item, plain_protected};
ghost use Rattle.aud_syntax.specs.Why.Printed.{declaration_words, ending_words, operation_words, operations_words, private_item_words, private_items_words, private_words};

use crate::declarations::{push_entry, push_head, push_object};
use crate::expressions::push_expression;
use crate::tree::{Formal, Ident, Operation, OperationKind, PrivateItem, ProtectedDeclaration};
use crate::words::{push_end_name, push_ident, push_last_word, push_word};
use crate::writing::Written;

// RM 9.4
pub fn push_protected(out: &mut Written, object: &ProtectedDeclaration)
    ensures { Writes out.old out.new (declaration_words (plain_protected object.now)) }
{
    push_word(out, b"protected");
    push_ident(out, &object.name);
    push_last_word(out, b"is");
    push_operations(out, &object.operations);
    push_private(out, &object.private_items);
    push_ending(out, &object.end_name);
}

fn push_operations(out: &mut Written, operations: &[Operation])
    ensures { Writes out.old out.new
        (operations_words (map plain_operation operations.now)) }
{
    for next in operations {
        push_operation(out, next);
    }
}

// RM 9.4(5)
fn push_operation(out: &mut Written, operation: &Operation)
    ensures { Writes out.old out.new (operation_words (plain_operation operation.now)) }
{
    match operation {
        Operation::Entry(entry) => push_entry(out, entry),
        Operation::Procedure(name, formals) => {
            push_head(out, b"procedure", name, formals);
            push_last_word(out, b";");
        }
        Operation::Function(name, formals, subtype) => {
            push_head(out, b"function", name, formals);
            push_word(out, b"return");
            push_ident(out, subtype);
            push_last_word(out, b";");
        }
    }
}

// What stands behind `private`, if that is written.
fn push_private(out: &mut Written, items: &Option<Vec<PrivateItem>>)
    ensures { Writes out.old out.new (private_words (plain_private items.now)) }
{
    match items {
        None => {}
        Some(items) => {
            push_word(out, b"private");
            push_private_items(out, items);
        }
    }
}

fn push_private_items(out: &mut Written, items: &[PrivateItem])
    ensures { Writes out.old out.new
        (private_items_words (map plain_private_item items.now)) }
{
    for next in items {
        push_private_item(out, next);
    }
}

// RM 9.4(6)
fn push_private_item(out: &mut Written, item: &PrivateItem)
    ensures { Writes out.old out.new (private_item_words (plain_private_item item.now)) }
{
    match item {
        PrivateItem::Operation(operation) => push_operation(out, operation),
        PrivateItem::Components(names, subtype, value) => push_object(out, names, subtype, value),
    }
}

// `end`, the name behind it and a semicolon.
pub fn push_ending(out: &mut Written, name: &Option<Ident>)
    ensures { Writes out.old out.new (ending_words name.now) }
{
    push_word(out, b"end");
    push_end_name(out, name);
    push_last_word(out, b";");
}

// The head of an operation's body (RM 9.4(8)).
pub fn push_operation_head(
    out: &mut Written,
    kind: &OperationKind,
    name: &Ident,
    formals: &[Formal],
)
    ensures { Writes out.old out.new
        (operation_head_words kind.now name.now (map plain_formal formals.now)) }
{
    match kind {
        OperationKind::Entry(barrier) => {
            push_head(out, b"entry", name, formals);
            push_word(out, b"when");
            push_expression(out, barrier);
        }
        OperationKind::Procedure => push_head(out, b"procedure", name, formals),
        OperationKind::Function(subtype) => {
            push_head(out, b"function", name, formals);
            push_word(out, b"return");
            push_ident(out, subtype);
        }
    }
}
