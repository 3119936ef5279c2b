// The canonical text of a syntax tree: its words in order, each with a blank or, at the end of a
// line, a line feed behind it.

ghost use Rattle.std.specs.Prelude.{◌≡◌, IfOk, map};
ghost use Rattle.aud_syntax.specs.Ties.Writes.{Writes};
ghost use Rattle.aud_syntax.specs.Ties.View.{plain_context, plain_unit};
ghost use Rattle.aud_syntax.specs.Why.Printed.{clause_words, context_words, contexts_words, unit_words, printed};

use crate::statements::{push_body, push_declarations};
use crate::tree::{Context, Unit};
use crate::words::{push_ident, push_last_word, push_two_words, push_word};
use crate::writing::Written;
use aud_text::text::Text;
use std::alloc::{AllocError, Global};

/// The canonical text of a program: its words in order, names in capitals and numbers in base ten,
/// each with a blank or, at the end of a line, a line feed behind it. A program that was read from a
/// text is read from its canonical text again, but for the places.
///
/// A number without a value is written as one that is larger than any Integer, and a negative one,
/// which no text has, without its sign.
///
/// # Errors
///
/// Where memory is refused.
pub fn print(alloc: Global, unit: &Unit) -> Result<Text, AllocError>
    ensures { IfOk result (λ text. text ≡ printed (plain_unit unit.now)) }
{
    let mut out = Written::new(alloc);
    push_unit(&mut out, unit);
    out.finish()
}

// RM 6.3, 10.1.1
fn push_unit(out: &mut Written, unit: &Unit)
    ensures { Writes out.old out.new (unit_words (plain_unit unit.now)) }
{
    push_contexts(out, &unit.context);
    push_word(out, b"procedure");
    push_ident(out, &unit.name);
    push_last_word(out, b"is");
    push_declarations(out, &unit.declarations);
    push_body(out, &unit.body);
}

fn push_contexts(out: &mut Written, clauses: &[Context])
    ensures { Writes out.old out.new (contexts_words (map plain_context clauses.now)) }
{
    for next in clauses {
        push_context(out, next);
    }
}

// RM 8.4, 10.1.2
fn push_context(out: &mut Written, clause: &Context)
    ensures { Writes out.old out.new (context_words (plain_context clause.now)) }
{
    match clause {
        Context::With(_) => push_clause(out, b"with"),
        Context::Use(_) => push_clause(out, b"use"),
    }
}

// A clause for Ada.Text_IO.
fn push_clause(out: &mut Written, spelling: &[u8])
    ensures { Writes out.old out.new (clause_words spelling.now) }
{
    push_two_words(out, spelling, b"ADA");
    push_two_words(out, b".", b"TEXT_IO");
    push_last_word(out, b";");
}
