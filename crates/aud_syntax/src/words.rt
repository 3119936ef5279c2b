// Words of canonical text, each with a blank or, at the end of a line, a line feed behind it.

ghost use Rattle.std.specs.Prelude.{◌+◌, ◌%◌, ◌∷◌, []};
ghost use Rattle.aud_lex.specs.Why.Spaced.{word, last_word};
ghost use Rattle.aud_syntax.specs.Ties.Writes.{Appends, Writes};
ghost use Rattle.aud_syntax.specs.Why.Printed.{ident_word, number_digits, number_word, decimal_digits, real_word, doubled, literal_word, more_ident_words, separated_words, end_words};

use crate::tree::{Ident, Identifiers, Literal, Number, Real};
use crate::writing::Written;
use aud_text::int32::Int32;

// Names, with the delimiter between each two.
pub fn push_idents(out: &mut Written, delimiter: &[u8], names: &Identifiers)
    ensures { Writes out.old out.new
        (separated_words delimiter.now names.now.first names.now.others.items) }
{
    push_ident(out, &names.first);
    push_more_idents(out, delimiter, &names.others);
}

fn push_more_idents(out: &mut Written, delimiter: &[u8], names: &[Ident])
    ensures { Writes out.old out.new (more_ident_words delimiter.now names.now) }
{
    for next in names {
        push_word(out, delimiter);
        push_ident(out, next);
    }
}

// The name behind `end`, `exit` or `raise`, if there is one (RM 5.5, 5.7, 6.3, 9.1, 11.3).
pub fn push_end_name(out: &mut Written, name: &Option<Ident>)
    ensures { Writes out.old out.new (end_words name.now) }
{
    match name {
        None => {}
        Some(name) => push_ident(out, name),
    }
}

pub fn push_ident(out: &mut Written, ident: &Ident)
    ensures { Writes out.old out.new (ident_word ident.now ∷ []) }
{
    push_word(out, ident.name.as_bytes());
}

// RM 2.4.1
pub fn push_number(out: &mut Written, number: Number)
    ensures { Writes out.old out.new (number_word number ∷ []) }
{
    push_whole(out, number.value);
    out.push(b' ');
}

// RM 2.4.1
pub fn push_real(out: &mut Written, number: Real)
    ensures { Writes out.old out.new (real_word number ∷ []) }
{
    push_whole(out, number.whole);
    out.push(b'.');
    push_decimals(out, number.thousandths);
    out.push(b' ');
}

// The digits of a whole number, or of the least one that is too large.
fn push_whole(out: &mut Written, value: Option<Int32>)
    ensures { Appends out.old out.new (number_digits value) }
{
    match value {
        Some(value) => out.push_decimal(u64::from(value.get().unsigned_abs())),
        None => out.push_bytes(b"2147483648"),
    }
}

// Three digits, or four where there were more.
fn push_decimals(out: &mut Written, thousandths: Option<u16>)
    ensures { Appends out.old out.new (decimal_digits thousandths) }
{
    match thousandths {
        Some(number) => {
            push_digit(out, number / 100);
            push_digit(out, number / 10);
            push_digit(out, number);
        }
        None => out.push_bytes(b"0000"),
    }
}

// The last digit of a number.
fn push_digit(out: &mut Written, number: u16)
    ensures { Appends out.old out.new ((48 + number % 10) ∷ []) }
{
    out.push(b'0' + (number % 10) as u8);
}

// RM 2.6
pub fn push_literal(out: &mut Written, literal: &Literal)
    ensures { Writes out.old out.new (literal_word literal.now ∷ []) }
{
    out.push(b'"');
    push_doubled(out, literal.text.as_bytes());
    out.push(b'"');
    out.push(b' ');
}

// The characters, each quote twice.
fn push_doubled(out: &mut Written, characters: &[u8])
    ensures { Appends out.old out.new (doubled characters.now) }
{
    for byte in characters {
        push_character(out, *byte);
    }
}

fn push_character(out: &mut Written, byte: u8)
    ensures { Appends out.old out.new (doubled (byte ∷ [])) }
{
    if byte == b'"' {
        out.push_bytes(b"\"\"");
    } else {
        out.push(byte);
    }
}

// The word and a blank.
pub fn push_word(out: &mut Written, spelling: &[u8])
    ensures { Writes out.old out.new (word spelling.now ∷ []) }
{
    out.push_bytes(spelling);
    out.push(b' ');
}

// The word and a line feed.
pub fn push_last_word(out: &mut Written, spelling: &[u8])
    ensures { Writes out.old out.new (last_word spelling.now ∷ []) }
{
    out.push_bytes(spelling);
    out.push(b'\n');
}

pub fn push_two_words(out: &mut Written, first: &[u8], second: &[u8])
    ensures { Writes out.old out.new (word first.now ∷ word second.now ∷ []) }
{
    push_word(out, first);
    push_word(out, second);
}
