// What a numeric literal and a string literal stand for.

ghost use Rattle.std.specs.Prelude.{◌≡◌, ◌+◌, ◌*◌, ◌<◌, ◌≤◌, ◌∷◌, [], IfOk, MatchOption, false};
ghost use Rattle.aud_grammar.specs.Values.{with_digit, number_value, before_point, behind_point, only_digits, thousandths, whole_part, decimals, is_left_out, inner, unquoted};

use aud_text::int32::Int32;
use aud_text::text::Text;
use std::alloc::{AllocError, Global};

/// The value of the digits, where it is one of the type Integer (RM 2.4.1).
pub fn number_value(text: &[u8]) -> Option<Int32>
    ensures { result ≡ number_value text.now }
{
    let mut value: u32 = 0;
    for byte in text {
        value = with_digit(value, *byte)?;
    }
    match i32::try_from(value) {
        Ok(value) => Some(Int32::new(value)),
        Err(_) => None,
    }
}

// The value with one more digit, where it is not too large.
fn with_digit(value: u32, byte: u8) -> Option<u32>
    ensures { MatchOption result (4294967295 < with_digit value byte)
        (λ x. x ≡ with_digit value byte) }
{
    if byte == b'_' {
        return Some(value);
    }
    let digit = byte.saturating_sub(b'0');
    value.checked_mul(10)?.checked_add(u32::from(digit))
}

// What stands before the point, and what behind it.
fn split(text: &[u8]) -> (&[u8], &[u8])
    ensures before { result.0.now ≡ before_point text.now }
    ensures behind { result.1.now ≡ behind_point text.now }
{
    for i in 0..text.len() {
        if text[i] == b'.' {
            return (&text[..i], &text[i + 1..]);
        }
    }
    (text, &text[text.len()..])
}

// The first digit, and what follows it.
fn digit(bytes: &[u8]) -> Option<(u8, &[u8])>
    ensures { MatchOption result (only_digits bytes.now ≡ [])
        (λ p. only_digits bytes.now ≡ p.0 ∷ only_digits p.1.now) }
{
    for i in 0..bytes.len() {
        if bytes[i] != b'_' {
            return Some((bytes[i], &bytes[i + 1..]));
        }
    }
    None
}

// A number of at most two digits with one digit more.
fn with_decimal(value: u16, byte: u8) -> u16
    requires { value ≤ 2277 }
    ensures value { result ≡ with_digit value byte }
    ensures small { result ≤ value * 10 + 207 }
{
    if byte == b'_' {
        return value;
    }
    value * 10 + u16::from(byte.saturating_sub(b'0'))
}

// What the digits behind a point are in thousandths, where there are no more than three.
fn thousandths(bytes: &[u8]) -> Option<u16>
    ensures { result ≡ thousandths (only_digits bytes.now) }
{
    let Some((first, rest)) = digit(bytes) else {
        return Some(0);
    };
    let tenths = with_decimal(0, first);
    let Some((second, rest)) = digit(rest) else {
        return Some(tenths * 100);
    };
    let hundredths = with_decimal(tenths, second);
    let Some((third, rest)) = digit(rest) else {
        return Some(hundredths * 10);
    };
    match digit(rest) {
        None => Some(with_decimal(hundredths, third)),
        Some(_) => None,
    }
}

/// The whole part of a real number, where it is one of the type Integer, and what follows its point
/// in thousandths, where that has no more than three digits (RM 2.4.1).
pub fn real_value(text: &[u8]) -> (Option<Int32>, Option<u16>)
    ensures whole { result.0 ≡ whole_part text.now }
    ensures fraction { result.1 ≡ decimals text.now }
{
    let (before, behind) = split(text);
    (number_value(before), thousandths(behind))
}

/// The characters of a string literal (RM 2.6).
pub(crate) fn unquoted(alloc: Global, text: &[u8]) -> Result<Text, AllocError>
    ensures { IfOk result (λ it. it ≡ unquoted text.now) }
{
    if text.is_empty() {
        return Ok(Text::new(Vec::new(alloc)));
    }
    inner(alloc, &text[1..])
}

// The characters behind the quote that opens a string literal.
fn inner(alloc: Global, bytes: &[u8]) -> Result<Text, AllocError>
    ensures { IfOk result (λ it. it ≡ inner false bytes.now) }
{
    let mut kept = Vec::new(alloc);
    let mut behind_quote = false;
    for byte in bytes {
        behind_quote = is_left_out(*byte, behind_quote);
        if !behind_quote {
            kept.push(*byte)?;
        }
    }
    Ok(Text::new(kept))
}

// Whether the byte is a quote that is not the second of two.
fn is_left_out(byte: u8, behind_quote: bool) -> bool
    ensures { result ≡ is_left_out byte behind_quote }
{
    byte == b'"' && !behind_quote
}
