// Texts that repeat parts of themselves: `{204 null;}` is 204 times what stands behind the number, and `{2 #9}` is twice the
// byte of number 9. What stands outside braces is itself.

use std::alloc::{AllocError, Global};

/// Why a text gives no bytes.
#[derive(Clone, Copy)]
pub enum TextFault {
    Memory,
    /// A brace stands alone, or what stands in braces or before a line repeats nothing.
    Form,
}

impl From<AllocError> for TextFault {
    fn from(_error: AllocError) -> TextFault {
        TextFault::Memory
    }
}

/// Appends the bytes of a line, and its line feed, as many times as the number before it says.
///
/// # Errors
///
/// `Form` where no number stands before it, or what it repeats is none of these texts; `Memory` where memory is refused.
pub fn push_lines(alloc: Global, out: &mut Vec<u8>, repeated: &str) -> Result<(), TextFault> {
    let (count, text) = repeated.split_once(' ').unwrap_or((repeated, ""));
    let count = number(count)?;
    let mut line = Vec::new(alloc);
    push_text(&mut line, text)?;
    line.extend_from_slice(b"\n")?;
    push_many(out, count, line.as_slice())
}

/// Appends the bytes of a text.
///
/// # Errors
///
/// `Form` where it is none of these texts; `Memory` where memory is refused.
pub fn push_text(out: &mut Vec<u8>, text: &str) -> Result<(), TextFault> {
    let mut parts = text.split('{');
    if let Some(front) = parts.next() {
        push_plain(out, front)?;
    }
    for part in parts {
        let (repeated, behind) = part.split_once('}').ok_or(TextFault::Form)?;
        push_repeated(out, repeated)?;
        push_plain(out, behind)?;
    }
    Ok(())
}

fn push_plain(out: &mut Vec<u8>, text: &str) -> Result<(), TextFault> {
    if text.contains('}') {
        return Err(TextFault::Form);
    }
    out.extend_from_slice(text.as_bytes())?;
    Ok(())
}

// What stands in braces.
fn push_repeated(out: &mut Vec<u8>, repeated: &str) -> Result<(), TextFault> {
    let (count, text) = repeated.split_once(' ').ok_or(TextFault::Form)?;
    let count = number(count)?;
    match text.strip_prefix('#') {
        Some(byte) => {
            let byte = byte.parse::<u8>().map_err(|_| TextFault::Form)?;
            push_many(out, count, &[byte])
        }
        None => push_many(out, count, text.as_bytes()),
    }
}

fn number(text: &str) -> Result<u32, TextFault> {
    text.parse::<u32>().map_err(|_| TextFault::Form)
}

fn push_many(out: &mut Vec<u8>, count: u32, bytes: &[u8]) -> Result<(), TextFault> {
    for _ in 0..count {
        out.extend_from_slice(bytes)?;
    }
    Ok(())
}
