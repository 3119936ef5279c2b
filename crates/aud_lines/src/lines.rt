// The lines of a stream of bytes, and the words and numbers of a line.

ghost use Rattle.std.specs.Prelude.{◌≡◌, ◌≢◌, ◌<◌, ℕ, List, [], ◌∷◌, ◌++◌, length, reverse, slice_index, MatchOption, IfSome};
ghost use Rattle.aud_lines.specs.Lines.{lines_of, trimmed, without_return, without_spaces, words_of, number_of};

use memchr::memchr;

/// The first line of the bytes, without its line feed, and what follows it; nothing where no line
/// feed stands. It is the first line whatever comes behind the bytes.
pub fn first_line(bytes: &[u8]) -> Option<(&[u8], &[u8])>
    ensures line { MatchOption result (lines_of bytes.now ≡ []) (λ found. (more : List ℕ) →
        lines_of (bytes.now ++ more) ≡ found.0.now ∷ lines_of (found.1.now ++ more)) }
    ensures shorter { IfSome result (λ found. length found.1.now < length bytes.now) }
{
    let Some(end) = memchr(b'\n', bytes) else {
        return None;
    };
    Some((&bytes[..end], &bytes[end + 1..]))
}

/// The line without one carriage return at its end, and then without the spaces there.
pub fn trimmed(line: &[u8]) -> &[u8]
    ensures { result.now ≡ trimmed line.now }
{
    before_spaces(before_return(line))
}

fn before_return(line: &[u8]) -> &[u8]
    ensures { reverse result.now ≡ without_return (reverse line.now) }
{
    match line {
        [front @ .., b'\r'] => front,
        _ => line,
    }
}

fn before_spaces(line: &[u8]) -> &[u8]
    ensures { reverse result.now ≡ without_spaces (reverse line.now) }
{
    let mut rest = line;
    while let [front @ .., b' '] = rest {
        rest = front;
    }
    rest
}

/// The first word of a line, and what follows it; nothing where only spaces are left.
pub fn first_word(line: &[u8]) -> Option<(&[u8], &[u8])>
    ensures { MatchOption result (words_of line.now ≡ [])
        (λ found. words_of line.now ≡ found.0.now ∷ words_of found.1.now) }
{
    let rest = behind_spaces(line);
    if rest.is_empty() {
        return None;
    }
    let end = memchr(b' ', rest).unwrap_or(rest.len());
    Some(rest.split_at(end))
}

fn behind_spaces(line: &[u8]) -> &[u8]
    ensures words { words_of result.now ≡ words_of line.now }
    ensures front { 0 < length result.now → slice_index result.now 0 ≢ 32 }
{
    let mut rest = line;
    while let [b' ', behind @ ..] = rest {
        rest = behind;
    }
    rest
}

/// The number that a word of 1 to 10 decimal digits says; nothing where it is no such word.
pub fn number(word: &[u8]) -> Option<u64>
    ensures { result ≡ number_of word.now }
{
    if word.is_empty() || 10 < word.len() {
        return None;
    }
    let mut value = 0;
    for byte in word {
        if !byte.is_ascii_digit() {
            return None;
        }
        value = 10 * value + u64::from(byte - b'0');
    }
    Some(value)
}
