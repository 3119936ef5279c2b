// Looking at the tokens one by one.

ghost use Rattle.std.specs.Prelude.{◌≡◌, ◌∷◌, ◌-◌, [], length, ◌≤◌};
ghost use Rattle.aud_text.specs.Name.{capitals};
ghost use Rattle.aud_grammar.specs.Grammar.{Word, Duration};
ghost use Rattle.aud_grammar.specs.First.{next_in, next_spelled, same_text, spelling};
ghost use Rattle.aud_cursor.specs.declared.cursor.Fault.TheVariants as fault;
ghost use Rattle.aud_cursor.specs.Ties.Reads.{ReadsWord, ReadsToken, ReadsSpelled, Accepts, Chooses, Deepens};

use aud_lex::token::{Kind, Token};
use std::alloc::{AllocError, AllocFailed};

/// The tokens that are still to be read.
#[derive(Clone, Copy)]
pub struct Rest<'a> {
    pub tokens: &'a [Token<'a>],
}

/// Why no tree is read.
#[derive(Drop)]
pub enum Fault<'a> {
    /// Where memory is refused.
    Memory,
    /// No program goes on with the first of these tokens.
    Wrong(Rest<'a>),
    /// The first of these tokens opens one level too many.
    Deep(Rest<'a>),
}

/// A tree and the tokens behind it, or why none is read.
pub type Read<'a, T> = Result<(T, Rest<'a>), Fault<'a>>;

/// Whether the next token is of this kind.
pub fn is(start: Rest, kind: Kind) -> bool
    ensures { result ≡ next_in (kind ∷ []) start.entry.tokens.now }
{
    match start.tokens.first() {
        None => false,
        Some(t) => t.kind().number() == kind.number(),
    }
}

/// Whether the next token is of one of these kinds.
pub fn is_one_of(start: Rest, kinds: &[Kind]) -> bool
    ensures { result ≡ next_in kinds.now start.entry.tokens.now }
{
    for kind in kinds {
        if is(start, *kind) {
            return true;
        }
    }
    false
}

/// The first token, and the others.
fn split(start: Rest) -> (&Token, Rest)
    requires { 1 ≤ length start.tokens.now }
    ensures { start.entry.tokens.now ≡ result.0.now ∷ result.1.tokens.now }
{
    let tokens = start.tokens;
    (
        &tokens[0],
        Rest {
            tokens: &tokens[1..],
        },
    )
}

/// The next token, where it is of this kind, and the others.
pub fn accept(start: Rest, kind: Kind) -> Option<(&Token, Rest)>
    ensures { Accepts kind start.entry result }
{
    if !is(start, kind) {
        return None;
    }
    Some(split(start))
}

/// The first of the table's kinds that the next token is of, by what stands beside it, the token, and
/// the others.
pub fn chosen<'a, T: Copy>(
    start: Rest<'a>,
    table: &[(Kind, T)],
) -> Option<(T, &'a Token<'a>, Rest<'a>)>
    ensures { Chooses table.now start.entry result }
{
    for entry in table {
        if let Some((token, rest)) = accept(start, entry.0) {
            return Some((entry.1, token, rest));
        }
    }
    None
}

/// Passes a word or a delimiter.
pub fn word(start: Rest, kind: Kind) -> Result<Rest, Fault>
    ensures { ReadsWord kind start.entry result }
{
    match accept(start, kind) {
        Some((_, rest)) => Ok(rest),
        None => Err(Fault::Wrong(start)),
    }
}

/// Passes a token of which the tree keeps something.
pub fn token(start: Rest, kind: Kind) -> Read<&Token>
    ensures { ReadsToken kind start.entry result }
{
    match accept(start, kind) {
        Some(found) => Ok(found),
        None => Err(Fault::Wrong(start)),
    }
}

/// Whether the bytes, in capitals, are these.
fn same(text: &[u8], wanted: &[u8]) -> bool
    ensures { result ≡ same_text (capitals text.now) wanted.now }
{
    if text.is_empty() {
        return wanted.is_empty();
    }
    if wanted.is_empty() {
        return false;
    }
    text[0].to_ascii_uppercase() == wanted[0] && same(&text[1..], &wanted[1..])
}

/// Whether the next token is this identifier, whatever the case of its letters (RM 2.3(5)).
fn is_spelled(start: Rest, wanted: &[u8]) -> bool
    ensures { result ≡ next_spelled wanted.now start.entry.tokens.now }
{
    match start.tokens.first() {
        None => false,
        Some(t) => t.kind().number() == Kind::Identifier.number() && same(t.text(), wanted),
    }
}

/// Passes an identifier that the grammar names, by its spelling in capitals.
pub(crate) fn spelled<'a>(start: Rest<'a>, wanted: &[u8]) -> Read<'a, &'a Token<'a>>
    ensures { (word : Word) → spelling word ≡ wanted.now → ReadsSpelled word start.entry result }
{
    if !is_spelled(start, wanted) {
        return Err(Fault::Wrong(start));
    }
    Ok(split(start))
}

/// Passes the name of the predefined type Duration (RM 9.6).
pub fn duration(start: Rest) -> Read<&Token>
    ensures { ReadsSpelled Duration start.entry result }
{
    spelled(start, b"DURATION")
}

/// The levels that may be opened inside one more level, which the next token opens if it `begins`
/// what lies there.
pub fn deeper(start: Rest, room: u32, begins: bool) -> Result<u32, Fault>
    ensures { Deepens room begins start.entry result }
{
    match room.checked_sub(1) {
        Some(inside) => Ok(inside),
        None if begins => Err(Fault::Deep(start)),
        None => Err(Fault::Wrong(start)),
    }
}

/// How many tokens come before the rest.
pub fn place(tokens: &[Token], rest: Rest) -> usize
    ensures { result ≡ length tokens.now - length rest.entry.tokens.now }
{
    tokens.len().saturating_sub(rest.tokens.len())
}

impl From<AllocError> for Fault<'_> {
    ghost from_gives = { λ _ e. e ≡ fault.Memory };

    fn from(_: AllocError) -> Self {
        Fault::Memory
    }
}

impl<T: Drop> From<AllocFailed<T>> for Fault<'_> {
    ghost from_gives = { λ _ e. e ≡ fault.Memory };

    fn from(_: AllocFailed<T>) -> Self {
        Fault::Memory
    }
}
