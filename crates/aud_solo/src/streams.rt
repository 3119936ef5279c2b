// Readers and writers that count their calls.

ghost use Rattle.std.specs.Prelude.{◌≡◌, ◌≢◌, ◌↔◌, ℕ, ◌+◌, ◌-◌, ◌<◌, ◌≤◌, List, [], ◌∷◌, ◌++◌, Option, Some, length, take, IsTrue, IfOk, SomeIff, MatchResult};
ghost use Rattle.std.specs.Io.{ReadsAtMost, WritesAtMost};
ghost use Rattle.std.specs.Io.KnownBytes.{Appends, Keeps, ReadConsumes, WriteAppends};
ghost use Rattle.aud_solo.specs.Streams.{AppendsPrefix};
ghost use Rattle.aud_solo.specs.Ties.Fuses.{IsOneCallOn};

use crate::history::History;
use std::io::{self, ErrorKind, Read, Write};

/// That a read or a write failed.
#[derive(Clone, Copy)]
pub struct Failed;

/// What bytes are read from. It tells them, where they are known, counts its calls and those that failed, and tells what each
/// call has read: a piece for each, of no byte where it failed. All this stands in proofs alone, and no count has an end.
pub trait Source {
    ghost remaining: { Self → Option (List ℕ) };

    ghost pieces: { Self → List (List ℕ) };

    ghost calls: { Self → ℕ };

    ghost failures: { Self → ℕ };

    /// Reads bytes into the beginning of the piece, and tells how many: none only at the end, or where the piece is empty.
    ///
    /// # Errors
    ///
    /// Where the bytes cannot be read. None is read then.
    fn pull(&mut self, piece: &mut [u8]) -> Result<usize, Failed>
        ensures bound { IfOk result (λ n. n ≤ length piece.new) }
        ensures bytes { ReadConsumes (remaining self.old) (remaining self.new) result piece.new }
        ensures pieces { MatchResult result
            (λ n. pieces self.new ≡ pieces self.old ++ take n piece.new ∷ [])
            (λ _. pieces self.new ≡ pieces self.old ++ [] ∷ []) }
        ensures calls { calls self.new ≡ calls self.old + 1 }
        ensures failures { MatchResult result (λ _. failures self.new ≡ failures self.old)
            (λ _. failures self.new ≡ failures self.old + 1) };
}

/// What bytes are written to. It tells them, where they are known, and counts its calls and those that failed, as a `Source`
/// does.
pub trait Sink {
    ghost contents: { Self → Option (List ℕ) };

    ghost calls: { Self → ℕ };

    ghost failures: { Self → ℕ };

    /// Writes a prefix, hands them on at once, and tells how many: one at least.
    ///
    /// # Errors
    ///
    /// Where the bytes cannot be written or handed on, or none is taken. Some of them may stand there then.
    fn push(&mut self, bytes: &[u8]) -> Result<usize, Failed>
        requires { 0 < length bytes.now }
        ensures some { IfOk result (λ n. (1 ≤ n) × (n ≤ length bytes.now)) }
        ensures bytes { MatchResult result
            (λ n. Appends (contents self.old) (contents self.new) (take n bytes.now))
            (λ _. AppendsPrefix (contents self.old) (contents self.new) bytes.now) }
        ensures calls { calls self.new ≡ calls self.old + 1 }
        ensures failures { MatchResult result (λ _. failures self.new ≡ failures self.old)
            (λ _. failures self.new ≡ failures self.old + 1) };
}

/// A reader or a writer whose calls are counted.
#[derive(Drop)]
pub struct Stream<S> {
    inner: S,
    // What each call has read, or was to write.
    calls: History,
    // A piece for each call that failed.
    failures: History,
}

impl<S> Stream<S> {
    /// Of a reader or a writer, with no call counted so far. A call is one of `pull` or `push`, however often what is
    /// interrupted is tried again within it.
    pub fn new(inner: S) -> Stream<S>
        ensures inner { result.inner ≡ inner }
        ensures calls { result.calls.pieces ≡ [] }
        ensures failures { result.failures.pieces ≡ [] }
    {
        Stream {
            inner,
            calls: History::new(),
            failures: History::new(),
        }
    }
}

impl<R: Read> Source for Stream<R> {
    ghost remaining = { λ s. R.remaining s.inner };

    ghost pieces = { λ s. s.calls.pieces };

    ghost calls = { λ s. length s.calls.pieces };

    ghost failures = { λ s. length s.failures.pieces };

    fn pull(&mut self, piece: &mut [u8]) -> Result<usize, Failed> {
        match read(&mut self.inner, piece) {
            Ok(count) => {
                self.calls.note(&piece[..count]);
                Ok(count)
            }
            Err(failed) => {
                self.calls.note(&[]);
                self.failures.note(&[]);
                Err(failed)
            }
        }
    }
}

impl<W: Write> Sink for Stream<W> {
    ghost contents = { λ s. W.contents s.inner };

    ghost calls = { λ s. length s.calls.pieces };

    ghost failures = { λ s. length s.failures.pieces };

    fn push(&mut self, bytes: &[u8]) -> Result<usize, Failed> {
        self.calls.note(bytes);
        match write(&mut self.inner, bytes) {
            Ok(count) => Ok(count),
            Err(failed) => {
                self.failures.note(&[]);
                Err(failed)
            }
        }
    }
}

// What is interrupted is tried again.
fn read<R: Read>(reader: &mut R, piece: &mut [u8]) -> Result<usize, Failed>
    ensures bound { IfOk result (λ n. n ≤ length piece.new) }
    ensures bytes { ReadConsumes (R.remaining reader.old) (R.remaining reader.new) result piece.new }
{
    for _ in 0..u64::MAX {
        match reader.read(piece) {
            Ok(count) => return Ok(count),
            Err(error) if error.kind() == ErrorKind::Interrupted => {}
            Err(_) => return Err(Failed),
        }
    }
    Err(Failed)
}

// Writes a prefix and flushes it.
fn write<W: Write>(writer: &mut W, bytes: &[u8]) -> Result<usize, Failed>
    requires { 0 < length bytes.now }
    ensures some { IfOk result (λ n. (1 ≤ n) × (n ≤ length bytes.now)) }
    ensures bytes { MatchResult result
        (λ n. Appends (W.contents writer.old) (W.contents writer.new) (take n bytes.now))
        (λ _. AppendsPrefix (W.contents writer.old) (W.contents writer.new) bytes.now) }
{
    let count = write_once(writer, bytes)?;
    match writer.flush() {
        Ok(()) => Ok(count),
        Err(_) => Err(Failed),
    }
}

fn write_once<W: Write>(writer: &mut W, bytes: &[u8]) -> Result<usize, Failed>
    requires { 0 < length bytes.now }
    ensures some { IfOk result (λ n. (1 ≤ n) × (n ≤ length bytes.now)) }
    ensures bytes { WriteAppends (W.contents writer.old) (W.contents writer.new) result bytes.now }
{
    for _ in 0..u64::MAX {
        match writer.write(bytes) {
            Ok(0) => return Err(Failed),
            Ok(count) => return Ok(count),
            Err(error) if error.kind() == ErrorKind::Interrupted => {}
            Err(_) => return Err(Failed),
        }
    }
    Err(Failed)
}

/// A reader or a writer of which one call fails, and no other.
#[derive(Drop)]
pub struct Fused<S> {
    inner: S,
    // The calls before the one that fails, while it is still to come.
    before: Option<u64>,
}

impl<S> Fused<S> {
    /// The call of this number fails; with 0 none does. Calls are counted from 1: each `read` of a reader, and each `write` of a
    /// writer, whose `flush` is not counted.
    pub fn new(inner: S, call: u64) -> Fused<S>
        ensures inner { result.inner ≡ inner }
        ensures before { SomeIff result.before (1 ≤ call) (call - 1) }
    {
        Fused {
            inner,
            before: call.checked_sub(1),
        }
    }

    // Whether this call is the one that fails.
    fn fails(&mut self) -> bool
        ensures inner { self.new.inner ≡ self.old.inner }
        ensures fails { IsTrue result ↔ (self.old.before ≡ Some 0) }
        ensures before { IsOneCallOn self.old.before self.new.before }
    {
        match self.before {
            None => false,
            Some(0) => {
                self.before = None;
                true
            }
            Some(before) => {
                self.before = Some(before - 1);
                false
            }
        }
    }
}

impl<R: Read> Read for Fused<R> {
    ghost remaining = { λ s. R.remaining s.inner };

    fn read(&mut self, buf: &mut [u8]) -> io::Result<usize>
        ensures bound { ReadsAtMost result buf.new }
        ensures bytes { ReadConsumes (R.remaining self.old.inner) (R.remaining self.new.inner)
            result buf.new }
        ensures fails { IfOk result (λ _. self.old.before ≢ Some 0) }
        ensures before { IsOneCallOn self.old.before self.new.before }
    {
        if self.fails() {
            return Err(io::Error::from(ErrorKind::ConnectionReset));
        }
        self.inner.read(buf)
    }
}

impl<W: Write> Write for Fused<W> {
    ghost contents = { λ s. W.contents s.inner };

    fn write(&mut self, buf: &[u8]) -> io::Result<usize>
        ensures bound { WritesAtMost result buf.now }
        ensures bytes { WriteAppends (W.contents self.old.inner) (W.contents self.new.inner)
            result buf.now }
        ensures fails { IfOk result (λ _. self.old.before ≢ Some 0) }
        ensures before { IsOneCallOn self.old.before self.new.before }
    {
        if self.fails() {
            return Err(io::Error::from(ErrorKind::StorageFull));
        }
        self.inner.write(buf)
    }

    fn flush(&mut self) -> io::Result<()>
        ensures bytes { Keeps (W.contents self.old.inner) (W.contents self.new.inner) }
        ensures before { self.new.before ≡ self.old.before }
    {
        self.inner.flush()
    }
}
