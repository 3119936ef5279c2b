// The server on one stream of requests, whoever answers them.

ghost use Rattle.std.specs.Prelude.{◌≡◌, ℕ, ◌+◌, List, [], ◌∷◌, Option, true, false, OnOk, IfOk, IsErrOf};
ghost use Rattle.std.specs.Io.KnownBytes.{Appends};
ghost use Rattle.aud_lines.specs.Ties.Begun.{nothing};
ghost use Rattle.aud_solo.specs.declared.serving.TheConstants.{READS};
ghost use Rattle.aud_solo.specs.declared.serving.ServeFault.TheVariants as fault;
ghost use Rattle.aud_solo.specs.Serving.{Serves, CountsReads, CountsReadsTo, CountsWrites, memory_text};
ghost use Rattle.aud_solo.specs.Streams.{CountsUpTo, Grows, AppendsPrefix};
ghost use Rattle.aud_solo.specs.Ties.Serving.{Words, HasGreeted, HasTold, TellsTo, TellsNext, TellsNoMore, TellsMore, HasServed, StopsIn, Stops, ServesTurn, GoesOn, ServesSome};

use crate::streams::{Sink, Source};
use aud_bench::request::Request;
use aud_lines::feed::Feed;
use std::alloc::{AllocError, Global};
use thiserror::Error;

/// Why the server ends before the end of its session.
#[derive(Clone, Copy, PartialEq, Eq, Debug, Error)]
pub enum ServeFault {
    /// A read failed.
    #[error("read failed")]
    Read,
    /// A write failed.
    #[error("write failed")]
    Write,
    /// Where memory is refused.
    #[error("out of memory")]
    Memory,
}

impl From<AllocError> for ServeFault {
    ghost from_gives = { λ _ e. e ≡ fault.Memory };

    fn from(_error: AllocError) -> ServeFault {
        ServeFault::Memory
    }
}

/// The most reads of a session.
pub const READS: u64 = 1_000_000_000_000;

/// The most bytes of a read.
pub const PIECE: usize = 4_096;

/// Who answers the requests of a stream, one after the other.
pub trait Attendant {
    ghost words: { Words Self };

    /// The text of what is told before anything is asked.
    ///
    /// # Errors
    ///
    /// Where memory is refused. Then nothing is asked.
    fn greet(&self, alloc: Global) -> Result<Vec<u8>, AllocError>
        requires { words.fresh self.now }
        ensures { IfOk result (λ text. HasGreeted words text.items self.now) };

    /// The text of what is told for a request.
    ///
    /// # Errors
    ///
    /// Where memory is refused. Then no more is asked.
    fn reply(&mut self, alloc: Global, request: &Request) -> Result<Vec<u8>, AllocError>
        requires { words.over self.old ≡ false }
        ensures { IfOk result
            (λ text. TellsNext words request.now self.old text.items self.new) };

    /// Whether nothing is told for what is asked from now on.
    fn is_over(&self) -> bool
        ensures value { result ≡ words.over self.now }
        ensures none { result ≡ true → TellsNoMore words self.now };

    /// What is to be done when all is answered or a fault ends the session, before it is written that memory is out.
    fn leave(&mut self, alloc: Global);
}

/// Greets, and answers the requests of a reader, turn by turn: each answer is written before the next request is looked at, and
/// before more is read. It reads to the end, or until nothing more is told.
///
/// # Errors
///
/// - `Read` where a read fails, or one more than `READS` is needed. What is told for all that was read is written.
/// - `Write` where a write fails, that of the last answer of `Memory` among them. A prefix of what was to be written stands
///   there, and it may end within an answer.
/// - `Memory` where memory is refused. A prefix of the answers is written, or not even the greeting, and behind it that memory
///   is out.
pub fn serve<A: Attendant, S: Source, T: Sink>(
    alloc: Global,
    attendant: &mut A,
    reader: &mut S,
    writer: &mut T,
) -> Result<(), ServeFault>
    requires { A.words.fresh attendant.old }
    ensures serves { Serves A.words.tells result (S.remaining reader.old) (S.remaining reader.new)
        (T.contents writer.old) (T.contents writer.new) }
    ensures stops { Stops A.words (S.remaining reader.old) (S.remaining reader.new)
        (T.contents writer.old) (T.contents writer.new) (S.pieces reader.old) (S.pieces reader.new) }
    ensures reads { CountsUpTo READS (S.calls reader.old) (S.calls reader.new) }
    ensures read { CountsReadsTo (S.calls reader.new ≡ S.calls reader.old + READS) result
        (S.failures reader.old) (S.failures reader.new) }
    ensures write { CountsWrites result (T.failures writer.old) (T.failures writer.new) }
{
    let served = serve_all(alloc, attendant, reader, writer);
    attendant.leave(alloc);
    if matches!(served, Err(ServeFault::Memory)) {
        write(writer, out_of_memory())?;
    }
    served
}

// The same, before it is written that memory is out.
fn serve_all<A: Attendant, S: Source, T: Sink>(
    alloc: Global,
    attendant: &mut A,
    reader: &mut S,
    writer: &mut T,
) -> Result<(), ServeFault>
    requires { A.words.fresh attendant.old }
    ensures serves { ServesSome A.words.tells result (S.remaining reader.old) (S.remaining reader.new)
        (T.contents writer.old) (T.contents writer.new) }
    ensures stops { Stops A.words (S.remaining reader.old) (S.remaining reader.new)
        (T.contents writer.old) (T.contents writer.new) (S.pieces reader.old) (S.pieces reader.new) }
    ensures reads { CountsUpTo READS (S.calls reader.old) (S.calls reader.new) }
    ensures read { CountsReadsTo (S.calls reader.new ≡ S.calls reader.old + READS) result
        (S.failures reader.old) (S.failures reader.new) }
    ensures counts { CountsWrites result (T.failures writer.old) (T.failures writer.new) }
{
    greet(alloc, attendant, writer)?;
    // Dropped here alone: each way out of the loop would prove the drop once more.
    let mut feed = Feed::new(alloc);
    serve_pieces(alloc, attendant, &mut feed, reader, writer)
}

// Writes what is told before anything is asked.
fn greet<A: Attendant, T: Sink>(
    alloc: Global,
    attendant: &A,
    writer: &mut T,
) -> Result<(), ServeFault>
    requires { A.words.fresh attendant.now }
    ensures tells { TellsTo A.words result (T.contents writer.old) (T.contents writer.new) []
        attendant.now }
    ensures going { OnOk result (A.words.over attendant.now ≡ false) }
    ensures read { IsErrOf result fault.Read → ⊥ }
    ensures counts { CountsWrites result (T.failures writer.old) (T.failures writer.new) }
{
    let greeting = attendant.greet(alloc)?;
    write(writer, &greeting)
}

// What is served behind the greeting, by a feed of which nothing has come.
fn serve_pieces<A: Attendant, S: Source, T: Sink>(
    alloc: Global,
    attendant: &mut A,
    feed: &mut Feed,
    reader: &mut S,
    writer: &mut T,
) -> Result<(), ServeFault>
    requires going { A.words.over attendant.old ≡ false }
    requires feed { feed.old ≡ nothing }
    ensures serves { (before : Option (List ℕ)) →
        HasTold A.words before (T.contents writer.old) [] attendant.old
        → ServesSome A.words.tells result (S.remaining reader.old) (S.remaining reader.new) before
        (T.contents writer.new) }
    ensures stops { (before : Option (List ℕ)) →
        HasTold A.words before (T.contents writer.old) [] attendant.old
        → StopsIn A.words (S.remaining reader.old) (S.remaining reader.new) before
        (T.contents writer.new) (S.pieces reader.old) (S.pieces reader.new) }
    ensures reads { CountsUpTo READS (S.calls reader.old) (S.calls reader.new) }
    ensures read { CountsReadsTo (S.calls reader.new ≡ S.calls reader.old + READS) result
        (S.failures reader.old) (S.failures reader.new) }
    ensures counts { CountsWrites result (T.failures writer.old) (T.failures writer.new) }
{
    for _ in 0..READS {
        if !turn(alloc, attendant, feed, reader, writer)? {
            return Ok(());
        }
    }
    Err(ServeFault::Read)
}

/// A turn of a session that goes on: one read, and what is told for all requests that it completes, each of which is
/// written when the turn is done. Gives whether another turn is due: not where nothing more is told, nor at the end of what
/// is read.
///
/// # Errors
///
/// - `Read` where the read fails. Nothing else is done.
/// - `Write` where a write fails. A prefix of the answers is written, and it may end within an answer.
/// - `Memory` where memory is refused. A prefix of the answers is written.
///
/// Behind `Write` and `Memory` the session is not to be gone on with.
pub fn turn<A: Attendant, S: Source, T: Sink>(
    alloc: Global,
    attendant: &mut A,
    feed: &mut Feed,
    reader: &mut S,
    writer: &mut T,
) -> Result<bool, ServeFault>
    requires { A.words.over attendant.old ≡ false }
    ensures one { S.calls reader.new ≡ S.calls reader.old + 1 }
    ensures serves { (left before : Option (List ℕ)) (first : List (List ℕ)) →
        HasServed A.words left (S.remaining reader.old) before (T.contents writer.old) first
        (S.pieces reader.old) feed.old attendant.old
        → ServesTurn A.words result left (S.remaining reader.new) before (T.contents writer.new) first
        (S.pieces reader.new) feed.new attendant.new }
    ensures goes_on { IfOk result
        (λ on. GoesOn A.words on attendant.new (S.remaining reader.new)) }
    ensures read { CountsReads result (S.failures reader.old) (S.failures reader.new) }
    ensures write { CountsWrites result (T.failures writer.old) (T.failures writer.new) }
{
    let mut piece = [0; PIECE];
    let Ok(count) = reader.pull(&mut piece) else {
        return Err(ServeFault::Read);
    };
    if count == 0 {
        return Ok(false);
    }
    let requests = feed.feed(alloc, &piece[..count])?;
    attend_each(alloc, attendant, &requests, writer)?;
    Ok(!attendant.is_over())
}

fn attend_each<A: Attendant, T: Sink>(
    alloc: Global,
    attendant: &mut A,
    requests: &[Request],
    writer: &mut T,
) -> Result<(), ServeFault>
    ensures tells { TellsMore A.words result (T.contents writer.old) (T.contents writer.new)
        requests.now attendant.old attendant.new }
    ensures grows { Grows (T.contents writer.old) (T.contents writer.new) }
    ensures read { IsErrOf result fault.Read → ⊥ }
    ensures counts { CountsWrites result (T.failures writer.old) (T.failures writer.new) }
{
    for request in requests {
        attend(alloc, attendant, request, writer)?;
    }
    Ok(())
}

// Writes what is told for a request, where anything is.
fn attend<A: Attendant, T: Sink>(
    alloc: Global,
    attendant: &mut A,
    request: &Request,
    writer: &mut T,
) -> Result<(), ServeFault>
    ensures tells { TellsMore A.words result (T.contents writer.old) (T.contents writer.new)
        (request.now ∷ []) attendant.old attendant.new }
    ensures grows { Grows (T.contents writer.old) (T.contents writer.new) }
    ensures read { IsErrOf result fault.Read → ⊥ }
    ensures counts { CountsWrites result (T.failures writer.old) (T.failures writer.new) }
{
    if attendant.is_over() {
        return Ok(());
    }
    let said = attendant.reply(alloc, request)?;
    write(writer, &said)
}

// Writes all the bytes, by as many calls as that takes. `Write` where one of them fails; a prefix of the bytes stands there
// then.
fn write<T: Sink>(writer: &mut T, bytes: &[u8]) -> Result<(), ServeFault>
    ensures all { OnOk result (Appends (T.contents writer.old) (T.contents writer.new) bytes.now) }
    ensures read { IsErrOf result fault.Read → ⊥ }
    ensures memory { IsErrOf result fault.Memory → ⊥ }
    ensures write { IsErrOf result fault.Write →
        AppendsPrefix (T.contents writer.old) (T.contents writer.new) bytes.now }
    ensures grows { Grows (T.contents writer.old) (T.contents writer.new) }
    ensures counts { CountsWrites result (T.failures writer.old) (T.failures writer.new) }
{
    let mut rest = bytes;
    while !rest.is_empty() {
        let Ok(count) = writer.push(rest) else {
            return Err(ServeFault::Write);
        };
        rest = &rest[count..];
    }
    Ok(())
}

// The text of the answer that memory is out, for which no memory is needed.
fn out_of_memory() -> &'static [u8]
    ensures { result.now ≡ memory_text }
{
    b"- E90 out of memory\n"
}
