// The session of one user, on one stream of requests.

ghost use Rattle.std.specs.Prelude.{◌≡◌, ◌+◌};
ghost use Rattle.aud_solo.specs.declared.serving.TheConstants.{READS};
ghost use Rattle.aud_solo.specs.Serving.{Serves, CountsReadsTo, CountsWrites};
ghost use Rattle.aud_solo.specs.Solo.{TellsAlone, StopsAtQuit};
ghost use Rattle.aud_solo.specs.Streams.{CountsUpTo};
ghost use Rattle.aud_solo.specs.Ties.Sessions.{session_words};

use crate::serving::{Attendant, ServeFault, serve};
use crate::streams::{Sink, Source};
use aud_bench::request::Request;
use aud_bench::session::Session;
use aud_lines::answers::answer_text;
use aud_text::limits::STANDARD;
use std::alloc::{AllocError, Global};

impl Attendant for Session {
    ghost words = { session_words };

    fn greet(&self, alloc: Global) -> Result<Vec<u8>, AllocError> {
        Ok(Vec::new(alloc))
    }

    fn reply(&mut self, alloc: Global, request: &Request) -> Result<Vec<u8>, AllocError> {
        match self.answer(alloc, request)? {
            Some(answer) => answer_text(alloc, &answer),
            None => Ok(Vec::new(alloc)),
        }
    }

    fn is_over(&self) -> bool {
        Session::is_over(self)
    }

    fn leave(&mut self, _alloc: Global) {}
}

/// Answers the requests of a reader as `serve` does, to the end or until it has answered a QUIT, and writes the answers of a
/// private server.
///
/// # Errors
///
/// Those of `serve`.
pub fn solo<S: Source, T: Sink>(
    alloc: Global,
    reader: &mut S,
    writer: &mut T,
) -> Result<(), ServeFault>
    ensures serves { Serves TellsAlone result (S.remaining reader.old) (S.remaining reader.new)
        (T.contents writer.old) (T.contents writer.new) }
    ensures quit { StopsAtQuit (S.remaining reader.old) (S.remaining reader.new)
        (S.pieces reader.old) (S.pieces reader.new) }
    ensures reads { CountsUpTo READS (S.calls reader.old) (S.calls reader.new) }
    ensures read { CountsReadsTo (S.calls reader.new ≡ S.calls reader.old + READS) result
        (S.failures reader.old) (S.failures reader.new) }
    ensures write { CountsWrites result (T.failures writer.old) (T.failures writer.new) }
{
    let mut session = Session::new(STANDARD);
    serve(alloc, &mut session, reader, writer)
}
