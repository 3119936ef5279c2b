// A connection, served from its first byte to its last.

ghost use Rattle.std.specs.Prelude.{◌≡◌, ◌+◌};
ghost use Rattle.aud_solo.specs.declared.serving.TheConstants.{READS};
ghost use Rattle.aud_solo.specs.Serving.{Serves, CountsReadsTo, CountsWrites};
ghost use Rattle.aud_solo.specs.Streams.{CountsUpTo};
ghost use Rattle.aud_connection.specs.Served.{Tells, StopsAtQuit};
ghost use Rattle.aud_connection.specs.Ties.Words.{visit_words};

use crate::greeting::greeting;
use crate::visit::Visit;
use aud_bench::request::Request;
use aud_desk::desk::Desk;
use aud_desk::seating::Seating;
use aud_solo::serving::{self, Attendant, ServeFault};
use aud_solo::streams::{Sink, Source};
use std::alloc::{AllocError, Global};
use std::sync::Wait;

// A connection at a desk.
#[derive(Drop)]
struct Visitor<'a, R: Wait, D: Seating> {
    rt: &'a R,
    desk: &'a Desk<D>,
    visit: Visit,
}

impl<R: Wait, D: Seating> Attendant for Visitor<'_, R, D> {
    ghost words = { visit_words D.limits (λ visitor. visitor.visit) };

    fn greet(&self, alloc: Global) -> Result<Vec<u8>, AllocError> {
        let seats = self.desk.limits(self.rt, alloc)?;
        greeting(alloc, &seats)
    }

    fn reply(&mut self, alloc: Global, request: &Request) -> Result<Vec<u8>, AllocError> {
        self.visit.reply(self.rt, alloc, self.desk, request)
    }

    fn is_over(&self) -> bool {
        self.visit.over
    }

    // Ends its session, where it has one.
    fn leave(&mut self, alloc: Global) {
        let Some(mut pass) = self.visit.pass.take() else {
            return;
        };
        // Nothing is left to be done where the desk refuses either: it is told nowhere.
        let _ = self.desk.submit(self.rt, alloc, &mut pass, Request::Quit);
        let _ = self.desk.close(self.rt, pass);
    }
}

/// Serves a connection at a desk, turn by turn as `serving::serve` does. First of all it tells which seats there are. Before a
/// SEAT takes a seat every other request is refused; from then on the answers are those of a private server with the limits of
/// that seat, up to the desk's first refusal. Behind a QUIT of a connection with a seat, at the end of what is read and at a
/// fault it leaves its seat, which no clause says.
///
/// # Errors
///
/// - `Read` where a read fails, or one more than `READS` is needed. All that was read is answered.
/// - `Write` where a write fails, that of the last answer of `Memory` among them.
/// - `Memory` where memory is refused, here or at the desk. Behind the answers before it, or in place of the greeting, stands
///   that memory is out.
pub fn serve<R: Wait, D: Seating, S: Source, T: Sink>(
    rt: &R,
    alloc: Global,
    desk: &Desk<D>,
    reader: &mut S,
    writer: &mut T,
) -> Result<(), ServeFault>
    ensures serves { Serves (Tells D.limits) result (S.remaining reader.old) (S.remaining reader.new)
        (T.contents writer.old) (T.contents writer.new) }
    ensures quit { StopsAtQuit D.limits (S.remaining reader.old) (S.remaining reader.new)
        (T.contents writer.old) (T.contents writer.new) (S.pieces reader.old) (S.pieces reader.new) }
    ensures reads { CountsUpTo READS (S.calls reader.old) (S.calls reader.new) }
    ensures read { CountsReadsTo (S.calls reader.new ≡ S.calls reader.old + READS) result
        (S.failures reader.old) (S.failures reader.new) }
    ensures write { CountsWrites result (T.failures writer.old) (T.failures writer.new) }
{
    let mut visitor = Visitor {
        rt,
        desk,
        visit: Visit::new(),
    };
    serving::serve(alloc, &mut visitor, reader, writer)
}
