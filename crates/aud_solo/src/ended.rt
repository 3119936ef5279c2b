// With which status a program ends that has served one stream of requests.

ghost use Rattle.std.specs.Prelude.{◌≡◌, ◌⊎◌, ◌+◌};
ghost use Rattle.aud_solo.specs.declared.serving.TheConstants.{READS};
ghost use Rattle.aud_solo.specs.Ended.{EndsAs, fault_status};
ghost use Rattle.aud_solo.specs.Serving.{Serves, CountsReadsTo, CountsWrites};
ghost use Rattle.aud_solo.specs.Solo.{TellsAlone, StopsAtQuit};
ghost use Rattle.aud_solo.specs.Streams.{CountsUpTo};

use crate::serving::ServeFault;
use crate::solo::solo;
use crate::streams::{Sink, Source, Stream};
use std::alloc::Global;
use std::io;

impl ServeFault {
    /// The status with which a program ends for it.
    pub fn status(self) -> u8
        ensures { result ≡ fault_status self }
    {
        match self {
            ServeFault::Read | ServeFault::Write => 1,
            ServeFault::Memory => 4,
        }
    }
}

/// Serves the requests of a reader as `solo` does, and gives the status with which the program ends: 0 only where `solo`
/// answers Ok. Where it is another, one line on the standard error says why, which no clause says.
pub fn run_solo<S: Source, T: Sink>(
    rt: &impl Eprint,
    alloc: Global,
    reader: &mut S,
    writer: &mut T,
) -> u8
    ensures ended { EndsAs result (λ served.
        Serves TellsAlone served (S.remaining reader.old) (S.remaining reader.new)
        (T.contents writer.old) (T.contents writer.new)
        × CountsReadsTo (S.calls reader.new ≡ S.calls reader.old + READS) served
        (S.failures reader.old) (S.failures reader.new)
        × CountsWrites served (T.failures writer.old) (T.failures writer.new)) }
    ensures quit { StopsAtQuit (S.remaining reader.old) (S.remaining reader.new)
        (S.pieces reader.old) (S.pieces reader.new) }
    ensures reads { CountsUpTo READS (S.calls reader.old) (S.calls reader.new) }
{
    match solo(alloc, reader, writer) {
        Ok(()) => 0,
        Err(fault) => tell(rt, fault),
    }
}

/// Serves the standard input as `run_solo` does, and gives its status.
pub fn run_standard<R: Input + Print + Eprint + AllocGlobal>(rt: &R) -> u8
    ensures known { (result ≡ 0) ⊎ (result ≡ 1) ⊎ (result ≡ 4) }
{
    let mut reader = Stream::new(rt.reader());
    let mut writer = Stream::new(io::writer(rt));
    run_solo(rt, rt.alloc(), &mut reader, &mut writer)
}

// Says on the standard error why the program ends, and gives its status.
fn tell(rt: &impl Eprint, fault: ServeFault) -> u8
    ensures { result ≡ fault_status fault }
{
    // Nothing is left to be done where the line cannot be written.
    let _ = eprintln!(rt; "aud: {fault}");
    fault.status()
}
