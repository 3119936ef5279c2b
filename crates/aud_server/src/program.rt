// The program: its arguments, and how it ends.

ghost use Rattle.std.specs.Prelude.{◌≡◌, ◌≢◌, ◌⊎◌, ◌↔◌, length, map, string_bytes, IsTrue, IfOk, IfErr, IsErrOf};
ghost use Rattle.clap.specs.Words.{kind_of};
ghost use Rattle.aud_server.specs.declared.program.ProgramFault.TheVariants as fault;
ghost use Rattle.aud_solo.specs.declared.serving.ServeFault.TheVariants as server;
ghost use Rattle.aud_server.specs.Program.{AsksSolo, status, of_kind};

use crate::listen::{ListenFault, listen};
use crate::options::read_options;
use aud_solo::ended::run_standard;
use aud_solo::serving::ServeFault;
use clap::error::ErrorKind;
use clap::{Arg, ArgAction, Command, Error as ClapError};
use std::alloc::{AllocError, Global};
use std::net::{Net, TcpListener, TcpStream};
use std::sync::Wait;
use std::thread::Threads;
use thiserror::Error;

/// Why the program ends with another status than 0.
#[derive(Clone, Copy, PartialEq, Eq, Debug, Error)]
pub enum ProgramFault {
    /// The arguments are not those of the program.
    #[error("bad arguments")]
    Arguments,
    /// The port cannot be listened on, or a connection not be accepted.
    #[error("cannot listen")]
    Listen,
    /// What ends the server, or memory is refused before it begins.
    #[error(transparent)]
    Server(ServeFault),
}

impl From<AllocError> for ProgramFault {
    ghost from_gives = { λ _ e. e ≡ fault.Server server.Memory };

    fn from(_error: AllocError) -> ProgramFault {
        ProgramFault::Server(ServeFault::Memory)
    }
}

impl From<ClapError> for ProgramFault {
    ghost from_gives = { λ error e. e ≡ of_kind (kind_of error) };

    fn from(error: ClapError) -> ProgramFault {
        match error.kind() {
            ErrorKind::OutOfMemory => ProgramFault::Server(ServeFault::Memory),
            _ => ProgramFault::Arguments,
        }
    }
}

impl ProgramFault {
    /// The status with which the program ends.
    pub fn status(self) -> u8
        ensures { result ≡ status self }
    {
        match self {
            ProgramFault::Arguments => 2,
            ProgramFault::Listen => 3,
            ProgramFault::Server(fault) => fault.status(),
        }
    }
}

/// Runs the program on the words of its command line, the first of which is its own name, and gives its status. `--solo` alone
/// serves the standard input; other words ask it to listen, or are refused.
pub fn program<R>(rt: &R, words: &[String]) -> u8
where
    R: Input
        + Print
        + Eprint
        + AllocGlobal
        + Net<Listener = TcpListener, Stream = TcpStream>
        + Threads
        + Wait
        + Sync,
    ensures solo { AsksSolo (map string_bytes words.now) → (result ≢ 2) × (result ≢ 3) }
    ensures other { (AsksSolo (map string_bytes words.now) → ⊥) → result ≢ 1 }
    ensures known { (result ≡ 0) ⊎ (result ≡ 1) ⊎ (result ≡ 2) ⊎ (result ≡ 3) ⊎ (result ≡ 4) }
{
    match run(rt, words) {
        Ok(status) => status,
        Err(fault) => refuse(rt, fault),
    }
}

/// Says on the standard error why the program ends, and gives its status.
pub fn refuse(rt: &impl Eprint, fault: ProgramFault) -> u8
    ensures { result ≡ status fault }
{
    // Nothing is left to be done where the message cannot be written.
    let _ = eprintln!(rt; "aud: {fault}");
    fault.status()
}

// Does what the words ask for, and gives the status behind it. What went wrong on the standard input or output is told by then.
fn run<R>(rt: &R, words: &[String]) -> Result<u8, ProgramFault>
where
    R: Input
        + Print
        + Eprint
        + AllocGlobal
        + Net<Listener = TcpListener, Stream = TcpStream>
        + Threads
        + Wait
        + Sync,
    ensures solo { AsksSolo (map string_bytes words.now) →
        (IsErrOf result fault.Arguments → ⊥) × (IsErrOf result fault.Listen → ⊥) }
    ensures other { (AsksSolo (map string_bytes words.now) → ⊥) →
        (IsErrOf result (fault.Server server.Read) → ⊥)
        × (IsErrOf result (fault.Server server.Write) → ⊥) }
    ensures served { AsksSolo (map string_bytes words.now) →
        IfOk result (λ s. (s ≡ 0) ⊎ (s ≡ 1) ⊎ (s ≡ 4)) }
    ensures listened { (AsksSolo (map string_bytes words.now) → ⊥) → IfOk result (λ s. s ≡ 0) }
{
    if asks_solo(rt.alloc(), words)? {
        return Ok(run_standard(rt));
    }
    let options = read_options(rt.alloc(), words)?;
    match listen(rt, rt.alloc(), options) {
        Ok(()) => Ok(0),
        Err(ListenFault::Listen) => Err(ProgramFault::Listen),
        Err(ListenFault::Memory) => Err(ProgramFault::Server(ServeFault::Memory)),
    }
}

// Whether `--solo` is all that is asked.
fn asks_solo(alloc: Global, words: &[String]) -> Result<bool, ProgramFault>
    ensures asked { IfOk result (λ r. IsTrue r ↔ AsksSolo (map string_bytes words.now)) }
    ensures memory { IfErr result (λ e. e ≡ fault.Server server.Memory) }
{
    // The name of the program, and one argument.
    if words.len() != 2 {
        return Ok(false);
    }
    match is_solo(alloc, words) {
        Err(ProgramFault::Arguments) => Ok(false),
        asked => asked,
    }
}

// Whether the one argument is `--solo`.
fn is_solo(alloc: Global, words: &[String]) -> Result<bool, ProgramFault>
    ensures asked { length words.now ≡ 2 →
        IfOk result (λ r. IsTrue r ↔ AsksSolo (map string_bytes words.now)) }
    ensures memory { AsksSolo (map string_bytes words.now) →
        IfErr result (λ e. e ≡ fault.Server server.Memory) }
    ensures known { IfErr result (λ e. (e ≡ fault.Arguments) ⊎ (e ≡ fault.Server server.Memory)) }
{
    let solo = Arg::new(alloc, "solo")
        .long("solo")
        .action(ArgAction::SetTrue);
    let command = Command::new(alloc, "aud")
        .disable_help_flag(true)
        .disable_version_flag(true)
        .arg(solo)?;
    let matches = command.try_get_matches_from(words)?;
    Ok(matches.get_flag("solo"))
}
