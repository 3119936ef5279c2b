// What the words of a command line ask of the listening program.

ghost use Rattle.std.specs.Prelude.{◌≡◌, ◌⊎◌, ◌≤◌, IfOk, IfErr};
ghost use Rattle.aud_server.specs.declared.program.ProgramFault.TheVariants as fault;
ghost use Rattle.aud_solo.specs.declared.serving.ServeFault.TheVariants as server;

use crate::program::ProgramFault;
use clap::{Arg, ArgAction, ArgMatches, Command};
use std::alloc::{AllocError, Global};

/// How many seats there are, how many of the first of them are large, how many workers, where it listens, and how many connections
/// it serves: 0 for any number.
#[derive(Clone, Copy)]
pub struct Options {
    pub seats: usize,
    pub large: usize,
    pub workers: u64,
    pub port: u16,
    pub connections: u64,
}

/// Reads the words, the first of which is the program's own name.
///
/// # Errors
///
/// `Arguments` where a word is none of the program's, a number is not within its range, or more seats are large than there are;
/// memory.
pub fn read_options(alloc: Global, words: &[String]) -> Result<Options, ProgramFault>
    ensures seats { IfOk result (λ o. (1 ≤ o.seats) × (o.seats ≤ 64)) }
    ensures large { IfOk result (λ o. o.large ≤ o.seats) }
    ensures workers { IfOk result (λ o. (1 ≤ o.workers) × (o.workers ≤ 16)) }
    ensures port { IfOk result (λ o. 1 ≤ o.port) }
    ensures known { IfErr result (λ e. (e ≡ fault.Arguments) ⊎ (e ≡ fault.Server server.Memory)) }
{
    for word in words {
        if word.as_str() == "--" {
            return Err(ProgramFault::Arguments);
        }
    }
    let matches = command(alloc)?.try_get_matches_from(words)?;
    let seats = number_within(&matches, "seats", 1, 64)?;
    let large = number_within(&matches, "large", 0, seats)?;
    let workers = number_within(&matches, "workers", 1, 16)?;
    let port = number_within(&matches, "port", 1, 65_535)?;
    let connections = number_within(&matches, "connections", 0, u64::MAX)?;
    Ok(Options {
        seats: seats as usize,
        large: large as usize,
        workers,
        port: port as u16,
        connections,
    })
}

// The number that a word of the command line gives, in decimal digits alone.
fn number_within(matches: &ArgMatches, name: &str, low: u64, high: u64) -> Result<u64, ProgramFault>
    ensures within { IfOk result (λ n. (low ≤ n) × (n ≤ high)) }
    ensures known { IfErr result (λ e. e ≡ fault.Arguments) }
{
    let Some(text) = matches.get_str(name) else {
        return Err(ProgramFault::Arguments);
    };
    if !text.bytes().all(|byte| byte.is_ascii_digit()) {
        return Err(ProgramFault::Arguments);
    }
    match text.parse::<u64>() {
        Ok(number) if low <= number && number <= high => Ok(number),
        _ => Err(ProgramFault::Arguments),
    }
}

// The words, with what stands for those that are left out.
fn command<'a>(alloc: Global) -> Result<Command<'a>, AllocError> {
    Command::new(alloc, "aud")
        .disable_help_flag(true)
        .disable_version_flag(true)
        .arg(number(alloc, "seats", "8"))?
        .arg(number(alloc, "large", "0"))?
        .arg(number(alloc, "workers", "4"))?
        .arg(number(alloc, "port", "7070"))?
        .arg(number(alloc, "connections", "0"))
}

fn number<'a>(alloc: Global, name: &'a str, default: &'a str) -> Arg<'a> {
    Arg::new(alloc, name)
        .long(name)
        .action(ArgAction::Set)
        .default_value(default)
}
