// The arguments of the program.

use crate::fault::Fault;
use crate::halls::speed::Measure;

/// Files of calls of halls, of programs with their canonical texts, and of sessions.
#[derive(Clone, Copy)]
pub struct Files<'a> {
    pub halls: &'a [String],
    pub programs: &'a [String],
    pub sessions: &'a [String],
}

/// What the program is to do.
#[derive(Clone, Copy)]
pub enum Task<'a> {
    Look(Files<'a>),
    Work(Measure),
    /// Leave so many seats idle.
    Idle { seats: u32 },
}

/// What the words of the command line ask for, the first of which is the program's own name: `--halls` and files, then
/// `--programs` and files, then `--sessions` and files, or the last ones alone; `--idle` and a number of seats;
/// `--work` and the numbers of a measure.
///
/// # Errors
///
/// `Arguments` where nothing is asked for, and where a number is missing or is none.
pub fn task_of(words: &[String]) -> Result<Task<'_>, Fault> {
    let (_, words) = words.split_first().ok_or(Fault::Arguments)?;
    let (first, rest) = words.split_first().ok_or(Fault::Arguments)?;
    match first.as_str() {
        "--halls" => {
            let (rest, sessions) = parts(rest, "--sessions");
            let (halls, programs) = parts(rest, "--programs");
            Ok(Task::Look(Files {
                halls,
                programs,
                sessions,
            }))
        }
        "--sessions" => Ok(Task::Look(Files {
            halls: &[],
            programs: &[],
            sessions: rest,
        })),
        "--idle" => {
            let (seats, _) = number(rest)?;
            Ok(Task::Idle { seats })
        }
        "--work" => {
            let (seats, rest) = number(rest)?;
            let (before, rest) = number(rest)?;
            let (steps, rest) = number(rest)?;
            let (slice, _) = number(rest)?;
            Ok(Task::Work(Measure {
                seats: seats as usize,
                before,
                steps,
                slice,
            }))
        }
        _ => Err(Fault::Arguments),
    }
}

// What stands before this word, and what stands behind it.
fn parts<'a>(words: &'a [String], mark: &str) -> (&'a [String], &'a [String]) {
    for (place, word) in words.iter().enumerate() {
        if word.as_str() == mark {
            let (before, rest) = words.split_at(place);
            return (before, rest.get(1..).unwrap_or(&[]));
        }
    }
    (words, &[])
}

// The number that comes first, and the words behind it.
fn number(words: &[String]) -> Result<(u32, &[String]), Fault> {
    let (first, rest) = words.split_first().ok_or(Fault::Arguments)?;
    match first.as_str().parse::<u32>() {
        Ok(number) => Ok((number, rest)),
        Err(_) => Err(Fault::Arguments),
    }
}
