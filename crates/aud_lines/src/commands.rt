// What the first line of a request asks.

ghost use Rattle.std.specs.Prelude.{◌≡◌, ◌≤◌, ℕ, List, [], ◌∷◌, IfOk, IfSome};
ghost use Rattle.std.specs.Str.{bytes_eq};
ghost use Rattle.aud_text.specs.declared.limits.TheConstants.{CHOICE, MOVE, SEAT, TASK, WAIT};
ghost use Rattle.aud_bench.specs.Listings as listing;
ghost use Rattle.aud_bench.specs.declared.request.BadRequest.TheVariants as bad;
ghost use Rattle.aud_bench.specs.declared.request.Request.TheVariants as request;
ghost use Rattle.aud_lines.specs.Ties.Asked.{asked, given};
ghost use Rattle.aud_lines.specs.Lines.{words_of, number_of};
ghost use Rattle.aud_lines.specs.Requests.{has_high_byte, line_fault, Command as Asked, Whole, Loads, wrong_argument, no_argument, ranged, one_number, numbers_behind, some_numbers, command_of, command};

use crate::lines::{first_word, number, trimmed};
use aud_bench::choices::Choices;
use aud_bench::request::{BadRequest, Listing, Request};
use aud_bench::wait::Wait;
use aud_text::limits::{CHOICE, LINE, LINES, MOVE, RUN, SEAT, TASK, WAIT};
use std::alloc::{AllocError, Global};

/// What a request's first line asks.
#[derive(Drop)]
pub enum Command {
    /// A request of one line.
    Whole(Request),
    /// A LOAD of n lines.
    Loads(u32),
}

/// What is wrong with a line, as it came without its line feed: that it is too long, or else that
/// a byte of it is not ASCII.
pub fn line_fault(line: &[u8]) -> Option<BadRequest>
    ensures { result ≡ line_fault line.now }
{
    if line.len() > LINE as usize {
        return Some(BadRequest::LineTooLong);
    }
    if has_high_byte(line) {
        return Some(BadRequest::NotAscii);
    }
    None
}

fn has_high_byte(line: &[u8]) -> bool
    ensures { result ≡ has_high_byte line.now }
{
    line.iter().any(|byte| 127 < *byte)
}

/// What the first line of a request asks, as it came without its line feed.
///
/// # Errors
///
/// Where memory is refused.
pub fn read_command(alloc: Global, line: &[u8]) -> Result<Command, AllocError>
    ensures { IfOk result (λ read. asked read ≡ command line.now) }
{
    match line_fault(line) {
        Some(why) => Ok(Command::Whole(Request::Bad(why))),
        None => command_of(alloc, trimmed(line)),
    }
}

fn command_of(alloc: Global, line: &[u8]) -> Result<Command, AllocError>
    ensures { IfOk result (λ read. asked read ≡ command_of (words_of line.now)) }
{
    match first_word(line) {
        Some((word, arguments)) => command_with(alloc, word, arguments),
        None => Ok(unknown_command()),
    }
}

fn command_with(alloc: Global, word: &[u8], arguments: &[u8]) -> Result<Command, AllocError>
    ensures { IfOk result (λ read.
        asked read ≡ command_of (word.now ∷ words_of arguments.now)) }
{
    if is(word, b"LOAD") {
        Ok(load(arguments))
    } else if is(word, b"RESET") {
        Ok(no_argument(arguments, Request::Reset))
    } else if is(word, b"RUN") {
        Ok(run(arguments))
    } else if is(word, b"STEP") {
        Ok(step(arguments))
    } else if is(word, b"CHOOSE") {
        choose(alloc, arguments)
    } else if is(word, b"ADVANCE") {
        Ok(advance(arguments))
    } else if is(word, b"CLOCK") {
        Ok(no_argument(arguments, Request::Clock))
    } else if is(word, b"MOVES") {
        Ok(no_argument(arguments, Request::List(Listing::Moves)))
    } else if is(word, b"TASKS") {
        Ok(no_argument(arguments, Request::List(Listing::Tasks)))
    } else if is(word, b"QUEUES") {
        Ok(no_argument(arguments, Request::List(Listing::Queues)))
    } else if is(word, b"OBJECTS") {
        Ok(no_argument(arguments, Request::List(Listing::Objects)))
    } else if is(word, b"WAITS") {
        Ok(no_argument(arguments, Request::List(Listing::Waits)))
    } else if is(word, b"VARS") {
        Ok(variables(arguments))
    } else if is(word, b"OUTPUT") {
        Ok(no_argument(arguments, Request::Output))
    } else if is(word, b"SEAT") {
        Ok(seat(arguments))
    } else if is(word, b"QUIT") {
        Ok(no_argument(arguments, Request::Quit))
    } else {
        Ok(unknown_command())
    }
}

fn unknown_command() -> Command
    ensures { asked result ≡ Whole (request.Bad bad.UnknownCommand) }
{
    Command::Whole(Request::Bad(BadRequest::UnknownCommand))
}

fn is(word: &[u8], command: &[u8]) -> bool
    ensures { result ≡ bytes_eq word.now command.now }
{
    word == command
}

fn load(arguments: &[u8]) -> Command
    ensures { asked result ≡ one_number 0 LINES (words_of arguments.now) (λ n. Loads n) }
{
    match number_within(0, LINES, arguments) {
        Some(lines) => Command::Loads(lines),
        None => wrong_argument(),
    }
}

fn run(arguments: &[u8]) -> Command
    ensures { asked result
        ≡ one_number 1 RUN (words_of arguments.now) (λ n. Whole (request.Run n)) }
{
    match number_within(1, RUN, arguments) {
        Some(steps) => Command::Whole(Request::Run(steps)),
        None => wrong_argument(),
    }
}

fn step(arguments: &[u8]) -> Command
    ensures { asked result
        ≡ one_number 0 MOVE (words_of arguments.now) (λ n. Whole (request.Step n)) }
{
    match number_within(0, MOVE, arguments) {
        Some(nth) => Command::Whole(Request::Step(nth)),
        None => wrong_argument(),
    }
}

fn advance(arguments: &[u8]) -> Command
    ensures { asked result
        ≡ one_number 0 WAIT (words_of arguments.now) (λ n. Whole (request.Advance n)) }
{
    match number_within(0, WAIT, arguments) {
        Some(milliseconds) => Command::Whole(Request::Advance(Wait::new(milliseconds))),
        None => wrong_argument(),
    }
}

fn variables(arguments: &[u8]) -> Command
    ensures { asked result ≡ one_number 0 TASK (words_of arguments.now)
        (λ n. Whole (request.List (listing.Variables n))) }
{
    match number_within(0, TASK, arguments) {
        Some(task) => Command::Whole(Request::List(Listing::Variables(task))),
        None => wrong_argument(),
    }
}

fn seat(arguments: &[u8]) -> Command
    ensures { asked result
        ≡ one_number 0 SEAT (words_of arguments.now) (λ n. Whole (request.Seat n)) }
{
    match number_within(0, SEAT, arguments) {
        Some(number) => Command::Whole(Request::Seat(number)),
        None => wrong_argument(),
    }
}

#[tactic(auto, using(crate::proofs::CommandLaws::some_words))]
fn choose(alloc: Global, arguments: &[u8]) -> Result<Command, AllocError>
    ensures { IfOk result (λ read. asked read
        ≡ some_numbers 0 CHOICE (words_of arguments.now) (λ ns. Whole (request.Choose ns))) }
{
    let Some(_) = first_word(arguments) else {
        return Ok(wrong_argument());
    };
    match choices_of(alloc, arguments)? {
        Some(choices) => Ok(Command::Whole(Request::Choose(choices))),
        None => Ok(wrong_argument()),
    }
}

// The choices that stand there, if each word is the number of one.
fn choices_of(alloc: Global, arguments: &[u8]) -> Result<Option<Choices>, AllocError>
    ensures { IfOk result (λ found. (use_of : List ℕ → Asked) →
        numbers_behind 0 CHOICE [] (words_of arguments.now) use_of ≡ given found use_of) }
{
    let mut choices = Choices::new(alloc);
    let mut rest = arguments;
    while let Some((word, behind)) = first_word(rest) {
        let Some(choice) = number_in(0, CHOICE, word) else {
            return Ok(None);
        };
        choices.push(choice)?;
        rest = behind;
    }
    Ok(Some(choices))
}

fn no_argument(arguments: &[u8], request: Request) -> Command
    ensures { asked result ≡ no_argument (words_of arguments.now) request }
{
    match first_word(arguments) {
        Some(_) => wrong_argument(),
        None => Command::Whole(request),
    }
}

fn wrong_argument() -> Command
    ensures { asked result ≡ wrong_argument }
{
    Command::Whole(Request::Bad(BadRequest::BadArgument))
}

// The one number that stands there, if it lies in the range.
fn number_within(low: u32, high: u32, arguments: &[u8]) -> Option<u32>
    ensures value { (use_of : ℕ → Asked) →
        one_number low high (words_of arguments.now) use_of ≡ given result use_of }
    ensures within { IfSome result (λ n. n ≤ high) }
{
    let (word, others) = first_word(arguments)?;
    if first_word(others).is_some() {
        return None;
    }
    number_in(low, high, word)
}

// The number that the word says, if it lies in the range.
fn number_in(low: u32, high: u32, word: &[u8]) -> Option<u32>
    ensures value { (use_of : ℕ → Asked) →
        ranged low high (number_of word.now) use_of ≡ given result use_of }
    ensures within { IfSome result (λ n. n ≤ high) }
{
    let value = number(word)?;
    if u64::from(low) <= value && value <= u64::from(high) {
        Some(value as u32)
    } else {
        None
    }
}
