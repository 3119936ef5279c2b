// Requests and answers.

ghost use Rattle.std.specs.Cmp.{partial_equiv_from_equiv};
ghost use Rattle.std.specs.Prelude.{◌≡◌, IfOk};
ghost use Rattle.aud_bench.specs.Alone.{refusal_of};
ghost use Rattle.aud_bench.specs.Same.{same_request};
ghost use Rattle.aud_bench.specs.Ties.Sameness.{same_requests};

use crate::choices::Choices;
use crate::wait::Wait;
pub use aud_debug::lines::Lines;
pub use aud_debug::listing::Listing;
use aud_meaning::state::State;
use aud_text::name::Name;
use aud_text::place::Pos;
use aud_text::raise::Raise;
use aud_text::refusal::Refusal;
use aud_text::text::Text;
use std::alloc::{AllocError, Global};

/// What a user asks.
pub enum Request {
    /// Take this source text: its lines, each followed by a line feed.
    Load(Text),
    /// Begin the program anew.
    Reset,
    /// Do this many steps, or as many as can be done.
    Run(u32),
    /// Take the enabled move of this index. No choice is used.
    Step(u32),
    /// Let these choices wait behind those that wait already.
    Choose(Choices),
    /// Let the clock of the program go on.
    Advance(Wait),
    /// Tell the time on that clock.
    Clock,
    /// List what is shown of the program between two steps.
    List(Listing),
    /// Tell what the program has put out.
    Output,
    /// Claim the seat of this number. A private server has no seats, and knows no such command.
    Seat(u32),
    /// End the session.
    Quit,
    /// A malformed request.
    Bad(BadRequest),
}

// One call wherever it is dropped.
impl Drop for Request {
    fn drop(self) {
        match self {
            Request::Load(source) => drop(source),
            Request::Choose(choices) => drop(choices),
            Request::Reset
            | Request::Run(_)
            | Request::Step(_)
            | Request::Advance(_)
            | Request::Clock
            | Request::List(_)
            | Request::Output
            | Request::Seat(_)
            | Request::Quit
            | Request::Bad(_) => {}
        }
    }
}

impl Request {
    /// Another owner of the same request.
    ///
    /// # Errors
    ///
    /// Where memory is refused.
    pub fn try_clone(&self, alloc: Global) -> Result<Self, AllocError>
        ensures { IfOk result (λ request. request ≡ self.now) }
    {
        match self {
            Request::Load(source) => Ok(Request::Load(source.try_clone(alloc)?)),
            Request::Reset => Ok(Request::Reset),
            Request::Run(steps) => Ok(Request::Run(*steps)),
            Request::Step(nth) => Ok(Request::Step(*nth)),
            Request::Choose(choices) => Ok(Request::Choose(choices.try_clone(alloc)?)),
            Request::Advance(wait) => Ok(Request::Advance(*wait)),
            Request::Clock => Ok(Request::Clock),
            Request::List(listing) => Ok(Request::List(*listing)),
            Request::Output => Ok(Request::Output),
            Request::Seat(number) => Ok(Request::Seat(*number)),
            Request::Quit => Ok(Request::Quit),
            Request::Bad(why) => Ok(Request::Bad(*why)),
        }
    }
}

impl PartialEq for Request {
    ghost eq = { same_request };

    ghost laws = { partial_equiv_from_equiv same_requests };

    #[tactic(auto, unfolding(crate::specs::Same::same_request))]
    fn eq(&self, other: &Request) -> bool {
        match (self, other) {
            (Request::Load(source), Request::Load(text)) => source.as_bytes() == text.as_bytes(),
            (Request::Run(steps), Request::Run(number)) => *steps == *number,
            (Request::Step(nth), Request::Step(number)) => *nth == *number,
            (Request::Advance(wait), Request::Advance(time)) => *wait == *time,
            (Request::List(listing), Request::List(other)) => *listing == *other,
            (Request::Seat(seat), Request::Seat(number)) => *seat == *number,
            (Request::Choose(choices), Request::Choose(numbers)) => {
                choices.as_slice() == numbers.as_slice()
            }
            (Request::Reset, Request::Reset)
            | (Request::Clock, Request::Clock)
            | (Request::Output, Request::Output)
            | (Request::Quit, Request::Quit) => true,
            (Request::Bad(why), Request::Bad(reason)) => *why == *reason,
            _ => false,
        }
    }
}

impl Eq for Request {
    ghost laws = { same_requests };
}

/// Why a request is malformed.
#[derive(Clone, Copy)]
pub enum BadRequest {
    /// Its first word is no command.
    UnknownCommand,
    /// What follows the first word is not what the command takes.
    BadArgument,
    /// A line of it is longer than a line may be.
    LineTooLong,
    /// A byte of it is not ASCII.
    NotAscii,
}

impl BadRequest {
    /// The refusal that answers the request.
    pub fn refusal(self) -> Refusal
        ensures { result ≡ refusal_of self }
    {
        match self {
            BadRequest::UnknownCommand => Refusal::UnknownCommand,
            BadRequest::BadArgument => Refusal::BadArgument,
            BadRequest::LineTooLong => Refusal::LineTooLong,
            BadRequest::NotAscii => Refusal::NotAscii,
        }
    }
}

/// An exception: a predefined one, or one that the program declares, by its name (RM 11.1).
#[derive(Drop)]
pub enum Raised {
    Predefined(Raise),
    Declared(Name),
}

impl Raised {
    /// Another owner of the same exception.
    ///
    /// # Errors
    ///
    /// Where memory is refused.
    pub fn try_clone(&self, alloc: Global) -> Result<Self, AllocError>
        ensures { IfOk result (λ raised. raised ≡ self.now) }
    {
        match self {
            Raised::Predefined(raise) => Ok(Raised::Predefined(*raise)),
            Raised::Declared(name) => Ok(Raised::Declared(name.try_clone(alloc)?)),
        }
    }
}

/// What came of a RUN or a STEP: the steps done, what can happen next, and the exception that ended the program.
#[derive(Drop)]
pub struct Report {
    pub steps: u32,
    pub state: State,
    pub raised: Option<Raised>,
}

impl Report {
    /// Another owner of the same report.
    ///
    /// # Errors
    ///
    /// Where memory is refused.
    pub fn try_clone(&self, alloc: Global) -> Result<Self, AllocError>
        ensures { IfOk result (λ report. report ≡ self.now) }
    {
        Ok(Report {
            steps: self.steps,
            state: self.state,
            raised: clone_if(alloc, &self.raised)?,
        })
    }
}

fn clone_if(alloc: Global, raised: &Option<Raised>) -> Result<Option<Raised>, AllocError>
    ensures { IfOk result (λ clone. clone ≡ raised.now) }
{
    match raised {
        None => Ok(None),
        Some(raised) => Ok(Some(raised.try_clone(alloc)?)),
    }
}

/// What a user is answered.
pub enum Answer {
    /// The program of this name is loaded.
    Loaded(Name),
    Ran(Report),
    /// How many choices wait.
    Choices(usize),
    /// The time on the clock of the program, in milliseconds.
    Clock(u64),
    /// What is listed.
    Listed(Lines),
    /// What the program has put out.
    Output(Text),
    Done,
    Refused(Refusal),
    /// A fault of the source text, and where it stands.
    RefusedAt(Refusal, Pos),
}

impl Drop for Answer {
    fn drop(self) {
        match self {
            Answer::Loaded(name) => drop(name),
            Answer::Ran(report) => drop(report),
            Answer::Listed(lines) => drop(lines),
            Answer::Output(text) => drop(text),
            Answer::Choices(_)
            | Answer::Clock(_)
            | Answer::Done
            | Answer::Refused(_)
            | Answer::RefusedAt(_, _) => {}
        }
    }
}

impl Answer {
    /// Another owner of the same answer.
    ///
    /// # Errors
    ///
    /// Where memory is refused.
    pub fn try_clone(&self, alloc: Global) -> Result<Self, AllocError>
        ensures { IfOk result (λ answer. answer ≡ self.now) }
    {
        match self {
            Answer::Loaded(name) => Ok(Answer::Loaded(name.try_clone(alloc)?)),
            Answer::Ran(report) => Ok(Answer::Ran(report.try_clone(alloc)?)),
            Answer::Choices(count) => Ok(Answer::Choices(*count)),
            Answer::Clock(milliseconds) => Ok(Answer::Clock(*milliseconds)),
            Answer::Listed(lines) => Ok(Answer::Listed(lines.try_clone(alloc)?)),
            Answer::Output(text) => Ok(Answer::Output(text.try_clone(alloc)?)),
            Answer::Done => Ok(Answer::Done),
            Answer::Refused(refusal) => Ok(Answer::Refused(*refusal)),
            Answer::RefusedAt(refusal, at) => Ok(Answer::RefusedAt(*refusal, *at)),
        }
    }
}
