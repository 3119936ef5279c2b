// The work on one request.

ghost use Rattle.std.specs.Prelude.{◌≡◌, ◌≤◌, min, true, false, Option, Some, Ok, IfOk, IsSome};
ghost use Rattle.aud_typed.specs.declared.program.Program.{Program as Programs};
ghost use Rattle.aud_typed.specs.Ties.View.{plain_program};
ghost use Rattle.aud_meaning.specs.declared.state.State.TheVariants as states;
ghost use Rattle.aud_meaning.specs.Run.{main_raised};
ghost use Rattle.aud_machine.specs.Shown.{program_in};
ghost use Rattle.aud_machine.specs.Shows.{IfShows};
ghost use Rattle.aud_text.specs.declared.limits.Limits.{Limits as Bounds};
ghost use Rattle.aud_bench.specs.declared.request.Request.TheVariants as asked;
ghost use Rattle.aud_bench.specs.Loading.{program_of};
ghost use Rattle.aud_bench.specs.Alone.{Loaded, named, named_if, ended_by, load_reply, reset_reply, step_reply, choose_reply, advance_reply, clock_reply, listed_reply, list_reply, output_reply};
ghost use Rattle.aud_bench.specs.Ties.Serving.{IsLoaded, RepliesAs, RepliesInTime, RepliesTo, GoesOn};

use crate::loading::{LoadFault, load};
use crate::request::{Answer, Raised, Report, Request};
use crate::wait::Wait;
use aud_debug::lines::Lines;
use aud_debug::listing::{Listing, list};
use aud_machine::machine::Machine;
use aud_meaning::state::State;
use aud_scoped::ScopedProgram;
use aud_text::limits::{CHOICES, CLOCK, Limits, STEPS};
use aud_text::name::Name;
use aud_text::refusal::Refusal;
use aud_text::text::Text;
use aud_typed::program::Exception;
use std::alloc::{AllocError, Global};

/// What some work on a request came to: its answer, if it is done, the steps that a RUN under way has done, and the
/// units that the work cost.
#[derive(Drop)]
pub struct Served {
    pub answer: Option<Answer>,
    pub progress: u32,
    pub cost: u64,
}

/// Does at most this many units of work on a request, of which the units of `progress` are done already. A RUN costs its
/// steps, at least one, and any other request one. Of an ADVANCE for which the clock has no room nothing is promised.
pub fn serve(
    alloc: Global,
    limits: Limits,
    machine: &mut Option<Machine>,
    request: &Request,
    progress: u32,
    units: u64,
) -> Result<Served, AllocError>
    requires { 1 ≤ units }
    ensures serves { IfOk result (λ served.
        GoesOn limits request.now progress units machine.old served machine.new) }
    ensures whole { STEPS ≤ units → IfOk result (λ served. IsSome served.answer) }
    ensures within { IfOk result (λ served. served.cost ≤ units) }
    ensures some { IfOk result (λ served. 1 ≤ served.cost) }
{
    match request {
        Request::Load(source) => Ok(answered(take(alloc, limits, machine, source.as_bytes())?)),
        Request::Reset => Ok(answered(reset(alloc, machine)?)),
        Request::Run(steps) => match machine {
            None => Ok(answered(Answer::Refused(Refusal::NoProgram))),
            Some(machine) => run(alloc, machine, *steps, progress, units),
        },
        Request::Step(nth) => Ok(answered(step(alloc, machine, *nth)?)),
        Request::Choose(choices) => Ok(answered(choose(machine, choices.as_slice())?)),
        Request::Advance(wait) => Ok(answered(advance(machine, *wait))),
        Request::Clock => Ok(answered(clock(machine))),
        Request::List(listing) => Ok(answered(listed(alloc, machine, *listing)?)),
        Request::Output => Ok(answered(output(alloc, machine)?)),
        Request::Seat(_) => Ok(answered(Answer::Refused(Refusal::UnknownCommand))),
        Request::Quit => Ok(answered(Answer::Done)),
        Request::Bad(why) => Ok(answered(Answer::Refused(why.refusal()))),
    }
}

/// Answers a request at once, whatever it costs; of an ADVANCE as `serve` does.
pub fn answer(
    alloc: Global,
    limits: Limits,
    machine: &mut Option<Machine>,
    request: &Request,
) -> Result<Answer, AllocError>
    ensures { IfOk result (λ answer. RepliesTo limits request.now machine.old answer machine.new) }
{
    let Served {
        answer,
        progress: _,
        cost: _,
    } = serve(alloc, limits, machine, request, 0, u64::MAX)?;
    match answer {
        Some(answer) => Ok(answer),
        None => unreachable!(),
    }
}

fn answered(answer: Answer) -> Served
    ensures { result ≡ record { answer = Some answer; progress = 0; cost = 1 } }
{
    Served {
        answer: Some(answer),
        progress: 0,
        cost: 1,
    }
}

// A source text that is refused leaves what was loaded before.
fn take(
    alloc: Global,
    limits: Limits,
    machine: &mut Option<Machine>,
    source: &[u8],
) -> Result<Answer, AllocError>
    ensures { IfOk result (λ answer. RepliesAs (load_reply (program_of limits source.now))
        limits machine.old answer machine.new) }
{
    match load(alloc, limits, source) {
        Ok(program) => begin(alloc, limits, machine, program),
        Err(LoadFault::Refused(refusal)) => Ok(refusal),
        Err(LoadFault::Memory) => Err(AllocError),
    }
}

// A machine of the program takes the place of the one before.
fn begin(
    alloc: Global,
    limits: Limits,
    machine: &mut Option<Machine>,
    program: ScopedProgram,
) -> Result<Answer, AllocError>
    ensures { IfOk result (λ answer. RepliesAs (load_reply (Ok (plain_program program)))
        limits machine.old answer machine.new) }
{
    let name = program.program().name.try_clone(alloc)?;
    let new = Machine::new(alloc, program, limits)?;
    replace(machine, Some(new));
    Ok(Answer::Loaded(name))
}

// Drops the machine that was there.
fn replace(machine: &mut Option<Machine>, new: Option<Machine>)
    ensures { machine.new ≡ new }
{
    *machine = new;
}

fn reset(alloc: Global, machine: &mut Option<Machine>) -> Result<Answer, AllocError>
    ensures { IfOk result (λ answer. (bounds : Bounds) →
        RepliesAs reset_reply bounds machine.old answer machine.new) }
{
    match machine {
        None => Ok(Answer::Refused(Refusal::NoProgram)),
        Some(machine) => begin_anew(alloc, machine),
    }
}

fn begin_anew(alloc: Global, machine: &mut Machine) -> Result<Answer, AllocError>
    ensures { IfOk result (λ answer. (bounds : Bounds) →
        RepliesAs reset_reply bounds (Some machine.old) answer (Some machine.new)) }
{
    machine.reset(alloc)?;
    Ok(Answer::Done)
}

fn step(alloc: Global, machine: &mut Option<Machine>, nth: u32) -> Result<Answer, AllocError>
    ensures { IfOk result (λ answer. (bounds : Bounds) →
        RepliesAs (step_reply bounds nth) bounds machine.old answer machine.new) }
{
    match machine {
        None => Ok(Answer::Refused(Refusal::NoProgram)),
        Some(machine) => take_move(alloc, machine, nth),
    }
}

// The enabled move of this index, where the LOAD has a step left.
fn take_move(alloc: Global, machine: &mut Machine, nth: u32) -> Result<Answer, AllocError>
    ensures { IfOk result (λ answer. (bounds : Bounds) →
        RepliesAs (step_reply bounds nth) bounds (Some machine.old) answer (Some machine.new)) }
{
    if machine.steps() >= STEPS {
        return Ok(Answer::Refused(Refusal::StepBudget));
    }
    let Some(ran) = machine.take(alloc, nth as usize)? else {
        return Ok(Answer::Refused(Refusal::NoSuchMove));
    };
    Ok(Answer::Ran(report(alloc, machine, ran.steps, ran.state)?))
}

fn choose(machine: &mut Option<Machine>, choices: &[u32]) -> Result<Answer, AllocError>
    ensures { IfOk result (λ answer. (bounds : Bounds) →
        RepliesAs (choose_reply choices.now) bounds machine.old answer machine.new) }
{
    match machine {
        None => Ok(Answer::Refused(Refusal::NoProgram)),
        Some(machine) => supply(machine, choices),
    }
}

// All of the choices wait, or none of them where there is no room for all.
fn supply(machine: &mut Machine, choices: &[u32]) -> Result<Answer, AllocError>
    ensures { IfOk result (λ answer. (bounds : Bounds) →
        RepliesAs (choose_reply choices.now) bounds (Some machine.old) answer (Some machine.new)) }
{
    let waiting = machine.choices() + choices.len();
    if waiting > CHOICES as usize {
        return Ok(Answer::Refused(Refusal::ChoicesFull));
    }
    machine.choose(choices)?;
    Ok(Answer::Choices(machine.choices()))
}

fn advance(machine: &mut Option<Machine>, wait: Wait) -> Answer
    ensures { (bounds : Bounds) →
        RepliesInTime (advance_reply wait) bounds machine.old result machine.new }
{
    match machine {
        None => Answer::Refused(Refusal::NoProgram),
        Some(machine) => let_pass(machine, wait),
    }
}

// A session ends before its clock does: there is room for all that it may ask.
fn let_pass(machine: &mut Machine, wait: Wait) -> Answer
    ensures { (bounds : Bounds) →
        RepliesInTime (advance_reply wait) bounds (Some machine.old) result (Some machine.new) }
{
    let room = CLOCK - machine.clock();
    machine.advance(wait.milliseconds().min(room));
    Answer::Clock(machine.clock())
}

fn clock(machine: &Option<Machine>) -> Answer
    ensures { (bounds : Bounds) → (loaded : Option Loaded) →
        IsLoaded bounds machine.now loaded → result ≡ (clock_reply loaded).answer }
{
    match machine {
        None => Answer::Refused(Refusal::NoProgram),
        Some(machine) => Answer::Clock(machine.clock()),
    }
}

fn listed(alloc: Global, machine: &Option<Machine>, listing: Listing) -> Result<Answer, AllocError>
    ensures { IfOk result (λ answer. (bounds : Bounds) → (loaded : Option Loaded) →
        IsLoaded bounds machine.now loaded → answer ≡ (list_reply listing loaded).answer) }
{
    match machine {
        None => Ok(Answer::Refused(Refusal::NoProgram)),
        Some(machine) => Ok(with_lines(list(machine, alloc, listing)?)),
    }
}

fn with_lines(lines: Option<Lines>) -> Answer
    ensures { (loaded : Loaded) → result ≡ (listed_reply lines loaded).answer }
{
    match lines {
        None => Answer::Refused(Refusal::NoSuchTask),
        Some(lines) => Answer::Listed(lines),
    }
}

fn output(alloc: Global, machine: &Option<Machine>) -> Result<Answer, AllocError>
    ensures { IfOk result (λ answer. (bounds : Bounds) → (loaded : Option Loaded) →
        IsLoaded bounds machine.now loaded → answer ≡ (output_reply loaded).answer) }
{
    match machine {
        None => Ok(Answer::Refused(Refusal::NoProgram)),
        Some(machine) => Ok(Answer::Output(Text::from_slice(alloc, machine.output())?)),
    }
}

// Goes on with a RUN, of whose steps some are done. It ends where they all are done or the steps of the LOAD
// are used up, or where no move is enabled.
fn run(
    alloc: Global,
    machine: &mut Machine,
    steps: u32,
    progress: u32,
    units: u64,
) -> Result<Served, AllocError>
    requires { 1 ≤ units }
    ensures serves { IfOk result (λ served. (bounds : Bounds) →
        GoesOn bounds (asked.Run steps) progress units
        (Some machine.old) served (Some machine.new)) }
    ensures whole { STEPS ≤ units → IfOk result (λ served. IsSome served.answer) }
    ensures within { IfOk result (λ served. served.cost ≤ units) }
    ensures some { IfOk result (λ served. 1 ≤ served.cost) }
{
    let left = STEPS - machine.steps();
    if left == 0 {
        return Ok(answered(Answer::Refused(Refusal::StepBudget)));
    }
    let wanted = steps.saturating_sub(progress).min(left);
    let now = within(wanted, units);
    let ran = machine.slice(alloc, now)?;
    let done = progress + ran.steps;
    if now < wanted && has_more(ran.state) {
        return Ok(Served {
            answer: None,
            progress: done,
            cost: units,
        });
    }
    let report = report(alloc, machine, done, ran.state)?;
    Ok(Served {
        answer: Some(Answer::Ran(report)),
        progress: 0,
        cost: u64::from(ran.steps.max(1)),
    })
}

// Whether there is more to do.
fn has_more(state: State) -> bool
    ensures yes { result ≡ true → state ≡ states.More }
    ensures no { result ≡ false → ¬ (state ≡ states.More) }
{
    match state {
        State::More => true,
        State::Ended | State::OutputFull | State::Waiting(_) | State::Stuck => false,
    }
}

// As many of the steps as there are units for.
fn within(steps: u32, units: u64) -> u32
    ensures { result ≡ min steps units }
{
    match u32::try_from(units) {
        Ok(units) => steps.min(units),
        Err(_) => steps,
    }
}

// What is told of so many steps that led to this state.
fn report(alloc: Global, machine: &Machine, steps: u32, state: State) -> Result<Report, AllocError>
    ensures { IfOk result (λ report. IfShows machine.now (λ c. report ≡ record {
      steps = steps;
      state = state;
      raised = ended_by state (named_if (program_in machine.now).plan.exceptions
          (main_raised c.tasks));
    })) }
{
    let raised = named_if(alloc, &machine.program().exceptions, machine.raised())?;
    Ok(Report {
        steps,
        state,
        raised: ended_by(state, raised),
    })
}

// The exception that ended the program.
fn ended_by(state: State, raised: Option<Raised>) -> Option<Raised>
    ensures { result ≡ ended_by state raised }
{
    match state {
        State::Ended => raised,
        State::OutputFull | State::More | State::Waiting(_) | State::Stuck => None,
    }
}

fn named_if(
    alloc: Global,
    names: &[Name],
    raised: Option<Exception>,
) -> Result<Option<Raised>, AllocError>
    ensures { IfOk result (λ x. x ≡ named_if names.now raised) }
{
    match raised {
        None => Ok(None),
        Some(exception) => Ok(Some(named(alloc, names, exception)?)),
    }
}

// An exception with its name: of those that the program declares, the one of its number.
fn named(alloc: Global, names: &[Name], exception: Exception) -> Result<Raised, AllocError>
    ensures { IfOk result (λ x. x ≡ named names.now exception) }
{
    match exception {
        Exception::Predefined(raise) => Ok(Raised::Predefined(raise)),
        Exception::Declared(number) => Ok(Raised::Declared(match names.get(number) {
            Some(name) => name.try_clone(alloc)?,
            None => Name::from_source(alloc, b"")?,
        })),
    }
}
