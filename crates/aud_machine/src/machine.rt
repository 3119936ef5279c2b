// A machine and its runs.

ghost use Rattle.std.specs.Prelude.{◌≡◌, ◌+◌, ◌*◌, ◌<◌, ◌≤◌, ℕ, [], false, length, true, slice_get, IfOk, IfSome, IsErr, OnOk};
ghost use Rattle.aud_typed.specs.Ties.View.{plain_program};
ghost use Rattle.aud_meaning.specs.Parts.{own_of, owns, is_task};
ghost use Rattle.aud_meaning.specs.Run.{moves_at, moves_in, state_in, main_raised, supplied, advanced, opening, opening_with};
ghost use Rattle.aud_meaning.specs.Listings.{view, view_at};
ghost use Rattle.aud_meaning.specs.Why.Limits.{IsWithin};
ghost use Rattle.aud_meaning.specs.Why.Open.{IsOpen, queued_on};
ghost use Rattle.aud_code.specs.Flat.{flat_controls};
ghost use Rattle.aud_code.specs.Places.{Spot};
ghost use Rattle.aud_code.specs.Starts.{AreSpots};
ghost use Rattle.aud_expr.specs.Size.{size};
ghost use Rattle.aud_over.specs.Over.{forgotten};
ghost use Rattle.aud_tasks.specs.Counting.{executed, most_of_barriers, step_ticks, Counts};
ghost use Rattle.aud_framed.specs.Fitting.{DeclaresDirectly, OnlyOpen};
ghost use Rattle.aud_machine.specs.Frames.{HoldsFrames, Meets};
ghost use Rattle.aud_machine.specs.Shown.{program_in};
ghost use Rattle.aud_machine.specs.Shows.{Shows, IfShows, Leaves, RunsFrom, Takes};

use aud_code::sound_code::SoundCode;
use aud_expr::operands::Operands;
use aud_gen::generate;
use aud_meaning::state::{Move, State as Standing};
use aud_scoped::ScopedProgram;
use aud_state::state::State;
use aud_tasks::compiled::Compiled;
use aud_tasks::moves::{moves, state_of};
pub use aud_tasks::run::Ran;
use aud_tasks::run::{forget_if_due, run, take};
use aud_text::limits::{CHOICES, CLOCK, Limits, OUTPUT, STEPS};
use aud_typed::program::{Exception, Program};
use std::alloc::{AllocError, Global};
use std::marker::Model;

/// A program under way. Where memory is refused to it, it is spent, and then refuses each call that might need more.
pub struct Machine {
    program: Program,
    code: SoundCode,
    limits: Limits,
    state: State,
    spent: bool,
}

// One call wherever it is dropped.
impl Drop for Machine {
    fn drop(self) {
        let Machine {
            program: _,
            code: _,
            limits: _,
            state: _,
            spent: _,
        } = self;
    }
}

impl Model for Machine {
    ghost use Rattle.std.specs.Prelude.{◌≡◌, ◌≤◌, false};
    ghost use Rattle.aud_typed.specs.Ties.View.{plain_program};
    ghost use Rattle.aud_typed.specs.Why.Scoped.{HaveDistinctEntries};
    ghost use Rattle.aud_layout.specs.Assembly.{flat_program};
    ghost use Rattle.aud_meaning.specs.Why.Limits.{IsWithin};
    ghost use Rattle.aud_code.specs.Places.{Spot};
    ghost use Rattle.aud_code.specs.Starts.{AreSpots};
    ghost use Rattle.aud_machine.specs.Frames.{ComesTo, HasTable};
    ghost use Rattle.aud_machine.specs.Shown.{Shown};
    ghost use Rattle.aud_machine.specs.Shows.{MissesNone};
    ghost use Rattle.std.specs.Coded.{codes};
    ghost use Rattle.aud_typed.specs.contracts.program.Body as body;
    ghost use Rattle.aud_typed.specs.contracts.program.BooleanExpression as boolean;

    ghost Value = { Shown };

    ghost coded = { Prim.hlevel (codes, body.the_row.coded, boolean.the_row.coded) };

    ghost view = { λ m. record {
      program = m.program;
      code = m.code;
      limits = m.limits;
      all = m.state;
      spent = m.spent;
    } };

    ghost invariant = { λ m. (m.code ≡ flat_program (plain_program m.program))
        × HaveDistinctEntries (plain_program m.program).plan.objects
        × (m.spent ≡ false → AreSpots m.code.lines m.state.tasks)
        × (m.spent ≡ false → 1 ≤ m.limits.tasks → IsWithin Spot m.limits m.state)
        × (m.spent ≡ false → MissesNone (record {
          program = m.program;
          code = m.code;
          limits = m.limits;
          all = m.state;
          spent = m.spent;
        }))
        × HasTable (plain_program m.program).plan m.code
        × (m.spent ≡ false → ComesTo (record {
          program = m.program;
          code = m.code;
          limits = m.limits;
          all = m.state;
          spent = m.spent;
        })) };
}

impl Machine {
    /// A machine with these limits, which shows the program before its first step (RM 10.2).
    ///
    /// # Errors
    ///
    /// Where memory is refused.
    pub fn new(alloc: Global, program: ScopedProgram, limits: Limits) -> Result<Machine, AllocError>
        ensures shows { IfOk result (λ m. Shows m (opening (plain_program program))) }
        ensures program { IfOk result (λ m. m.program ≡ program) }
        ensures limits { IfOk result (λ m. m.limits ≡ limits) }
    {
        let code = generate(alloc, &program)?;
        let state = opened(alloc, &code, program.program(), limits)?;
        Ok(Machine {
            program: program.into_program(),
            code,
            limits,
            state,
            spent: false,
        })
    }

    /// The program that it does.
    pub fn program(&self) -> &Program
        ensures { result.now ≡ self.now.program }
    {
        &self.program
    }

    /// Its limits, which it keeps for good.
    pub fn limits(&self) -> Limits
        ensures { result ≡ self.now.limits }
    {
        self.limits
    }

    /// Whether memory was refused to it: it shows no program then.
    pub fn is_spent(&self) -> bool
        ensures { result ≡ self.now.spent }
    {
        self.spent
    }

    /// The output so far (RM A.10.7).
    pub fn output(&self) -> &[u8]
        ensures shown { IfShows self.now (λ c. result.now ≡ c.shared.output) }
        ensures within { length result.now ≤ OUTPUT }
    {
        self.state.output()
    }

    /// Whether a text was cut at the output's limit.
    pub fn is_cut(&self) -> bool
        ensures { IfShows self.now (λ c. result ≡ c.shared.cut) }
    {
        self.state.is_cut()
    }

    /// What can happen next.
    pub fn state(&self) -> Standing
        ensures { IfShows self.now (λ c. result ≡ state_in (program_in self.now) c) }
    {
        state_of(&self.state, self.compiled())
    }

    /// The enabled moves, by the numbers of their tasks, counted from 0, and then by their alternatives. `take(k)`
    /// makes the one of index k. There are none once the program has ended or its output is full.
    ///
    /// # Errors
    ///
    /// Where memory is refused, or the machine is spent.
    pub fn moves(&self, alloc: Global) -> Result<Vec<Move>, AllocError>
        ensures shown { IfOk result (λ moves. IfShows self.now (λ c.
            moves.items ≡ moves_in (program_in self.now) c)) }
        ensures parts { IfOk result (λ moves. let plan = (program_in self.now).plan in
            moves.items ≡ moves_at plan (flat_controls plan self.now.code) self.now.all) }
        ensures refuses { self.now.spent ≡ true → IsErr result }
    {
        if self.spent {
            return Err(AllocError);
        }
        moves(&self.state, alloc, self.compiled())
    }

    /// The exception that left the main procedure (RM 11.4).
    pub fn raised(&self) -> Option<Exception>
        ensures { IfShows self.now (λ c. result ≡ main_raised c.tasks) }
    {
        self.state.raised()
    }

    /// How many choices wait.
    pub fn choices(&self) -> usize
        ensures value { result ≡ length self.now.all.choices }
        ensures shown { IfShows self.now (λ c. result ≡ length c.choices) }
        ensures within { result ≤ CHOICES }
    {
        self.state.choices()
    }

    /// The time on the clock, in milliseconds.
    pub fn clock(&self) -> u64
        ensures value { result ≡ self.now.all.clock }
        ensures shown { IfShows self.now (λ c. result ≡ c.clock) }
        ensures within { result ≤ CLOCK }
    {
        self.state.clock()
    }

    /// The steps taken.
    pub fn steps(&self) -> u32
        ensures value { result ≡ self.now.all.steps }
        ensures shown { IfShows self.now (λ c. result ≡ c.steps) }
        ensures within { result ≤ STEPS }
    {
        self.state.steps()
    }

    /// All that it has: the frames, the tasks, the calls, the protected objects, the clock and the steps taken. If the
    /// machine isn't spent, each task stands where a step begins, its limits hold of them (so many tasks and objects, so
    /// many live frames of each task, and so much output), and no call is queued on a task's open entry, one for which
    /// the task is blocked at an accept or at an open alternative (RM 9.5.3(5)). Then each task under way holds the
    /// frames that are open where it stands and no others, if what the program asks always meets what its code alone
    /// doesn't say, as that the object is there whose operation it calls; and what is left is what is open, if its code
    /// declares tasks directly in bodies and blocks. Of frames and calls that are over, nothing need be left, and
    /// nothing of them is shown.
    pub fn parts(&self) -> &State
        ensures all { result.now ≡ self.now.all }
        ensures within { self.now.spent ≡ false → 1 ≤ self.now.limits.tasks →
            IsWithin Spot self.now.limits result.now }
        ensures spots { self.now.spent ≡ false → AreSpots self.now.code.lines result.now.tasks }
        ensures missed { self.now.spent ≡ false → (n entry : ℕ) → IsOpen (own_of n result.now) entry →
            queued_on (is_task n) entry result.now.shared.calls ≡ [] }
        ensures framed { self.now.spent ≡ false → Meets self.now → HoldsFrames self.now }
        ensures left { self.now.spent ≡ false → Meets self.now → DeclaresDirectly self.now.code →
            OnlyOpen (program_in self.now).plan self.now.code result.now }
        ensures tasks { IfShows self.now (λ c. owns result.now.tasks ≡ owns c.tasks) }
        ensures shared { IfShows self.now (λ c.
            (forgotten result.now).shared ≡ (forgotten c).shared) }
        ensures choices { IfShows self.now (λ c. result.now.choices ≡ c.choices) }
        ensures clock { IfShows self.now (λ c. result.now.clock ≡ c.clock) }
        ensures steps { IfShows self.now (λ c. result.now.steps ≡ c.steps) }
        ensures view { IfShows self.now (λ c. let plan = (program_in self.now).plan in
            view_at plan (flat_controls plan self.now.code) result.now ≡ view (program_in self.now) c) }
    {
        let _ = self.code.len();
        &self.state
    }

    /// Supplies choices, which wait behind those that wait already. At most 10,000 may wait together.
    ///
    /// # Errors
    ///
    /// Where memory is refused, or the machine is spent. It is spent then.
    pub fn choose(&mut self, choices: &[u32]) -> Result<(), AllocError>
        requires { length self.old.all.choices + length choices.now ≤ CHOICES }
        ensures shows { OnOk result (IfShows self.old (λ c.
            Shows self.new (supplied choices.now c))) }
        ensures exact { OnOk result (self.new
            ≡ record self.old { all = supplied choices.now self.old.all }) }
        ensures leaves { Leaves self.old self.new result }
    {
        if self.spent {
            return Err(AllocError);
        }
        self.spent = true;
        self.state.choose(choices)?;
        self.spent = false;
        Ok(())
    }

    /// Lets the clock go on (RM 9.6). Steps take no time.
    pub fn advance(&mut self, milliseconds: u64)
        requires { self.old.all.clock + milliseconds ≤ CLOCK }
        ensures shows { IfShows self.old (λ c. Shows self.new (advanced milliseconds c)) }
        ensures exact { self.new ≡ record self.old { all = advanced milliseconds self.old.all } }
    {
        self.state.advance(milliseconds);
    }

    /// Begins anew: the program before its first step, with no choices, no output and the clock at 0.
    ///
    /// # Errors
    ///
    /// Where memory is refused, or the machine is spent. It is spent then.
    pub fn reset(&mut self, alloc: Global) -> Result<(), AllocError>
        ensures shows { OnOk result (Shows self.new (opening (plain_program self.old.program))) }
        ensures leaves { Leaves self.old self.new result }
    {
        if self.spent {
            return Err(AllocError);
        }
        self.spent = true;
        self.state = opened(alloc, &self.code, &self.program, self.limits)?;
        self.spent = false;
        Ok(())
    }

    /// Takes n steps, or those until no move is enabled. Frames and calls that are over are given back on the way.
    ///
    /// # Errors
    ///
    /// Where memory is refused, or the machine is spent. It is spent then.
    pub fn slice(&mut self, alloc: Global, n: u32) -> Result<Ran, AllocError>
        requires { self.old.all.steps + n ≤ STEPS }
        ensures runs { IfOk result (λ ran. IfShows self.old (λ c.
            RunsFrom self.old.limits (program_in self.old) n c self.new ran)) }
        ensures few { IfOk result (λ ran. ran.steps ≤ n) }
        ensures ticks { IfOk result (λ ran.
            ran.ticks ≤ ran.steps * (2 * size self.old.code)) }
        ensures counts { IfOk result (λ ran. Counts
            (executed (program_in self.old).plan self.old.code self.old.limits ran.steps self.old.all)
            (ran.steps * most_of_barriers (program_in self.old).plan self.old.code) ran.ticks) }
        ensures leaves { Leaves self.old self.new result }
    {
        if self.spent {
            return Err(AllocError);
        }
        self.spent = true;
        let mut operands = Operands::new(alloc);
        let compiled = Compiled {
            code: &self.code,
            program: &self.program,
            limits: self.limits,
        };
        let ran = run(&mut self.state, alloc, compiled, &mut operands, n)?;
        self.spent = false;
        Ok(ran)
    }

    /// Takes the enabled move of this index, or nothing where there is none. Frames and calls that are over are given
    /// back after it.
    ///
    /// # Errors
    ///
    /// Where memory is refused, or the machine is spent. It is spent then.
    pub fn take(&mut self, alloc: Global, nth: usize) -> Result<Option<Ran>, AllocError>
        requires { self.old.all.steps < STEPS }
        ensures takes { IfOk result (λ taken. IfShows self.old (λ c.
            Takes self.old.limits (program_in self.old) c
            (slice_get (moves_in (program_in self.old) c) nth) self.old self.new taken)) }
        ensures ticks { IfOk result (λ taken. IfSome taken (λ ran.
            ran.ticks ≤ 2 * size self.old.code)) }
        ensures counts { IfOk result (λ taken. IfSome taken (λ ran. let plan = (program_in self.old).plan in
            IfSome (slice_get (moves_at plan (flat_controls plan self.old.code) self.old.all) nth) (λ m. Counts
            (step_ticks plan self.old.code self.old.all m)
            (most_of_barriers plan self.old.code) ran.ticks))) }
        ensures leaves { Leaves self.old self.new result }
    {
        if self.spent {
            return Err(AllocError);
        }
        self.spent = true;
        let mut operands = Operands::new(alloc);
        let compiled = Compiled {
            code: &self.code,
            program: &self.program,
            limits: self.limits,
        };
        let taken = take(&mut self.state, alloc, compiled, &mut operands, nth)?;
        if taken.is_some() {
            forget_if_due(&mut self.state, alloc)?;
        }
        self.spent = false;
        Ok(taken)
    }

    /// Its program with the code of that and the limits, for what is read of a state.
    pub fn compiled(&self) -> Compiled<'_>
        ensures program { result.program.now ≡ self.now.program }
        ensures code { result.code.now ≡ self.now.code }
        ensures limits { result.limits ≡ self.now.limits }
    {
        Compiled {
            code: &self.code,
            program: &self.program,
            limits: self.limits,
        }
    }
}

/// A program before its first step, which stands where a step begins and keeps the limits.
///
/// # Errors
///
/// Where memory is refused.
pub fn opened(
    alloc: Global,
    code: &SoundCode,
    program: &Program,
    limits: Limits,
) -> Result<State, AllocError>
    ensures opening { IfOk result (λ state. let plan = (plain_program program.now).plan in
        state ≡ opening_with plan program.now.name ((flat_controls plan code.now).begins 0)) }
    ensures spots { IfOk result (λ state. AreSpots code.now.lines state.tasks) }
    ensures within { IfOk result (λ state. 1 ≤ limits.tasks → IsWithin Spot limits state) }
{
    let _ = code.start(0);
    let state = State::new(alloc, code, &program.units, &program.name)?;
    Ok(state)
}
