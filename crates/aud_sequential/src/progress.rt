// What a task has by itself while it is worked on, with what all tasks share of the store and the run.

ghost use Rattle.std.specs.Prelude.{◌≡◌, ◌<◌, ◌≤◌, ◌+◌, ◌++◌, ◌∷◌, [], length, replicate, suc, None, false, OnOk};
ghost use Rattle.aud_meaning.specs.Effects.{innermost};
ghost use Rattle.aud_meaning.specs.Ties.Stack.{closed};
ghost use Rattle.aud_code.specs.Sound.{IsStart};
ghost use Rattle.aud_code.specs.Starts.{IsPlace};
ghost use Rattle.aud_store.specs.Ties.Frames.{only_named};
ghost use Rattle.aud_store.specs.Ties.Stored.{declared, entered, plain_purpose, IsInner};
ghost use Rattle.aud_store.specs.Ties.Stored as store;
ghost use Rattle.aud_sequential.specs.Steps.{moved_to, declared_to, stored, stored_in, on_stored, raised};
ghost use Rattle.aud_sequential.specs.Steps.{written, left_loops};
ghost use Rattle.aud_sequential.specs.Parked.{no_part};
ghost use Rattle.aud_sequential.specs.Fast.{RunsFast};

mod accepts;
mod apart;
mod calls;
mod opening;
pub mod parked;
mod tasks;

use crate::fast::{FastRun, fast_run};
use aud_code::line::Way;
use aud_code::sound_code::SoundCode;
use aud_meaning::state::Pending;
use aud_store::purpose::Purpose;
use aud_store::store::Store;
use aud_store::target::Target;
use aud_text::int32::Int32;
use aud_text::limits::{CHOICES, CLOCK, OUTPUT, STEPS};
use aud_text::place::Pos;
use aud_typed::program::Exception;
use std::alloc::{AllocError, Global};
use std::collections::VecDeque;
use std::marker::Model;

/// Where a task stands in the code, the places of its calls under way, the outermost one first, and the exception that
/// is pending, with its open frames; all frames, the output, the choices that wait, the time on the clock, and the
/// steps taken.
pub struct Progress {
    place: usize,
    returns: Vec<usize>,
    pending: Option<Pending>,
    store: Store,
    output: Vec<u8>,
    cut: bool,
    choices: VecDeque<u32>,
    clock: u64,
    steps: u32,
}

// One call wherever it is dropped.
impl Drop for Progress {
    fn drop(self) {
        let Progress {
            place: _,
            returns: _,
            pending: _,
            store: _,
            output: _,
            cut: _,
            choices: _,
            clock: _,
            steps: _,
        } = self;
    }
}

impl Model for Progress {
    ghost use Rattle.std.specs.Prelude.{◌≤◌, length, reverse};
    ghost use Rattle.aud_text.specs.declared.limits.TheConstants.{CHOICES, CLOCK, OUTPUT, STEPS};
    ghost use Rattle.aud_meaning.specs.Ties.Part.{Part};
    ghost use Rattle.aud_code.specs.Places.{Spot};

    ghost Value = { Part Spot };

    ghost view = { λ p. record {
      control = record { place = p.place; returns = reverse p.returns.items };
      pending = p.pending;
      stack = p.store.stack;
      frames = p.store.frames;
      output = p.output.items;
      cut = p.cut;
      choices = p.choices.items;
      clock = p.clock;
      steps = p.steps;
    } };

    ghost invariant = { λ p. (length p.output.items ≤ OUTPUT) × (length p.choices.items ≤ CHOICES)
        × (p.clock ≤ CLOCK) × (p.steps ≤ STEPS) };
}

impl Progress {
    /// Nothing was done yet, and no task has its part here.
    pub fn new(alloc: Global) -> Self
        ensures { result ≡ no_part }
    {
        Progress {
            place: 0,
            returns: Vec::new(alloc),
            pending: None,
            store: Store::new(alloc),
            output: Vec::new(alloc),
            cut: false,
            choices: VecDeque::new(alloc),
            clock: 0,
            steps: 0,
        }
    }

    /// Its frames, all that were ever made and those that are open.
    pub fn store(&self) -> &Store
        ensures { result.now ≡ stored_in self.now }
    {
        &self.store
    }

    pub fn output(&self) -> &[u8]
        ensures value { result.now ≡ self.now.output }
        ensures within { length result.now ≤ OUTPUT }
    {
        &self.output
    }

    /// Whether a text was cut at the output's limit.
    pub fn is_cut(&self) -> bool
        ensures { result ≡ self.now.cut }
    {
        self.cut
    }

    /// How many choices wait.
    pub fn choices(&self) -> usize
        ensures value { result ≡ length self.now.choices }
        ensures within { result ≤ CHOICES }
    {
        self.choices.len()
    }

    /// The time on the clock, in milliseconds.
    pub fn clock(&self) -> u64
        ensures value { result ≡ self.now.clock }
        ensures within { result ≤ CLOCK }
    {
        self.clock
    }

    /// The steps taken.
    pub fn steps(&self) -> u32
        ensures value { result ≡ self.now.steps }
        ensures within { result ≤ STEPS }
    {
        self.steps
    }

    /// Choices, which wait behind those that wait already.
    pub fn choose(&mut self, choices: &[u32]) -> Result<(), AllocError>
        requires { length self.old.choices + length choices.now ≤ CHOICES }
        ensures { OnOk result (self.new ≡
            record self.old { choices = self.old.choices ++ choices.now }) }
    {
        for choice in choices {
            self.choices.push_back(*choice)?;
        }
        Ok(())
    }

    /// `milliseconds` more on the clock.
    pub fn advance(&mut self, milliseconds: u64)
        requires { self.old.clock + milliseconds ≤ CLOCK }
        ensures { self.new ≡ record self.old { clock = self.old.clock + milliseconds } }
    {
        self.clock += milliseconds;
    }

    /// One step more is taken.
    pub fn count_step(&mut self)
        requires { self.old.steps < STEPS }
        ensures { self.new ≡ record self.old { steps = suc self.old.steps } }
    {
        self.steps += 1;
    }

    /// To a place, where nothing else changes.
    pub(crate) fn go(&mut self, place: usize)
        ensures { self.new ≡ moved_to place self.old }
    {
        self.place = place;
    }

    /// An exception is pending where the task stands (RM 11.3).
    pub fn raise(&mut self, exception: Exception, at: Pos)
        ensures { self.new ≡ raised exception at self.old }
    {
        self.pending = Some(Pending { exception, at });
    }

    /// One more variable of the innermost frame, and to the place `again` while fewer than `up_to` are elaborated, and
    /// then to the place `next` (RM 3.3.1).
    pub(crate) fn declare(
        &mut self,
        value: Int32,
        up_to: usize,
        again: usize,
        next: usize,
    ) -> Result<(), AllocError>
        ensures { OnOk result (self.new ≡ declared_to up_to again next
            (on_stored (declared (value ∷ [])) self.old)) }
    {
        self.store.declare(value)?;
        let more = self.store.elaborated() < up_to;
        self.go(if more { again } else { next });
        Ok(())
    }

    /// One more variable of the innermost frame, with so many cells, and to a place (RM 3.6).
    pub(crate) fn declare_all(
        &mut self,
        count: usize,
        value: Int32,
        place: usize,
    ) -> Result<(), AllocError>
        ensures { OnOk result (self.new ≡
            moved_to place (on_stored (declared (replicate count value)) self.old)) }
    {
        self.store.declare_all(count, value)?;
        self.go(place);
        Ok(())
    }

    /// Another value of a variable, and to a place (RM 5.2).
    pub(crate) fn assign(&mut self, target: Target, value: Int32, place: usize)
        ensures { self.new ≡ stored target value (moved_to place self.old) }
    {
        self.assign_at(target, value);
        self.go(place);
    }

    /// Another value of a cell, by its numbers.
    pub fn assign_at(&mut self, target: Target, value: Int32)
        ensures { self.new ≡ stored target value self.old }
    {
        self.store.assign(target.frame(), target.index(), value);
    }

    /// The frame of a block or loop is opened, and the step leads inside.
    pub(crate) fn enter(
        &mut self,
        purpose: Purpose,
        region: usize,
        at: Pos,
        cells: &[Int32],
        elaborated: usize,
        inside: usize,
    ) -> Result<(), AllocError>
        requires { IsInner purpose }
        ensures { OnOk result (self.new ≡
            on_stored (entered (plain_purpose purpose []) region at cells.now elaborated)
            (moved_to inside self.old)) }
    {
        let alloc = *self.output.allocator();
        self.store
            .enter(alloc, purpose, &[], region, at, cells, elaborated)?;
        self.go(inside);
        Ok(())
    }

    /// Another value of the innermost loop's parameter, and to a place.
    pub(crate) fn set_loop(&mut self, value: Int32, place: usize)
        ensures { self.new ≡ on_stored
            (λ s. store.stored (innermost s.stack.opened) 0 value s) (moved_to place self.old) }
    {
        self.store.set_loop(value);
        self.go(place);
    }

    /// The innermost frame is left, and the step leads to a place.
    pub(crate) fn leave(&mut self, place: usize)
        ensures { self.new ≡ record (moved_to place self.old) { stack = closed self.old.stack } }
    {
        self.store.leave();
        self.go(place);
    }

    /// Out of loops, or to the end of a procedure (RM 5.7, 6.5).
    pub(crate) fn exit(&mut self, way: Way)
        ensures { self.new ≡ left_loops way self.old }
    {
        self.store.leave_times(way.loops);
        self.go(way.to);
    }

    /// All frames are given back but the first one and those of these numbers, which are put in order meanwhile. No memory is
    /// taken.
    pub fn forget(&mut self, named: &mut [usize])
        ensures { self.new ≡ record self.old {
          frames = only_named named.old self.old.frames;
        } }
    {
        self.store.forget(named);
    }

    /// Whether so much was entered and declared since the last `forget` that another one is worth its time. Any answer is right.
    pub fn is_due(&self) -> bool {
        self.store.is_due()
    }

    /// The next steps, at most n, for as long as each is done by fused instructions. It tells where they led, how many they were,
    /// and how many instructions they executed.
    pub fn run_fast(&mut self, code: &SoundCode, n: u32) -> FastRun
        requires place { IsPlace code.now.lines self.old.control.place }
        requires budget { self.old.steps + n ≤ STEPS }
        ensures runs { RunsFast code.now n self.old self.new result }
    {
        if self.pending.is_none() && !self.cut && self.place < code.len() {
            return self.run_free(code, n);
        }
        FastRun {
            place: self.place,
            steps: 0,
            ticks: 0,
        }
    }

    // The same, where nothing keeps it from going on.
    fn run_free(&mut self, code: &SoundCode, n: u32) -> FastRun
        requires none { self.old.pending ≡ None }
        requires uncut { self.old.cut ≡ false }
        requires begins { IsStart code.now.lines self.old.control.place }
        requires budget { self.old.steps + n ≤ STEPS }
        ensures runs { RunsFast code.now n self.old self.new result }
    {
        let alloc = *self.output.allocator();
        let run = fast_run(alloc, code, self.place, &mut self.store, n);
        self.place = run.place;
        self.steps += run.steps;
        run
    }

    /// A text at the end of the output, and to a place.
    pub(crate) fn put(&mut self, text: &[u8], place: usize) -> Result<(), AllocError>
        ensures { OnOk result (self.new ≡ written text.now (moved_to place self.old)) }
    {
        self.append(text)?;
        self.go(place);
        Ok(())
    }

    // A text at the end of the output (RM A.10.7); one that does not fit is cut.
    fn append(&mut self, text: &[u8]) -> Result<(), AllocError>
        ensures { OnOk result (self.new ≡ written text.now self.old) }
    {
        let room = OUTPUT as usize - self.output.len();
        if text.len() <= room {
            self.output.extend_from_slice(text)?;
            return Ok(());
        }
        self.output.extend_from_slice(&text[..room])?;
        self.cut = true;
        Ok(())
    }
}
