// What the user reads and supplies between steps.

ghost use Rattle.std.specs.Prelude.{◌≡◌, ◌≤◌, ◌+◌, ◌∷◌, [], length, map, IfSome, IfNone, OnOk};
ghost use Rattle.aud_meaning.specs.Run.{advanced, main_raised, supplied};
ghost use Rattle.aud_state.specs.View.{plain_task};

use crate::state::State;
use crate::task::Task;
use aud_text::limits::{CHOICES, CLOCK, OUTPUT, STEPS};
use aud_typed::program::Exception;
use std::alloc::AllocError;

impl State {
    /// The output so far (RM A.10.7).
    pub fn output(&self) -> &[u8]
        ensures value { result.now ≡ self.now.shared.output }
        ensures within { length result.now ≤ OUTPUT }
    {
        self.progress.output()
    }

    /// Whether a text was cut at the output's limit.
    pub fn is_cut(&self) -> bool
        ensures { result ≡ self.now.shared.cut }
    {
        self.progress.is_cut()
    }

    /// How many choices wait.
    pub fn choices(&self) -> usize
        ensures value { result ≡ length self.now.choices }
        ensures within { result ≤ CHOICES }
    {
        self.progress.choices()
    }

    /// The time on the clock, in milliseconds.
    pub fn clock(&self) -> u64
        ensures value { result ≡ self.now.clock }
        ensures within { result ≤ CLOCK }
    {
        self.progress.clock()
    }

    /// The steps taken.
    pub fn steps(&self) -> u32
        ensures value { result ≡ self.now.steps }
        ensures within { result ≤ STEPS }
    {
        self.progress.steps()
    }

    /// The exception that completed the main procedure.
    pub fn raised(&self) -> Option<Exception>
        ensures { result ≡ main_raised self.now.tasks }
    {
        raised_in(&self.tasks)
    }

    /// Choices, which wait behind those that wait already.
    ///
    /// # Errors
    ///
    /// Where memory is refused. Nothing is said of the state then.
    pub fn choose(&mut self, choices: &[u32]) -> Result<(), AllocError>
        requires { length self.old.choices + length choices.now ≤ CHOICES }
        ensures { OnOk result (self.new ≡ supplied choices.now self.old) }
    {
        self.progress.choose(choices)?;
        Ok(())
    }

    /// `milliseconds` more on the clock.
    pub fn advance(&mut self, milliseconds: u64)
        requires { self.old.clock + milliseconds ≤ CLOCK }
        ensures { self.new ≡ advanced milliseconds self.old }
    {
        self.progress.advance(milliseconds);
    }

    /// The next choice, which is used up; none where none waits.
    pub fn use_choice(&mut self) -> Option<u32>
        ensures used { IfSome result (λ choice.
            self.old.choices ≡ choice ∷ self.new.choices) }
        ensures none { IfNone result (self.old.choices ≡ []) }
        ensures still { IfNone result (self.new ≡ self.old) }
        ensures kept { self.new ≡ record self.old { choices = self.new.choices } }
    {
        self.progress.use_choice()
    }
}

// The exception that completed the first of these tasks.
fn raised_in(tasks: &[Task]) -> Option<Exception>
    ensures { result ≡ main_raised (map plain_task tasks.now) }
{
    match tasks.first() {
        Some(main) => main.raised,
        None => None,
    }
}
