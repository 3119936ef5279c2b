// What a task does by itself: its part is worked on between two exchanges.

ghost use Rattle.std.specs.Prelude.{◌≡◌, ◌∷◌, [], pos, OnOk, ℕ, Bool, Result, slice_get, Some};
ghost use Rattle.aud_text.specs.declared.raise.Raise.{Raise as RaiseOf};
ghost use Rattle.aud_typed.specs.Tree.{Plan};
ghost use Rattle.aud_meaning.specs.Configuration.{for_body, Shared, TaskAt};
ghost use Rattle.aud_meaning.specs.Control.{Scene};
ghost use Rattle.aud_meaning.specs.Effects.{declares, opens};
ghost use Rattle.aud_meaning.specs.Evaluation.{Sight};
ghost use Rattle.aud_meaning.specs.Parts.{acting, alone};
ghost use Rattle.aud_meaning.specs.Ties.Part.{rest_of, shared_by};
ghost use Rattle.aud_meaning.specs.Why.Alone.{acts};
ghost use Rattle.aud_code.specs.Control.{going};
ghost use Rattle.aud_code.specs.Flat.{asked_last, end_at};
ghost use Rattle.aud_code.specs.Instruction.{Reached};
ghost use Rattle.aud_code.specs.Places.{loops_of, Spot};
ghost use Rattle.aud_code.specs.Sound.{counts_of, LastFine};
ghost use Rattle.aud_code.specs.View.{exit_of, plain_end, plain_last};
ghost use Rattle.aud_sequential.specs.Parked as part;
ghost use Rattle.aud_sequential.specs.Parked.{numbers_from};
ghost use Rattle.aud_sequential.specs.Shown.{plans_of, unit_in};
ghost use Rattle.aud_sequential.specs.Steps.{DoesAsked, IsOfOne};
ghost use Rattle.aud_state.specs.View.{plain_task};

use crate::state::State;
use crate::task::Task;
use aud_code::line::EndLine;
use aud_code::sound_code::SoundCode;
use aud_expr::operands::Operands;
use aud_sequential::progress::Progress;
use aud_typed::program::Unit;
use std::alloc::{AllocError, Global};

impl Task {
    /// What the ending of a step does that concerns the task alone.
    pub(crate) fn step_alone(
        &mut self,
        progress: &mut Progress,
        end: &EndLine,
        code: &SoundCode,
        units: &[Unit],
        operands: &mut Operands,
    ) -> Result<(), AllocError>
        requires there { plain_end end.now ≡ end_at code.now self.old.parked.control.place }
        requires alone { IsOfOne end.now.last }
        requires fine { LastFine (plain_last end.now.last) (counts_of operands.old) }
        ensures does { OnOk result ((s : Scene) → DoesAsked (plans_of units.now) code.now
            (part.acting self.old.parked progress.old) (part.acting self.new.parked progress.new)
            (asked_last (plain_last end.now.last) (loops_of (exit_of end.now.last)) end.now.at s
            (Reached operands.old))) }
        ensures kept { OnOk result (rest_of progress.new ≡ rest_of progress.old) }
        ensures same { OnOk result (self.new ≡ record self.old { parked = self.new.parked }) }
    {
        progress.exchange(&mut self.parked);
        progress.step_alone(end, code, units, operands)?;
        progress.exchange(&mut self.parked);
        Ok(())
    }

    // The frame of its body is opened, whose first cell is its own number.
    fn open_body(
        &mut self,
        progress: &mut Progress,
        alloc: Global,
        units: &[Unit],
        unit: usize,
        number: usize,
    ) -> Result<(), AllocError>
        ensures does { OnOk result ((shared : Shared) →
            acting (plain_task self.new) (shared_by shared progress.new) ≡
            (let t = acting (plain_task self.old) (shared_by shared progress.old) in
            opens for_body (unit_in (plans_of units.now) unit).region
            (unit_in (plans_of units.now) unit).at t.own.display (pos number ∷ []) 1 t)) }
        ensures kept { OnOk result (rest_of progress.new ≡ rest_of progress.old) }
    {
        progress.exchange(&mut self.parked);
        progress.begin_body(alloc, units, unit, number)?;
        progress.exchange(&mut self.parked);
        Ok(())
    }

    // So many tasks are the next variable of its innermost frame.
    fn declare_tasks(
        &mut self,
        progress: &mut Progress,
        alloc: Global,
        first: usize,
        count: usize,
    ) -> Result<(), AllocError>
        ensures does { OnOk result ((shared : Shared) →
            acting (plain_task self.new) (shared_by shared progress.new) ≡
            declares (numbers_from first count)
            (acting (plain_task self.old) (shared_by shared progress.old))) }
        ensures kept { OnOk result (rest_of progress.new ≡ rest_of progress.old) }
    {
        progress.exchange(&mut self.parked);
        progress.declare_tasks(alloc, first, count)?;
        progress.exchange(&mut self.parked);
        Ok(())
    }
}

impl State {
    /// What the ending of a task's step does that concerns it alone, with the operands that are evaluated before it.
    ///
    /// # Errors
    ///
    /// Where memory is refused. Nothing is said of the state then.
    pub fn step_alone(
        &mut self,
        n: usize,
        end: &EndLine,
        code: &SoundCode,
        units: &[Unit],
        operands: &mut Operands,
    ) -> Result<(), AllocError>
        requires there { (t : TaskAt Spot) → slice_get self.old.tasks n ≡ Some t →
            plain_end end.now ≡ end_at code.now t.control.place }
        requires alone { IsOfOne end.now.last }
        requires fine { LastFine (plain_last end.now.last) (counts_of operands.old) }
        ensures { OnOk result ((s : Scene) → (plan : Plan) → plan.units ≡ plans_of units.now →
            (barrier : ℕ → Sight → Result Bool RaiseOf) →
            self.new ≡ alone (acts (going code.now) plan barrier (asked_last
            (plain_last end.now.last) (loops_of (exit_of end.now.last)) end.now.at s
            (Reached operands.old))) n self.old) }
    {
        if n < self.tasks.len() {
            self.tasks[n].step_alone(&mut self.progress, end, code, units, operands)?;
        }
        Ok(())
    }

    /// The frame of a task's body is opened, whose first cell is the task's own number.
    ///
    /// # Errors
    ///
    /// Where memory is refused. Nothing is said of the state then.
    pub fn open_body(
        &mut self,
        alloc: Global,
        units: &[Unit],
        n: usize,
        unit: usize,
    ) -> Result<(), AllocError>
        ensures { OnOk result (self.new ≡ alone (λ t.
            opens for_body (unit_in (plans_of units.now) unit).region
            (unit_in (plans_of units.now) unit).at t.own.display (pos n ∷ []) 1 t) n self.old) }
    {
        if n < self.tasks.len() {
            self.tasks[n].open_body(&mut self.progress, alloc, units, unit, n)?;
        }
        Ok(())
    }

    /// So many tasks are the next variable of a task's innermost frame, by their numbers from the first one on.
    ///
    /// # Errors
    ///
    /// Where memory is refused. Nothing is said of the state then.
    pub fn declare_tasks(
        &mut self,
        alloc: Global,
        n: usize,
        first: usize,
        count: usize,
    ) -> Result<(), AllocError>
        ensures { OnOk result (self.new ≡
            alone (declares (numbers_from first count)) n self.old) }
    {
        if n < self.tasks.len() {
            self.tasks[n].declare_tasks(&mut self.progress, alloc, first, count)?;
        }
        Ok(())
    }
}
