// The expressions of a task's next step.

ghost use Rattle.std.specs.Prelude.{◌≡◌, ◌<◌, ◌≤◌, [], true, length, slice_get, slice_index_or, IfOk, Ok, Some};
ghost use Rattle.aud_typed.specs.Tree.{Plan};
ghost use Rattle.aud_meaning.specs.Configuration.{TaskAt};
ghost use Rattle.aud_meaning.specs.Evaluation.{number_in};
ghost use Rattle.aud_meaning.specs.Parts.{own_of, sight_of};
ghost use Rattle.aud_meaning.specs.Tasks as effect;
ghost use Rattle.aud_code.specs.Flat.{barrier_at, no_scene};
ghost use Rattle.aud_code.specs.Places.{Spot};
ghost use Rattle.aud_code.specs.Sound.{IsStart};
ghost use Rattle.aud_expr.specs.Flow.{ended, evaluated_at, evaluated_by, ReachesEnd, FitsEnd, IsMarked};
ghost use Rattle.aud_expr.specs.Size.{instructions_in};
ghost use Rattle.aud_expr.specs.Ticks.{ticks_at};
ghost use Rattle.aud_state.specs.Fast.{scene};

use crate::seen::Seen;
use crate::state::State;
use aud_code::sound_code::SoundCode;
use aud_expr::evaluate::{Decision, Evaluation, decide, evaluate, evaluate_to_mark};
use aud_expr::facts;
use aud_expr::operands::Operands;
use aud_expr::variables::value_of;
use aud_typed::program::Variable;
use std::alloc::AllocError;

impl State {
    /// Evaluates the expressions of a task's next step, up to its ending, or to an exception.
    ///
    /// # Errors
    ///
    /// Where memory is refused.
    pub fn evaluate(
        &self,
        code: &SoundCode,
        n: usize,
        operands: &mut Operands,
    ) -> Result<Evaluation, AllocError>
        requires begins { (t : TaskAt Spot) → slice_get self.now.tasks n ≡ Some t →
            IsStart code.now.lines t.control.place }
        requires within { n < length self.now.tasks }
        ensures ends { IfOk result (λ e. (t : TaskAt Spot) → slice_get self.now.tasks n ≡ Some t →
            ended e.outcome operands.new ≡
            evaluated_at code.now t.control.place (scene n self.now)) }
        ensures reaches { IfOk result (λ e. (t : TaskAt Spot) →
            slice_get self.now.tasks n ≡ Some t →
            ReachesEnd e.outcome code.now t.control.place) }
        ensures fits { IfOk result (λ e. (t : TaskAt Spot) → slice_get self.now.tasks n ≡ Some t →
            FitsEnd e.outcome code.now t.control.place operands.new) }
        ensures ticks { IfOk result (λ e. (t : TaskAt Spot) → slice_get self.now.tasks n ≡ Some t →
            e.ticks ≡ ticks_at code.now t.control.place (scene n self.now)) }
        ensures few { IfOk result (λ e. e.ticks ≤ instructions_in code.now.lines) }
    {
        let found = &self.tasks[n];
        let place = found.parked.standing().place;
        let display = found.parked.stack().display();
        let frames = self.progress.store().frames();
        let seen = Seen {
            tasks: &self.tasks,
            calls: &self.calls,
        };
        evaluate(
            code,
            place,
            &seen,
            self.clock(),
            self.objects(),
            display,
            frames,
            operands,
        )
    }

    /// Evaluates what decides on a task's next step, up to its mark: whether that is reached.
    ///
    /// # Errors
    ///
    /// Where memory is refused.
    pub fn evaluate_to_mark(
        &self,
        code: &SoundCode,
        n: usize,
        operands: &mut Operands,
    ) -> Result<bool, AllocError>
        requires begins { (t : TaskAt Spot) → slice_get self.now.tasks n ≡ Some t →
            IsStart code.now.lines t.control.place }
        requires within { n < length self.now.tasks }
        ensures { IfOk result (λ is_marked. (t : TaskAt Spot) →
            slice_get self.now.tasks n ≡ Some t → IsMarked is_marked operands.new
            (evaluated_by true code.now t.control.place (no_scene (sight_of n self.now)))) }
    {
        let found = &self.tasks[n];
        let place = found.parked.standing().place;
        let display = found.parked.stack().display();
        let frames = self.progress.store().frames();
        let seen = Seen {
            tasks: &self.tasks,
            calls: &self.calls,
        };
        evaluate_to_mark(code, place, &seen, display, frames, operands)
    }

    /// Evaluates the barrier of an object's entry (RM 9.5.2(7)). One of no entry of this number holds.
    ///
    /// # Errors
    ///
    /// Where memory is refused.
    pub fn decide(
        &self,
        code: &SoundCode,
        object: usize,
        entry: usize,
        operands: &mut Operands,
    ) -> Result<Decision, AllocError>
        ensures met { IfOk result (λ decision. (plan : Plan) → decision.met ≡
            effect.barrier_of plan (barrier_at code.now) object entry self.now) }
        ensures few { IfOk result (λ decision.
            decision.ticks ≤ length (slice_index_or code.now.barriers entry [])) }
    {
        let lines = match code.barrier(entry) {
            Some(lines) => lines,
            None => return Ok(holding()),
        };
        let display = self.object_display(object);
        let frames = self.progress.store().frames();
        let seen = Seen {
            tasks: &self.tasks,
            calls: &self.calls,
        };
        decide(lines, &seen, display, frames, operands)
    }

    /// The number that a variable holds, as a task sees it.
    pub fn number_of(&self, n: usize, variable: Variable) -> usize
        ensures { result ≡ number_in variable (sight_of n self.now) }
    {
        let frames = self.progress.store().frames();
        facts::number_in(value_of(variable, self.display(n), frames))
    }

    // The frames that a task sees.
    #[tactic(auto, using(crate::proofs::TaskLaws::Changed::own_got, crate::proofs::TaskLaws::Changed::own_past))]
    fn display(&self, n: usize) -> &[usize]
        ensures { result.now ≡ (own_of n self.now).display }
    {
        if n < self.tasks.len() {
            let found = &self.tasks[n];
            return found.parked.stack().display();
        }
        &[]
    }
}

// What one is that holds without an evaluation.
fn holding() -> Decision
    ensures met { result.met ≡ Ok true }
    ensures none { result.ticks ≡ 0 }
{
    Decision {
        met: Ok(true),
        ticks: 0,
    }
}
