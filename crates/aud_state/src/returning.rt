// What the ends of procedures go by, and give back (RM 6.4.1(17)).

ghost use Rattle.std.specs.Prelude.{◌≡◌, [], ℕ, Bool, Result, IfOk, OnOk, slice_index_or};
ghost use Rattle.aud_text.specs.declared.raise.Raise.{Raise as RaiseOf};
ghost use Rattle.aud_typed.specs.Tree.{Plan};
ghost use Rattle.aud_meaning.specs.Effects.{copied_back, out_of_loops};
ghost use Rattle.aud_meaning.specs.Evaluation.{Sight};
ghost use Rattle.aud_meaning.specs.Parts.{own_of, with_frames};
ghost use Rattle.aud_meaning.specs.Tasks as effect;
ghost use Rattle.aud_code.specs.Control.{going};
ghost use Rattle.aud_store.specs.Ties.Stored.{innermost_backs, returning_by, IsInnermost};
ghost use Rattle.aud_state.specs.Returning.{given_all, valued};

use crate::copies::{copy_back, give_value};
use crate::state::State;
use aud_code::sound_code::SoundCode;
use aud_store::cells::Cells;
use aud_store::purpose::Returns;
use aud_store::stack::Open;
use aud_store::target::{Back, Backs, Target};
use aud_text::int32::Int32;
use aud_text::place::Pos;
use aud_text::raise::Raise;
use aud_typed::program::Exception;
use std::alloc::{AllocError, Global};

impl State {
    /// The innermost open frame of a task but for those of loops: that of the construct which is left next.
    pub fn construct(&self, n: usize) -> Option<Open>
        ensures { IsInnermost result (out_of_loops (own_of n self.now)).opened }
    {
        if n < self.tasks.len() {
            let found = &self.tasks[n];
            return found.parked.stack().construct();
        }
        None
    }

    /// The formals that are copied back at the end of a task's innermost frame, in the order of the text.
    ///
    /// # Errors
    ///
    /// Where memory is refused.
    pub fn backs(&self, alloc: Global, n: usize) -> Result<Backs, AllocError>
        ensures { IfOk result (λ bs. bs.items ≡ innermost_backs (own_of n self.now).opened) }
    {
        if n < self.tasks.len() {
            let found = &self.tasks[n];
            let backs = Backs::from_slice(alloc, found.parked.stack().backs())?;
            return Ok(backs);
        }
        Ok(Backs::new(alloc))
    }

    /// What the variables of a frame hold; of one that was never made there are none.
    ///
    /// # Errors
    ///
    /// Where memory is refused.
    pub fn cells(&self, alloc: Global, frame: usize) -> Result<Cells, AllocError>
        ensures { IfOk result (λ cs. cs.items ≡
            slice_index_or self.now.shared.frames frame []) }
    {
        let frames = self.progress.store().frames();
        if frame < frames.len() {
            let cells = Cells::from_slice(alloc, frames.frame(frame))?;
            return Ok(cells);
        }
        Ok(Cells::new(alloc))
    }

    /// A procedure or function whose frame is left ends normally: its formals are copied back and a function's value is
    /// assigned, as far as checks hold, and the task goes on behind the call. It has Program_Error pending where a
    /// function has no value, or the exception of the first check that fails (RM 6.4.1(17), 6.5).
    ///
    /// # Errors
    ///
    /// Where memory is refused. Nothing is said of the state then.
    pub fn return_from(
        &mut self,
        alloc: Global,
        code: &SoundCode,
        returns: Returns,
        backs: &[Back],
        frame: usize,
        at: Pos,
        n: usize,
    ) -> Result<(), AllocError>
        ensures { OnOk result ((plan : Plan) → (barrier : ℕ → Sight → Result Bool RaiseOf) →
            self.new ≡ effect.returned (going code.now) plan barrier
            (returning_by returns backs.now) frame at n self.old) }
    {
        if returns.is_function && returns.value.is_none() {
            self.raise(n, Exception::Predefined(Raise::Program), at);
            return Ok(());
        }
        if backs.is_empty() && returns.value.is_none() {
            self.take(code, n, 0);
            return Ok(());
        }
        let values = self.cells(alloc, frame)?;
        match self.give_all(values.as_slice(), backs, returns) {
            None => {
                self.take(code, n, 0);
                Ok(())
            }
            Some(raise) => {
                self.raise(n, Exception::Predefined(raise), at);
                Ok(())
            }
        }
    }

    // Formals with these values are copied back, and behind them a function's value is assigned, as far as checks hold.
    fn give_all(&mut self, values: &[Int32], backs: &[Back], returns: Returns) -> Option<Raise>
        ensures raised { result ≡
            (given_all values.now backs.now returns self.old.shared.frames).raised }
        ensures given { self.new ≡ with_frames
            (given_all values.now backs.now returns self.old.shared.frames).frames self.old }
    {
        match self.copy_back(values, backs) {
            None => self.give_value(returns.into, returns.value),
            Some(raise) => Some(raise),
        }
    }

    // A function's value is assigned to its target, if it has both and the check holds.
    fn give_value(&mut self, into: Option<Target>, value: Option<Int32>) -> Option<Raise>
        ensures raised { result ≡ (valued into value self.old.shared.frames).raised }
        ensures given { self.new ≡
            with_frames (valued into value self.old.shared.frames).frames self.old }
    {
        give_value(&mut self.progress, into, value)
    }

    // Formals with these values are copied back, as far as checks hold.
    fn copy_back(&mut self, values: &[Int32], backs: &[Back]) -> Option<Raise>
        ensures raised { result ≡
            (copied_back values.now backs.now self.old.shared.frames).raised }
        ensures given { self.new ≡ with_frames
            (copied_back values.now backs.now self.old.shared.frames).frames self.old }
    {
        copy_back(&mut self.progress, values, backs)
    }
}
