// Calls that end.

ghost use Rattle.std.specs.Prelude.{◌≡◌, ℕ, Result, Bool, OnOk};
ghost use Rattle.aud_text.specs.declared.raise.Raise.{Raise as RaiseOf};
ghost use Rattle.aud_typed.specs.Tree.{Plan};
ghost use Rattle.aud_meaning.specs.declared.state.CallState.TheVariants.{Done};
ghost use Rattle.aud_meaning.specs.Effects.{copied_back};
ghost use Rattle.aud_meaning.specs.Evaluation.{Sight};
ghost use Rattle.aud_meaning.specs.Parts.{call_of, on_call, succeeds, with_frames};
ghost use Rattle.aud_meaning.specs.Tasks as effect;
ghost use Rattle.aud_code.specs.Control.{going};

use crate::copies::copy_back;
use crate::state::State;
use aud_code::sound_code::SoundCode;
use aud_text::int32::Int32;
use aud_text::place::Pos;
use aud_text::raise::Raise;
use aud_typed::program::Exception;
use std::alloc::{AllocError, Global};

impl State {
    // A call is over.
    fn finish_call(&mut self, id: usize)
        ensures { self.new ≡ on_call id (λ a. record a { state = Done }) self.old }
    {
        self.calls.finish(id);
    }

    /// Whose a call is.
    pub fn caller(&self, id: usize) -> usize
        ensures { result ≡ (call_of id self.now).caller }
    {
        self.calls.caller(id)
    }

    /// Where it stands.
    pub fn call_at(&self, id: usize) -> Pos
        ensures { result ≡ (call_of id self.now).at }
    {
        self.calls.at(id)
    }

    // Formals with these values are copied back at the end of a call, as far as checks hold.
    fn give_back(&mut self, values: &[Int32], id: usize) -> Option<Raise>
        ensures raised { result ≡ (copied_back values.now (call_of id self.old).backs
            self.old.shared.frames).raised }
        ensures given { self.new ≡ with_frames (copied_back values.now (call_of id self.old).backs
            self.old.shared.frames).frames self.old }
    {
        copy_back(&mut self.progress, values, self.calls.backs(id))
    }

    /// A call ends normally, with these values of its formals (RM 9.5.3(16), 6.4.1(17)).
    pub fn succeed(&mut self, code: &SoundCode, values: &[Int32], id: usize)
        ensures { (plan : Plan) → (barrier : ℕ → Sight → Result Bool RaiseOf) →
            self.new ≡ effect.end_call (going code.now) plan barrier (succeeds values.now) id
            self.old }
    {
        match self.give_back(values, id) {
            None => self.caller_goes_on(code, id),
            Some(raise) => self.caller_fails(code, id, Exception::Predefined(raise)),
        }
    }

    /// The caller of a call that is over goes on behind it.
    pub fn caller_goes_on(&mut self, code: &SoundCode, id: usize)
        ensures { (plan : Plan) → (barrier : ℕ → Sight → Result Bool RaiseOf) →
            self.new ≡ effect.caller_goes_on (going code.now) plan barrier id
            (call_of id self.old) self.old }
    {
        let caller = self.caller(id);
        self.finish_call(id);
        self.resume(code, caller, 0);
    }

    /// Or it has the exception pending at it.
    pub fn caller_fails(&mut self, code: &SoundCode, id: usize, exception: Exception)
        ensures { (plan : Plan) → (barrier : ℕ → Sight → Result Bool RaiseOf) →
            self.new ≡ effect.caller_fails (going code.now) plan barrier id
            (call_of id self.old) exception self.old }
    {
        let _ = code;
        let caller = self.caller(id);
        let at = self.call_at(id);
        self.finish_call(id);
        self.fail(caller, exception, at);
    }

    /// An exception in all these calls.
    pub fn refuse(&mut self, code: &SoundCode, raise: Raise, calls: &[usize])
        ensures { (plan : Plan) → (barrier : ℕ → Sight → Result Bool RaiseOf) →
            self.new ≡ effect.refuse (going code.now) plan barrier raise calls.now self.old }
    {
        for id in calls {
            self.caller_fails(code, *id, Exception::Predefined(raise));
        }
    }

    /// Tasking_Error in the calls that are queued on a task's entries (RM 9.5.3(21)).
    ///
    /// # Errors
    ///
    /// Where memory is refused. Nothing is said of the state then.
    pub fn refuse_queues(
        &mut self,
        alloc: Global,
        code: &SoundCode,
        task: usize,
    ) -> Result<(), AllocError>
        ensures { OnOk result ((plan : Plan) → (barrier : ℕ → Sight → Result Bool RaiseOf) →
            self.new ≡ effect.refuse_queues (going code.now) plan barrier task self.old) }
    {
        let calls = self.calls.queued_on_task(alloc, task)?;
        self.refuse(code, Raise::Tasking, &calls);
        Ok(())
    }
}
