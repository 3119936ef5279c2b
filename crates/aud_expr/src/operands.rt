// What the instructions of a step work on: Integers, truth values, targets, arguments, tasks that are named, a text
// that grows, the cells of an object that is declared, and what is waited for.

ghost use Rattle.std.specs.Prelude.{◌≡◌, ◌<◌, ◌≤◌, ◌+◌, [], ◌∷◌, ◌++◌, Some, true, reverse, length, OnOk};
ghost use Rattle.aud_text.specs.Integer.{image};
ghost use Rattle.aud_meaning.specs.Evaluation.{image_of_truth};
ghost use Rattle.aud_typed.specs.Ties.View.{milliseconds_in};
ghost use Rattle.aud_code.specs.Instruction.{Operands as Plain, no_operands};
ghost use Rattle.aud_code.specs.Eval.{newest, is_next, one_cell_more};
ghost use Rattle.aud_code.specs.Sound.{is_some};
ghost use Rattle.aud_expr.specs.Operands.{with_integer, with_truth, with_target, with_name, with_delay, with_waits, with_time, passed_next};
ghost use Rattle.aud_expr.specs.Operands.{own_cells, with_cells};
ghost use Rattle.aud_text.specs.declared.limits.TheConstants.{CLOCK};

use aud_meaning::state::{OpenAccept, OpenDelay};
use aud_store::target::{Back, Target};
use aud_text::int32::Int32;
use aud_typed::program::Duration;
use smallvec::SmallVec;
use std::alloc::{AllocError, Global};
use std::collections::VecDeque;
use std::marker::Model;

/// The operands of a step. Few steps have more than eight Integers or truth values at once.
pub struct Operands {
    integers: SmallVec<i32, 8>,
    booleans: SmallVec<bool, 8>,
    targets: Vec<Target>,
    text: Vec<u8>,
    values: Vec<Int32>,
    backs: Vec<Back>,
    names: Vec<usize>,
    delay: Duration,
    /// Whether an object is declared whose cells have begun, and its cells so far.
    declares: bool,
    cells: Vec<Int32>,
    accepts: Vec<OpenAccept>,
    delays: VecDeque<OpenDelay>,
    terminate: bool,
    timed: Vec<OpenDelay>,
}

// One call wherever they are dropped.
impl Drop for Operands {
    fn drop(self) {
        let Operands {
            integers: _,
            booleans: _,
            targets: _,
            text: _,
            values: _,
            backs: _,
            names: _,
            delay: _,
            declares: _,
            cells: _,
            accepts: _,
            delays: _,
            terminate: _,
            timed: _,
        } = self;
    }
}

/// No time.
const NOW: Duration = Duration {
    seconds: 0,
    thousandths: 0,
};

impl Model for Operands {
    ghost use Rattle.std.specs.Prelude.{reverse};
    ghost use Rattle.aud_code.specs.Instruction.{Operands as Plain};
    ghost use Rattle.aud_expr.specs.Operands.{begun};
    ghost use Rattle.aud_typed.specs.Ties.View.{milliseconds_in};

    ghost Value = { Plain };

    ghost view = { λ o. record {
      integers = reverse o.integers.items;
      booleans = reverse o.booleans.items;
      targets = reverse o.targets.items;
      text = o.text.items;
      values = o.values.items;
      backs = o.backs.items;
      names = o.names.items;
      delay = milliseconds_in o.delay;
      cells = begun o.declares o.cells.items;
      waits = record { accepts = o.accepts.items; delays = o.delays.items; terminate = o.terminate };
      timed = o.timed.items;
    } };
}

impl Operands {
    /// No operands.
    pub fn new(alloc: Global) -> Self
        ensures { result ≡ no_operands }
    {
        Operands {
            integers: SmallVec::new(alloc),
            booleans: SmallVec::new(alloc),
            targets: Vec::new(alloc),
            text: Vec::new(alloc),
            values: Vec::new(alloc),
            backs: Vec::new(alloc),
            names: Vec::new(alloc),
            delay: NOW,
            declares: false,
            cells: Vec::new(alloc),
            accepts: Vec::new(alloc),
            delays: VecDeque::new(alloc),
            terminate: false,
            timed: Vec::new(alloc),
        }
    }

    /// Lets all operands go, before the next step.
    pub fn clear(&mut self)
        ensures { self.new ≡ no_operands }
    {
        self.integers.clear();
        self.booleans.clear();
        self.targets.clear();
        self.text.clear();
        self.values.clear();
        self.backs.clear();
        self.names.clear();
        self.delay = NOW;
        self.declares = false;
        self.cells.clear();
        self.accepts.clear();
        self.delays.clear();
        self.terminate = false;
        self.timed.clear();
    }

    /// One more Integer.
    pub fn push(&mut self, value: Int32) -> Result<(), AllocError>
        ensures { OnOk result (self.new ≡ with_integer value self.old) }
    {
        self.integers.push(value.get())?;
        Ok(())
    }

    /// Takes the newest Integer.
    pub fn pop(&mut self) -> Int32
        requires { 0 < length self.old.integers }
        ensures { self.old ≡ with_integer result self.new }
    {
        match self.integers.pop() {
            Some(value) => Int32::new(value),
            None => unreachable!(),
        }
    }

    /// One more truth value.
    pub fn push_truth(&mut self, value: bool) -> Result<(), AllocError>
        ensures { OnOk result (self.new ≡ with_truth value self.old) }
    {
        self.booleans.push(value)?;
        Ok(())
    }

    /// Takes the newest truth value.
    pub fn pop_truth(&mut self) -> bool
        requires { 0 < length self.old.booleans }
        ensures { self.old ≡ with_truth result self.new }
    {
        match self.booleans.pop() {
            Some(value) => value,
            None => unreachable!(),
        }
    }

    /// Takes the two newest truth values, of which the first is the older one.
    pub fn pop_truths(&mut self) -> (bool, bool)
        requires { 1 < length self.old.booleans }
        ensures { self.old ≡ with_truth result.1 (with_truth result.0 self.new) }
    {
        let newest = self.pop_truth();
        (self.pop_truth(), newest)
    }

    /// One more target.
    pub fn push_target(&mut self, target: Target) -> Result<(), AllocError>
        ensures { OnOk result (self.new ≡ with_target target self.old) }
    {
        self.targets.push(target)?;
        Ok(())
    }

    /// Takes the newest target.
    pub fn pop_target(&mut self) -> Target
        requires { 0 < length self.old.targets }
        ensures { self.old ≡ with_target result self.new }
    {
        match self.targets.pop() {
            Some(target) => target,
            None => unreachable!(),
        }
    }

    /// The newest target, if there is one.
    #[tactic(auto, using(crate::proofs::Newest::newest_last))]
    pub fn newest_target(&self) -> Option<Target>
        ensures { result ≡ newest self.now.targets }
    {
        self.targets.last().copied()
    }

    /// One more argument of a call.
    pub fn pass(&mut self, value: Int32) -> Result<(), AllocError>
        ensures { OnOk result
            (self.new ≡ record self.old { values = self.old.values ++ value ∷ [] }) }
    {
        self.values.push(value)?;
        Ok(())
    }

    /// One more formal that is copied back.
    pub fn pass_back(&mut self, back: Back) -> Result<(), AllocError>
        ensures { OnOk result (self.new ≡ record self.old { backs = self.old.backs ++ back ∷ [] }) }
    {
        self.backs.push(back)?;
        Ok(())
    }

    /// The arguments so far.
    pub fn values(&self) -> &[Int32]
        ensures { result.now ≡ self.now.values }
    {
        &self.values
    }

    /// The formals so far that are copied back.
    pub fn backs(&self) -> &[Back]
        ensures { result.now ≡ self.now.backs }
    {
        &self.backs
    }

    /// One more task that is named, by its number.
    pub fn name(&mut self, task: usize) -> Result<(), AllocError>
        ensures { OnOk result (self.new ≡ with_name task self.old) }
    {
        self.names.push(task)?;
        Ok(())
    }

    /// The tasks that are named so far.
    pub fn names(&self) -> &[usize]
        ensures { result.now ≡ self.now.names }
    {
        &self.names
    }

    /// The first of them.
    pub fn callee(&self) -> Option<usize>
        ensures { result ≡ newest self.now.names }
    {
        match &*self.names {
            [callee, ..] => Some(*callee),
            [] => None,
        }
    }

    /// The time that is waited for.
    pub fn set_delay(&mut self, delay: Duration)
        ensures { self.new ≡ with_delay (milliseconds_in delay) self.old }
    {
        self.delay = delay;
    }

    /// The time that is waited for.
    pub fn delay(&self) -> Duration
        ensures { milliseconds_in result ≡ self.now.delay }
    {
        self.delay
    }

    /// The cells of an object begin that is declared; the first one has its number.
    pub fn begin_object(&mut self, number: Int32) -> Result<(), AllocError>
        ensures { OnOk result (self.new ≡ with_cells (Some (number ∷ [])) self.old) }
    {
        self.cells.clear();
        self.cells.push(number)?;
        self.declares = true;
        Ok(())
    }

    /// One more of them.
    pub fn add_component(&mut self, value: Int32) -> Result<(), AllocError>
        ensures { OnOk result
            (self.new ≡ with_cells (one_cell_more value self.old.cells) self.old) }
    {
        if self.declares {
            self.cells.push(value)?;
        }
        Ok(())
    }

    /// Whether they have begun.
    pub fn declares(&self) -> bool
        ensures { result ≡ is_some self.now.cells }
    {
        self.declares
    }

    /// Those so far.
    pub fn cells(&self) -> &[Int32]
        ensures { result.now ≡ own_cells self.now.cells }
    {
        if self.declares { &self.cells } else { &[] }
    }

    /// One more accept that is open.
    pub fn open_accept(&mut self, accept: OpenAccept) -> Result<(), AllocError>
        ensures { OnOk result (self.new ≡ with_waits (record self.old.waits {
          accepts = self.old.waits.accepts ++ accept ∷ [];
        }) self.old) }
    {
        self.accepts.push(accept)?;
        Ok(())
    }

    /// One more delay that is open, that of the alternative of this number, without a time.
    pub fn open_delay(&mut self, alternative: usize) -> Result<(), AllocError>
        ensures { OnOk result (self.new ≡ with_waits (record self.old.waits {
          delays = self.old.waits.delays
              ++ record { alternative = alternative; time = 0 } ∷ [];
        }) self.old) }
    {
        self.delays.push_back(OpenDelay {
            alternative,
            time: 0,
        })?;
        Ok(())
    }

    /// A terminate alternative is open.
    pub fn open_terminate(&mut self)
        ensures { self.new ≡ with_waits (record self.old.waits { terminate = true }) self.old }
    {
        self.terminate = true;
    }

    /// Takes the next open delay without a time, if it is that of the alternative of this number. Whether it is.
    pub fn take_next(&mut self, alternative: usize) -> bool
        ensures next { result ≡ is_next alternative self.old.waits.delays }
        ensures left { self.new ≡ passed_next alternative self.old }
    {
        let is_next = self.is_next(alternative);
        if is_next {
            let _ = self.delays.pop_front();
        }
        is_next
    }

    // Whether the next open delay without a time is that of the alternative of this number.
    fn is_next(&self, alternative: usize) -> bool
        ensures { result ≡ is_next alternative self.now.waits.delays }
    {
        match self.delays.front() {
            Some(delay) => delay.alternative == alternative,
            None => false,
        }
    }

    /// The open delay of the alternative of this number ends when the time has passed that is waited for.
    pub fn set_time(&mut self, alternative: usize, clock: u64) -> Result<(), AllocError>
        requires { clock ≤ CLOCK }
        ensures { OnOk result (self.new ≡ with_time alternative clock self.old) }
    {
        let time = time_behind(clock, self.delay);
        self.timed.push(OpenDelay { alternative, time })?;
        self.delay = NOW;
        Ok(())
    }

    /// The accepts that are open.
    pub fn accepts(&self) -> &[OpenAccept]
        ensures { result.now ≡ self.now.waits.accepts }
    {
        &self.accepts
    }

    /// The open delays that have their times.
    pub fn timed(&self) -> &[OpenDelay]
        ensures { result.now ≡ self.now.timed }
    {
        &self.timed
    }

    /// Whether a terminate alternative is open.
    pub fn is_terminating(&self) -> bool
        ensures { result ≡ self.now.waits.terminate }
    {
        self.terminate
    }

    /// Puts bytes at the end of the text.
    pub fn append(&mut self, bytes: &[u8]) -> Result<(), AllocError>
        ensures { OnOk result (self.new ≡ record self.old { text = self.old.text ++ bytes.now }) }
    {
        self.text.extend_from_slice(bytes)?;
        Ok(())
    }

    /// Puts the image of a value at the end of the text (RM 3.5(35 to 39)).
    pub fn append_image(&mut self, value: Int32) -> Result<(), AllocError>
        ensures { OnOk result (self.new ≡ record self.old { text = self.old.text ++ image value }) }
    {
        value.push_image(&mut self.text)
    }

    /// Puts the image of a truth value at the end of the text (RM 3.5(30)).
    pub fn append_truth(&mut self, value: bool) -> Result<(), AllocError>
        ensures { OnOk result
            (self.new ≡ record self.old { text = self.old.text ++ image_of_truth value }) }
    {
        if value {
            self.append(b"TRUE")
        } else {
            self.append(b"FALSE")
        }
    }

    /// The text so far.
    pub fn text(&self) -> &[u8]
        ensures { result.now ≡ self.now.text }
    {
        &self.text
    }
}

// When a time ends that begins at another one.
fn time_behind(clock: u64, delay: Duration) -> u64
    requires { clock ≤ CLOCK }
    ensures { result ≡ clock + milliseconds_in delay }
{
    clock + delay.milliseconds()
}
