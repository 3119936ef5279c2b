// Tasks that are created (RM 9.1, 9.2).

ghost use Rattle.std.specs.Prelude.{◌≡◌, ◌<◌, ◌≤◌, ◌++◌, ℕ, Bool, Result, IfOk, OnOk, map};
ghost use Rattle.aud_text.specs.declared.limits.TheConstants.{ELEMENTS};
ghost use Rattle.aud_text.specs.declared.raise.Raise.{Raise as RaiseOf};
ghost use Rattle.aud_typed.specs.Tree.{Plan};
ghost use Rattle.aud_typed.specs.Ties.View.{plain_tasks};
ghost use Rattle.aud_meaning.specs.Evaluation.{Sight};
ghost use Rattle.aud_meaning.specs.Parts.{own_of, task_name, task_plan};
ghost use Rattle.aud_meaning.specs.Tasks as effect;
ghost use Rattle.aud_code.specs.Control.{going};
ghost use Rattle.aud_sequential.specs.Shown.{plans_of};
ghost use Rattle.aud_state.specs.View.{element_name, plain_task};

use crate::condition::Condition;
use crate::state::State;
use crate::task::{Task, Waits};
use aud_code::sound_code::SoundCode;
use aud_meaning::state::Status;
use aud_sequential::progress::parked::Parked;
use aud_text::place::Pos;
use aud_typed::program::{Tasks, Unit};
use std::alloc::{AllocError, Global};

impl State {
    /// The tasks of a declaration, whose body is a unit, are created by a task.
    ///
    /// # Errors
    ///
    /// Where memory is refused, or there is no task of the creator's number. Nothing is said of the state then.
    pub fn create(
        &mut self,
        alloc: Global,
        code: &SoundCode,
        units: &[Unit],
        unit: usize,
        creator: usize,
        tasks: &Tasks,
    ) -> Result<(), AllocError>
        requires { tasks.now.length ≤ ELEMENTS }
        ensures { OnOk result ((plan : Plan) → plan.units ≡ plans_of units.now →
            (task_plan plan tasks.now.task_type).unit ≡ unit →
            (barrier : ℕ → Sight → Result Bool RaiseOf) → self.new ≡ record self.old {
              tasks = self.old.tasks ++ effect.all_created (going code.now) plan barrier
                  (own_of creator self.old) (plain_tasks tasks.now) 0 tasks.now.length;
            }) }
    {
        if creator >= self.tasks.len() {
            return Err(AllocError);
        }
        let found = &self.tasks[creator];
        let mut created = all_created(alloc, code, units, unit, found, tasks)?;
        self.tasks.append(&mut created)?;
        Ok(())
    }
}

// The tasks of a declaration before their activation.
fn all_created(
    alloc: Global,
    code: &SoundCode,
    units: &[Unit],
    unit: usize,
    creator: &Task,
    tasks: &Tasks,
) -> Result<Vec<Task>, AllocError>
    requires { tasks.now.length ≤ ELEMENTS }
    ensures { IfOk result (λ created. (plan : Plan) → plan.units ≡ plans_of units.now →
        (task_plan plan tasks.now.task_type).unit ≡ unit →
        (barrier : ℕ → Sight → Result Bool RaiseOf) →
        map plain_task created.items ≡ effect.all_created (going code.now) plan barrier
        (plain_task creator.now).own (plain_tasks tasks.now) 0 tasks.now.length) }
{
    let mut all = Vec::new(alloc);
    for index in 0..tasks.length {
        let task = created(alloc, code, units, unit, creator, tasks, index)?;
        all.push(task)?;
    }
    Ok(all)
}

// One of them.
fn created(
    alloc: Global,
    code: &SoundCode,
    units: &[Unit],
    unit: usize,
    creator: &Task,
    tasks: &Tasks,
    index: usize,
) -> Result<Task, AllocError>
    requires { index < ELEMENTS }
    ensures { IfOk result (λ task. (plan : Plan) → plan.units ≡ plans_of units.now →
        (task_plan plan tasks.now.task_type).unit ≡ unit →
        (barrier : ℕ → Sight → Result Bool RaiseOf) →
        plain_task task ≡ effect.created (going code.now) plan barrier
        (plain_task creator.now).own (plain_tasks tasks.now) index) }
{
    let stack = creator.parked.stack();
    let part = stack.innermost_number();
    let mut masters = stack.masters(alloc)?;
    masters.extend_from_slice(&creator.masters)?;
    let parked = Parked::created(code, units, unit, stack.display(), alloc)?;
    let name = tasks.name.try_clone(alloc)?;
    let element = element_of(tasks, index);
    let waits = Waits::none(alloc);
    let condition = Condition::new(Status::Created, waits);
    Ok(Task {
        name,
        element,
        task_type: Some(tasks.task_type),
        unit,
        parked,
        raised: None,
        masters,
        part,
        activator: None,
        failed: false,
        at: Pos { line: 0, col: 0 },
        condition,
        call: 0,
        again: None,
        restart: None,
        withdraw: None,
    })
}

// The number of one of them, where they are the elements of an array.
fn element_of(tasks: &Tasks, index: usize) -> Option<i64>
    requires { index < ELEMENTS }
    ensures { element_name tasks.now.name result ≡ task_name (plain_tasks tasks.now) index }
{
    tasks
        .is_array
        .then_some(i64::from(tasks.low) + index as i64)
}
