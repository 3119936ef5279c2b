// The main procedure before its first step.

ghost use Rattle.std.specs.Prelude.{◌≡◌, IfOk};
ghost use Rattle.aud_typed.specs.Tree.{Plan};
ghost use Rattle.aud_meaning.specs.Run.{opening_with};
ghost use Rattle.aud_code.specs.Control.{going};
ghost use Rattle.aud_sequential.specs.Parked.{acting, no_part};
ghost use Rattle.aud_sequential.specs.Shown.{plans_of};
ghost use Rattle.aud_state.specs.Opening.{main_of, opened_main};
ghost use Rattle.aud_state.specs.View.{plain_task};

use crate::condition::Condition;
use crate::state::State;
use crate::task::{Task, Waits};
use aud_calls::calls::Calls;
use aud_code::sound_code::SoundCode;
use aud_meaning::state::Status;
use aud_sequential::progress::Progress;
use aud_sequential::progress::parked::Parked;
use aud_text::name::Name;
use aud_text::place::Pos;
use aud_typed::program::Unit;
use std::alloc::{AllocError, Global};

impl State {
    /// The main procedure of this name before its first step, beside no other task.
    ///
    /// # Errors
    ///
    /// Where memory is refused.
    pub fn new(
        alloc: Global,
        code: &SoundCode,
        units: &[Unit],
        name: &Name,
    ) -> Result<State, AllocError>
        ensures { IfOk result (λ state. (plan : Plan) → plan.units ≡ plans_of units.now →
            state ≡ opening_with plan name.now ((going code.now).begins 0)) }
    {
        let mut progress = Progress::new(alloc);
        let parked = main_part(&mut progress, alloc, code, units)?;
        let main = main_task(alloc, parked, name)?;
        let mut tasks = Vec::new(alloc);
        tasks.push(main)?;
        Ok(State {
            tasks,
            last_mover: 0,
            progress,
            calls: Calls::new(alloc),
            objects: Vec::new(alloc),
        })
    }
}

// What it has by itself, with its frame, the first of all.
fn main_part(
    progress: &mut Progress,
    alloc: Global,
    code: &SoundCode,
    units: &[Unit],
) -> Result<Parked, AllocError>
    ensures { IfOk result (λ main. progress.old ≡ no_part →
        acting main progress.new ≡ opened_main code.now (plans_of units.now)) }
{
    let mut parked = Parked::created(code, units, 0, &[], alloc)?;
    progress.exchange(&mut parked);
    progress.open_main(alloc, units)?;
    progress.exchange(&mut parked);
    Ok(parked)
}

// It runs, and no task has created it.
fn main_task(alloc: Global, parked: Parked, name: &Name) -> Result<Task, AllocError>
    ensures { IfOk result (λ main. plain_task main ≡ main_of name.now parked) }
{
    let name = name.try_clone(alloc)?;
    let waits = Waits::none(alloc);
    let condition = Condition::new(Status::Running, waits);
    Ok(Task {
        name,
        element: None,
        task_type: None,
        unit: 0,
        parked,
        raised: None,
        masters: Vec::new(alloc),
        part: 0,
        activator: None,
        failed: false,
        at: Pos { line: 0, col: 0 },
        condition,
        call: 0,
        again: None,
        restart: None,
        withdraw: None,
    })
}
