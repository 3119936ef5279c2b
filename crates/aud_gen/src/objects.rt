// The instructions of calls of procedures and functions, of tasks that are named, of objects that are declared, and of barriers.

ghost use Rattle.std.specs.Prelude.{◌≡◌, ◌∷◌, map, IfOk};
ghost use Rattle.aud_typed.specs.Ties.View.{plain_arguments, plain_callee, plain_calling, plain_form, plain_into, plain_task, plain_task_names, plain_value, plain_values};
ghost use Rattle.aud_code.specs.Instruction.{BeginObject};
ghost use Rattle.aud_code.specs.Tabled.{AllDecided, IsDecided};
ghost use Rattle.aud_code.specs.View.{frames_in, plain_barrier};
ghost use Rattle.aud_layout.specs.Instructions.{called_code, components_code, condition_code, entered_code, into_code, names_code};
ghost use Rattle.aud_gen.specs.Opening.{frames_before};
ghost use Rattle.aud_gen.specs.Writes.{barrier_in, barriers_in, callee_code, component_code, name_code, Instructs};

use crate::operands::operands;
use crate::writer::Writer;
use aud_code::instruction::Instruction;
use aud_code::line::{Barrier, Ending};
use aud_text::place::Pos;
use aud_typed::program::{
    Argument, CallForm, Callee, Calling, Entry, EntryBody, Reference, TaskName, Unit,
    ValueExpression,
};
use std::alloc::{AllocError, Global};

const NOWHERE: Pos = Pos { line: 0, col: 0 };

impl Writer {
    /// A call of a procedure or function: what its value is assigned to, and its arguments.
    pub fn write_calling(&mut self, calling: &Calling)
        ensures { Instructs self.old self.new (entered_code (plain_calling calling.now)) }
    {
        self.write_into(&calling.into);
        self.write_arguments(&calling.arguments)
    }

    // What the value of a function is assigned to.
    fn write_into(&mut self, into: &Option<Reference>)
        ensures { Instructs self.old self.new (into_code (plain_into into.now)) }
    {
        match into {
            Some(r) => self.write_reference(r),
            None => {}
        }
    }

    /// The arguments of a call, and the time that it waits.
    pub fn write_called(&mut self, arguments: &[Argument], form: &CallForm)
        ensures { Instructs self.old self.new
            (called_code (plain_arguments arguments.now) (plain_form form.now)) }
    {
        self.write_arguments(arguments);
        self.write_form(form)
    }

    /// Whose entry is called. An object is found where the step ends.
    pub fn write_callee(&mut self, callee: &Callee)
        ensures { Instructs self.old self.new (callee_code (plain_callee callee.now)) }
    {
        match callee {
            Callee::Task(task) => {
                self.write_task(task);
                self.instruct(Instruction::Name);
                self.instruct(Instruction::Mark)
            }
            Callee::Object(_) => {}
        }
    }

    /// The names of tasks.
    pub fn write_names(&mut self, tasks: &[TaskName])
        ensures { Instructs self.old self.new (names_code (plain_task_names tasks.now)) }
    {
        for task in tasks {
            self.write_name(task);
        }
    }

    /// The name of a task.
    pub fn write_name(&mut self, task: &TaskName)
        ensures { Instructs self.old self.new (name_code (plain_task task.now)) }
    {
        self.write_task(task);
        self.instruct(Instruction::Name)
    }

    /// The initial values of an object's components.
    pub fn write_object(&mut self, components: &[ValueExpression])
        ensures { Instructs self.old self.new
            (BeginObject ∷ components_code (plain_values components.now)) }
    {
        self.instruct(Instruction::BeginObject);
        self.write_components(components)
    }

    fn write_components(&mut self, components: &[ValueExpression])
        ensures { Instructs self.old self.new (components_code (plain_values components.now)) }
    {
        for component in components {
            self.write_component(component);
        }
    }

    fn write_component(&mut self, component: &ValueExpression)
        ensures { Instructs self.old self.new (component_code (plain_value component.now)) }
    {
        self.write_value(component);
        self.instruct(Instruction::Component)
    }

    // The barrier of an entry; a task's has none, and is open.
    fn write_condition(&mut self, body: &Option<EntryBody>)
        ensures { Instructs self.old self.new (condition_code (barrier_in body.now)) }
    {
        match body {
            Some(body) => self.write_boolean(&body.barrier),
            None => self.instruct(Instruction::PushTruth(true)),
        }
    }
}

/// The barriers of all entries.
pub fn write_barriers(
    alloc: Global,
    entries: &[Entry],
    units: &[Unit],
) -> Result<Vec<Barrier>, AllocError>
    ensures plain { IfOk result (λ barriers. map plain_barrier barriers.items
        ≡ map condition_code (barriers_in entries.now)) }
    ensures decided { IfOk result (λ barriers. AllDecided barriers.items) }
    ensures frames { IfOk result (λ barriers.
        frames_in barriers.items ≡ map (frames_before units.now) entries.now) }
{
    let mut barriers = Vec::new(alloc);
    for entry in entries {
        barriers.push(write_barrier(alloc, entry, units)?)?;
    }
    Ok(barriers)
}

// The barrier of an entry, with its table.
fn write_barrier(alloc: Global, entry: &Entry, units: &[Unit]) -> Result<Barrier, AllocError>
    ensures plain { IfOk result (λ barrier.
        plain_barrier barrier ≡ condition_code (barrier_in entry.now.body)) }
    ensures decided { IfOk result (λ barrier. IsDecided barrier) }
    ensures frames { IfOk result (λ barrier. barrier.frames ≡ frames_before units.now entry.now) }
{
    let mut writer = Writer::new(alloc);
    writer.write_condition(&entry.body);
    writer.end_statement(Ending::If(0), 0, NOWHERE, 0, None);
    let lines = writer.finish()?;
    let operands = operands(alloc, &lines)?;
    let frames = frames_before(entry, units);
    Ok(Barrier {
        lines,
        operands,
        frames,
    })
}

// How many frames it sees: those that the entry's body sees besides its own.
fn frames_before(entry: &Entry, units: &[Unit]) -> usize
    ensures { result ≡ frames_before units.now entry.now }
{
    let unit = match &entry.body {
        Some(body) => body.unit,
        None => 0,
    };
    match units.get(unit) {
        Some(unit) => unit.level,
        None => 0,
    }
}
