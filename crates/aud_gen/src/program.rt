// The code of a program.

ghost use Rattle.std.specs.Prelude.{◌≡◌, length, map, IfOk};
ghost use Rattle.aud_typed.specs.Ties.View.{body_in, plain_program};
ghost use Rattle.aud_code.specs.Tabled.{counts, table_of, AllDecided};
ghost use Rattle.aud_code.specs.View.{frames_in, plain_code};
ghost use Rattle.aud_layout.specs.Assembly.{flat_program};
ghost use Rattle.aud_layout.specs.Opened.{BodiesCount};
ghost use Rattle.aud_gen.specs.Opening.{body_in_type, frames_before, level_in};
ghost use Rattle.aud_gen.specs.Writes.{unit_lines, units_code, Writes};

use crate::frames::frames;
use crate::objects::write_barriers;
use crate::operands::operands;
use crate::writer::Writer;
use aud_code::line::Code;
use aud_code::sound_code::{SoundCode, verify};
use aud_layout::ways::Ways;
use aud_meaning::state::Construct;
use aud_scoped::ScopedProgram;
use aud_typed::program::{Body, Entry, TaskType, Unit};
use std::alloc::{AllocError, Global};

impl Writer {
    // The body of a procedure or task.
    fn write_unit(&mut self, body: &Body)
        ensures { Writes self.old self.new
            (unit_lines (body_in body.now) (length self.old.lines)) }
    {
        let last = self.end_of_unit(body);
        let ways = Ways::of_body(self.alloc(), None, last);
        self.write_body(body, Construct::Unit, &ways, last, 0, last);
    }
}

// The code of all bodies, one after the other, with its tables, and the barriers. Behind the bodies stands what is run
// for a number that none has.
fn write_code(
    alloc: Global,
    units: &[Unit],
    types: &[TaskType],
    entries: &[Entry],
) -> Result<Code, AllocError>
    ensures code { IfOk result (λ code. plain_code code ≡ units_code units.now entries.now) }
    ensures frames { IfOk result (λ code. BodiesCount (plain_code code).lines code.seen.items
        (map level_in units.now) (plain_code code).starts (plain_code code).spare) }
    ensures tasks { IfOk result (λ code. code.tasks.items ≡ map body_in_type types.now) }
    ensures table { IfOk result (λ code.
        map counts code.operands.items ≡ table_of (plain_code code).lines) }
    ensures decided { IfOk result (λ code. AllDecided code.barriers.items) }
    ensures barriers { IfOk result (λ code.
        frames_in code.barriers.items ≡ map (frames_before units.now) entries.now) }
{
    let mut writer = Writer::new(alloc);
    let mut starts = Vec::new(alloc);
    for unit in units {
        starts.push(writer.place())?;
        writer.write_unit(&unit.body);
    }
    let spare = writer.place();
    writer.write_idle();
    let lines = writer.finish()?;
    let operands = operands(alloc, &lines)?;
    let seen = frames(alloc, &lines, &starts, spare, units)?;
    let tasks = task_bodies(alloc, types)?;
    let barriers = write_barriers(alloc, entries, units)?;
    Ok(Code {
        lines,
        operands,
        seen,
        starts,
        spare,
        tasks,
        barriers,
    })
}

// The body of each task type.
fn task_bodies(alloc: Global, types: &[TaskType]) -> Result<Vec<usize>, AllocError>
    ensures { IfOk result (λ bodies. bodies.items ≡ map body_in_type types.now) }
{
    let mut bodies = Vec::with_capacity(alloc, types.len())?;
    for task_type in types {
        bodies.push(task_type.unit)?;
    }
    Ok(bodies)
}

/// The code of a program. It is refused only where memory is refused.
pub fn generate(alloc: Global, program: &ScopedProgram) -> Result<SoundCode, AllocError>
    ensures { IfOk result (λ code. code ≡ flat_program (plain_program program.now)) }
{
    let program = program.program();
    let code = write_code(alloc, &program.units, &program.tasks, &program.entries)?;
    match verify(alloc, code) {
        Some(sound) => sound.fuse(alloc),
        None => unreachable!(),
    }
}
