// The objects and entries of a program, with the barriers as its code says them.

ghost use Rattle.std.specs.Prelude.{◌≡◌};
ghost use Rattle.aud_typed.specs.Ties.View.{plain_entry};

use crate::compiled::Compiled;
use aud_code::sound_code::SoundCode;
use aud_expr::operands::Operands;
use aud_protected::barriers::Barriers;
use aud_sequential::units;
use aud_state::state::State;
use aud_text::raise::Raise;
use aud_typed::program::{Entry, Program, Unit};
use std::alloc::{AllocError, Global};

/// Evaluates barriers, with operands of its own, and counts the instructions that it executes.
#[derive(Drop)]
pub(crate) struct Evaluator<'a> {
    code: &'a SoundCode,
    program: &'a Program,
    operands: Operands,
    ticks: u64,
}

impl<'a> Evaluator<'a> {
    /// Those of a program.
    pub(crate) fn new(alloc: Global, compiled: Compiled<'a>) -> Self
        ensures code { result.code.now ≡ compiled.entry.code.now }
        ensures program { result.program.now ≡ compiled.entry.program.now }
        ensures none { result.ticks ≡ 0 }
    {
        Evaluator {
            code: compiled.code,
            program: compiled.program,
            operands: Operands::new(alloc),
            ticks: 0,
        }
    }

    /// How many instructions it has executed.
    pub(crate) fn ticks(&self) -> u64
        ensures { result ≡ self.now.ticks }
    {
        self.ticks
    }
}

impl Barriers for Evaluator<'_> {
    ghost use Rattle.aud_typed.specs.Ties.View.{plain_program};
    ghost use Rattle.aud_code.specs.Flat.{barrier_at};
    ghost use Rattle.aud_tasks.specs.Counting.{cost_in};

    ghost plan = { λ e. (plain_program e.program.now).plan };

    ghost barrier = { λ e. barrier_at e.code.now };

    ghost cost = { λ e. cost_in e.code.now };

    ghost spent = { λ e. e.ticks };

    fn units(&self) -> &[Unit] {
        &self.program.units
    }

    fn is_function(&self, unit: usize) -> bool {
        units::is_function(&self.program.units, unit)
    }

    fn entries(&self, declaration: usize) -> &[usize] {
        match self.program.objects.get(declaration) {
            Some(found) => &found.entries,
            None => &[],
        }
    }

    fn body(&self, entry: usize) -> usize {
        match self.program.entries.get(entry) {
            Some(found) => unit_of(found),
            None => 0,
        }
    }

    fn barrier(
        &mut self,
        state: &State,
        object: usize,
        entry: usize,
    ) -> Result<Result<bool, Raise>, AllocError> {
        let decision = state.decide(self.code, object, entry, &mut self.operands)?;
        self.ticks = self.ticks.saturating_add(decision.ticks);
        Ok(decision.met)
    }
}

// The body of an entry; 0 of a task's, which has none.
fn unit_of(entry: &Entry) -> usize
    ensures { result ≡ (plain_entry entry.now).unit }
{
    match &entry.body {
        Some(body) => body.unit,
        None => 0,
    }
}
