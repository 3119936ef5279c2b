// Steps that concern a task alone.

ghost use Rattle.std.specs.Prelude.{◌≡◌, OnOk};
ghost use Rattle.aud_meaning.specs.Control.{Scene};
ghost use Rattle.aud_meaning.specs.Ties.Part.{rest_of};
ghost use Rattle.aud_code.specs.Flat.{asked_last, end_at};
ghost use Rattle.aud_code.specs.Instruction.{Reached};
ghost use Rattle.aud_code.specs.Places.{loops_of};
ghost use Rattle.aud_code.specs.Sound.{counts_of, LastFine};
ghost use Rattle.aud_code.specs.View.{exit_of, plain_end, plain_last};
ghost use Rattle.aud_sequential.specs.Shown.{plans_of};
ghost use Rattle.aud_sequential.specs.Steps.{DoesAsked, IsOfOne};

use crate::progress::Progress;
use aud_code::line::{EndLine, Last};
use aud_code::sound_code::SoundCode;
use aud_expr::operands::Operands;
use aud_typed::program::Unit;
use std::alloc::AllocError;

impl Progress {
    /// What the ending of a step does that concerns the task alone, with the operands that are evaluated before it.
    pub fn step_alone(
        &mut self,
        end: &EndLine,
        code: &SoundCode,
        units: &[Unit],
        operands: &mut Operands,
    ) -> Result<(), AllocError>
        requires there { plain_end end.now ≡ end_at code.now self.old.control.place }
        requires alone { IsOfOne end.now.last }
        requires fine { LastFine (plain_last end.now.last) (counts_of operands.old) }
        ensures does { OnOk result ((s : Scene) →
            DoesAsked (plans_of units.now) code.now self.old self.new (asked_last
            (plain_last end.now.last) (loops_of (exit_of end.now.last)) end.now.at s
            (Reached operands.old))) }
        ensures kept { OnOk result (rest_of self.new ≡ rest_of self.old) }
    {
        match &end.last {
            Last::Does(ending, next) => self.act_by(*ending, end.at, *next, code, units, operands)?,
            Last::Continues {
                control,
                behind,
                inside,
            } => self.continue_loop(*control, *behind, *inside),
            Last::Guards(_) => {}
            Last::Concerns(_, _) | Last::Ends(_, _) | Last::Leaves { .. } => unreachable!(),
        }
        Ok(())
    }
}
