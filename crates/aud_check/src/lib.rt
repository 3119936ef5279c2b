// The checker: the typed program of a program without faults, else the first of its faults.
#![tactic(auto)]

ghost use Rattle.std.specs.Prelude.{IfOk};
ghost use Rattle.aud_syntax.specs.Ties.View.{plain_unit};
ghost use Rattle.aud_typed.specs.Why.Scoped.{IsScoped};
ghost use Rattle.aud_typed.specs.Ties.View.{plain_program};
ghost use Rattle.aud_scoped.specs.Declares.{DeclaresInParts};
ghost use Rattle.aud_check.specs.Checked.{checked};
ghost use Rattle.aud_check.specs.Ties.Gives.{Gives};

pub mod fault;

use crate::fault::CheckFault;
use aud_check_bodies::unit::typed;
use aud_fault::fault::Least;
use aud_scoped::ScopedProgram;
use aud_syntax::tree::Unit;
use std::alloc::Global;

/// The typed program of a program without faults (RM 10.1.1). Each variable in it has been elaborated where it
/// is read or assigned (RM 3.3.1), and each procedure is there that is called.
///
/// # Errors
///
/// `Wrong` with the first fault in the text, and of several at one place the one whose code has the
/// least number; `Memory` where memory is refused.
pub fn check(alloc: Global, unit: &Unit) -> Result<ScopedProgram, CheckFault>
    ensures answer { Gives plain_program (checked (plain_unit unit.now)) result }
    ensures scoped { IfOk result (λ program. IsScoped (plain_program program)) }
    ensures declares { IfOk result (λ program. DeclaresInParts (plain_program program)) }
{
    let mut faults = Least::new();
    let program = typed(alloc, unit, &mut faults)?;
    match faults.get() {
        None => Ok(ScopedProgram::new(program)),
        Some(fault) => Err(CheckFault::Wrong(fault)),
    }
}
