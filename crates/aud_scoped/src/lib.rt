// Typed programs that are known to be scoped.
#![tactic(auto)]

ghost use Rattle.std.specs.Prelude.{◌≡◌};
ghost use Rattle.aud_typed.specs.Why.Scoped.{IsScoped};
ghost use Rattle.aud_typed.specs.Ties.View.{plain_program};
ghost use Rattle.aud_scoped.specs.Declares.{DeclaresInParts};

use aud_typed::program::Program;
use std::marker::Model;

/// A program in which each variable has been elaborated where it is read or assigned (RM 3.3.1), and each procedure is there that is
/// called; tasks are declared by declarative parts alone.
pub struct ScopedProgram {
    program: Program,
}

// One call wherever it is dropped.
impl Drop for ScopedProgram {
    fn drop(self) {
        let ScopedProgram { program: _ } = self;
    }
}

impl Model for ScopedProgram {
    ghost use Rattle.aud_typed.specs.Why.Scoped.{IsScoped};
    ghost use Rattle.aud_typed.specs.Ties.View.{plain_program};
    ghost use Rattle.aud_scoped.specs.Declares.{DeclaresInParts};
    ghost use Rattle.aud_typed.specs.declared.program.Program.{Program};
    ghost use Rattle.std.specs.Coded.{codes};
    ghost use Rattle.aud_typed.specs.contracts.program.Body as body;
    ghost use Rattle.aud_typed.specs.contracts.program.BooleanExpression as boolean;

    ghost Value = { Program };

    ghost coded = { Prim.hlevel (codes, body.the_row.coded, boolean.the_row.coded) };

    ghost view = { λ s. s.program };

    ghost invariant = { λ s. IsScoped (plain_program s.program)
        × DeclaresInParts (plain_program s.program) };
}

impl ScopedProgram {
    /// A program of which that is known.
    pub fn new(program: Program) -> ScopedProgram
        requires scoped { IsScoped (plain_program program) }
        requires declares { DeclaresInParts (plain_program program) }
        ensures { result ≡ program }
    {
        ScopedProgram { program }
    }

    /// The program.
    pub fn program(&self) -> &Program
        ensures value { result.now ≡ self.now }
        ensures scoped { IsScoped (plain_program result.now) }
        ensures declares { DeclaresInParts (plain_program result.now) }
    {
        &self.program
    }

    /// The program by itself.
    pub fn into_program(self) -> Program
        ensures { result ≡ self }
    {
        let ScopedProgram { program } = self;
        program
    }
}
