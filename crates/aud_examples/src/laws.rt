// Sessions whose answers follow from the definitions by computing.

ghost use Rattle.aud_examples.specs.Sessions.{NullProgram, NoProgram, Sum, ZeroDivision, Signs, Mixture, FailedActivation};
ghost use Rattle.aud_examples.specs.Watched.{WatchedHold};
ghost use Rattle.aud_examples.specs.Worked.{RowsHold};

/// A program of one null statement ends in three steps.
pub fn null_program()
    ensures { NullProgram }
{}

/// An empty source text is no program, and without a program nothing runs.
pub fn no_program()
    ensures { NoProgram }
{}

/// A variable is declared, assigned and put out.
pub fn sum()
    ensures { Sum }
{}

/// A division by zero ends the program.
pub fn zero_division()
    ensures { ZeroDivision }
{}

/// A sign stands before the whole first term, and binds less than `mod`, `rem` and the quotient.
pub fn signs()
    ensures { Signs }
{}

/// Logical operators are not mixed without parentheses, and a name that is used is declared.
pub fn mixture()
    ensures { Mixture }
{}

/// A task whose activation fails raises Tasking_Error in its activator, and the other one runs.
pub fn failed_activation()
    ensures { FailedActivation }
{}

/// Programs of the whole language, with tasks, entries, protected objects and abort among them, answer what was worked out by
/// hand, by their statements and by their code.
pub fn programs()
    ensures { RowsHold }
{}

/// What is told of protected objects and of waiting tasks was worked out by hand too.
pub fn watched()
    ensures { WatchedHold }
{}
