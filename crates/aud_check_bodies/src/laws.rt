// A law of the definitions.

ghost use Rattle.std.specs.Prelude.{◌≡◌, []};
ghost use Rattle.aud_syntax.specs.Plain as plain;
ghost use Rattle.aud_typed.specs.Why.Scoped.{IsScoped};
ghost use Rattle.aud_check_bodies.specs.Programs.{faults, typed};

/// In the typed program of a unit without faults each variable that is read or assigned has been elaborated
/// (RM 3.3.1, 8.3), also in handlers, each exception that is raised or chosen by a handler is there, and each
/// procedure that is called, which has as many formals as the call has arguments. Tasks are created of types that are
/// there, whose body sees frames that are open where the tasks are activated (RM 9.2). Each entry that is accepted,
/// called or counted is there, with as many formals as its accepts and body have and its calls have arguments, each
/// table, and each loop that an exit leaves. A call of an object names a cell of the innermost frame around the object's.
pub fn scoped()
    ensures { (unit : plain.Unit) → faults unit ≡ [] → IsScoped (typed unit) }
{}
