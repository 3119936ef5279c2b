// Tasks, protected objects and their operations that wait for their bodies.

ghost use Rattle.std.specs.Prelude.{◌≡◌, position};
ghost use Rattle.std.specs.Str.{bytes_eq};
ghost use Rattle.aud_names.specs.Objects.{is_object, is_unit};

use aud_text::name::Name;
use aud_text::place::Pos;

/// A task or task type whose body is still to come (RM 3.11.1): its name, the numbers of its unit and of its type, and
/// where the name stands.
pub struct Awaited {
    pub name: Name,
    pub unit: usize,
    pub task_type: usize,
    pub at: Pos,
}

// One call wherever it is dropped.
impl Drop for Awaited {
    fn drop(self) {
        let Awaited {
            name,
            unit: _,
            task_type: _,
            at: _,
        } = self;
        drop(name);
    }
}

/// A protected object whose body is still to come: its name, its number, and where the name stands.
pub struct AwaitedObject {
    pub name: Name,
    pub object: usize,
    pub at: Pos,
}

impl Drop for AwaitedObject {
    fn drop(self) {
        let AwaitedObject {
            name,
            object: _,
            at: _,
        } = self;
        drop(name);
    }
}

/// An operation or entry of a protected object whose body is still to come: the number of its unit, and where its name stands.
#[derive(Clone, Copy)]
pub struct AwaitedPart {
    pub unit: usize,
    pub at: Pos,
}

/// Which of these has the name, if one has.
pub fn index_of(awaited: &[Awaited], name: &Name) -> Option<usize>
    ensures { result ≡ position (λ a. bytes_eq name.now a.name) awaited.now }
{
    awaited.iter().position(|a| *name == a.name)
}

/// Which of these objects has the name, if one has.
pub fn index_of_object(awaited: &[AwaitedObject], name: &Name) -> Option<usize>
    ensures { result ≡ position (is_object name.now) awaited.now }
{
    awaited.iter().position(|a| *name == a.name)
}

/// Which of these has the unit, if one has.
pub fn index_of_unit(awaited: &[AwaitedPart], unit: usize) -> Option<usize>
    ensures { result ≡ position (is_unit unit) awaited.now }
{
    awaited.iter().position(|a| unit == a.unit)
}
