// What the protected objects declare that a region declares.

ghost use Rattle.std.specs.Prelude.{◌≡◌};
ghost use Rattle.aud_names.specs.Objects.{part_in};

use crate::names::Subprogram;
use aud_text::name::Name;
use aud_text::place::Pos;
use aud_typed::program::Subtype;

/// What an object declares by one name (RM 9.4(5, 6)).
#[derive(Clone, Copy)]
pub enum PartKind {
    /// An entry: its number, and that of the unit which is its body.
    Entry(usize, usize),
    /// A procedure or function, by its unit.
    Operation(usize, Subprogram),
    /// A component, whose subtype is not known where its declaration is faulty.
    Component(Option<Subtype>),
}

/// That, and whether it stands behind `private`.
#[derive(Clone, Copy)]
pub struct Part {
    pub is_private: bool,
    pub kind: PartKind,
}

/// What the object of this number declares by a name, which stands at a place.
pub struct ObjectPart {
    pub object: usize,
    pub name: Name,
    pub at: Pos,
    pub part: Part,
}

// One call wherever it is dropped.
impl Drop for ObjectPart {
    fn drop(self) {
        let ObjectPart {
            object: _,
            name,
            at: _,
            part: _,
        } = self;
        drop(name);
    }
}

/// What an object declares by this name, if these have it.
pub fn part_in(parts: &[ObjectPart], object: usize, name: &Name) -> Option<Part>
    ensures { result ≡ part_in name.now object parts.now }
{
    let mut rest = parts;
    while let Some((part, others)) = rest.split_first() {
        if object == part.object && *name == part.name {
            return Some(part.part);
        }
        rest = others;
    }
    None
}
