// Variables that were found, and formals that are copied back to them.

ghost use Rattle.std.specs.Prelude.{◌≡◌};
ghost use Rattle.aud_meaning.specs.Configuration.{Target as Plain, Back as PlainBack};

use aud_typed::program::Subtype;
use smallvec::SmallVec;
use std::marker::Model;

/// A variable that was found: the number of its frame, its cell there, and its subtype.
#[derive(Clone, Copy)]
pub struct Target {
    frame: usize,
    index: usize,
    subtype: Subtype,
}

impl Model for Target {
    ghost Value = { Plain };

    ghost view = { λ t. record { frame = t.frame; index = t.index; subtype = t.subtype } };

    ghost inverse = { λ t. record { frame = t.frame; index = t.index; subtype = t.subtype } };
}

impl Target {
    /// The cell of a frame, both by their numbers, with the variable's subtype.
    pub fn new(frame: usize, index: usize, subtype: Subtype) -> Self
        ensures { result ≡ record { frame = frame; index = index; subtype = subtype } }
    {
        Target {
            frame,
            index,
            subtype,
        }
    }

    pub fn frame(self) -> usize
        ensures { result ≡ self.frame }
    {
        self.frame
    }

    /// The number of the cell in its frame.
    pub fn index(self) -> usize
        ensures { result ≡ self.index }
    {
        self.index
    }

    pub fn subtype(self) -> Subtype
        ensures { result ≡ self.subtype }
    {
        self.subtype
    }
}

/// The formals that a call copies back; few need no memory of their own.
pub type Backs = SmallVec<Back, 4>;

/// A formal, by its number, that is copied back, and where to (RM 6.4.1(17)).
#[derive(Clone, Copy)]
pub struct Back {
    formal: usize,
    target: Target,
}

impl Model for Back {
    ghost Value = { PlainBack };

    ghost view = { λ b. record { formal = b.formal; target = b.target } };

    ghost inverse = { λ b. record { formal = b.formal; target = b.target } };
}

// What fills the room of a list that has fewer.
impl Default for Back {
    fn default() -> Self {
        Back {
            formal: 0,
            target: Target::new(0, 0, Subtype::Integer),
        }
    }
}

impl Back {
    pub fn new(formal: usize, target: Target) -> Self
        ensures { result ≡ record { formal = formal; target = target } }
    {
        Back { formal, target }
    }

    /// The number of the formal's cell in the procedure's frame.
    pub fn formal(&self) -> usize
        ensures { result ≡ self.now.formal }
    {
        self.formal
    }

    pub fn target(&self) -> Target
        ensures { result ≡ self.now.target }
    {
        self.target
    }
}
