// What frames are opened for.

ghost use Rattle.std.specs.Prelude.{◌≡◌, [], Some};
ghost use Rattle.aud_meaning.specs.Effects.{is_counted, is_inner, is_loop};
ghost use Rattle.aud_store.specs.Ties.Stored.{accepted_for, copies_of, is_served_for, kept_of};
ghost use Rattle.aud_store.specs.Ties.Stored.{plain_purpose, served_for, with_value};

use crate::target::Target;
use aud_meaning::state::Resumed;
use aud_text::int32::Int32;

/// What the end of a procedure or function does: so many formals are copied back; a function's value is assigned to the
/// target that its call found, if it found one, once a return statement has given it.
#[derive(Clone, Copy)]
pub struct Returns {
    pub is_function: bool,
    pub backs: usize,
    pub into: Option<Target>,
    pub value: Option<Int32>,
}

/// What a frame was opened for.
#[derive(Clone, Copy)]
pub enum Purpose {
    Body,
    Block,
    Loop,
    /// A procedure's body, which sees so many frames besides its own.
    Procedure {
        level: usize,
        returns: Returns,
    },
    /// The body of a procedure or function of an object.
    Operation {
        object: usize,
        returns: Returns,
    },
    /// An entry body of an object, for the call of this number: whether another task than the caller does it, and what the task
    /// goes back to.
    Entry {
        object: usize,
        call: usize,
        served: bool,
        resumed: Resumed,
    },
    /// What an accept does, for the call of this number.
    Accept {
        call: usize,
    },
}

impl Purpose {
    pub(crate) fn is_loop(&self) -> bool
        ensures { result ≡ is_loop (plain_purpose self.now []) }
    {
        match self {
            Purpose::Loop => true,
            Purpose::Body
            | Purpose::Block
            | Purpose::Procedure { .. }
            | Purpose::Operation { .. }
            | Purpose::Entry { .. }
            | Purpose::Accept { .. } => false,
        }
    }

    /// Whether it is within an execution that is no call.
    pub(crate) fn is_inner(&self) -> bool
        ensures { result ≡ is_inner (plain_purpose self.now []) }
    {
        match self {
            Purpose::Block | Purpose::Loop => true,
            Purpose::Body
            | Purpose::Procedure { .. }
            | Purpose::Operation { .. }
            | Purpose::Entry { .. }
            | Purpose::Accept { .. } => false,
        }
    }

    /// How many formals are copied back.
    pub(crate) fn copies(&self) -> usize
        ensures { result ≡ copies_of self.now }
    {
        match self {
            Purpose::Procedure { returns, .. } => returns.backs,
            Purpose::Operation { returns, .. } => returns.backs,
            Purpose::Body
            | Purpose::Block
            | Purpose::Loop
            | Purpose::Entry { .. }
            | Purpose::Accept { .. } => 0,
        }
    }

    /// How many frames are still seen, of so many.
    pub(crate) fn kept(&self, seen: usize) -> usize
        ensures { result ≡ kept_of self.now seen }
    {
        match self {
            Purpose::Procedure { level, .. } => (*level).min(seen),
            Purpose::Body
            | Purpose::Block
            | Purpose::Loop
            | Purpose::Operation { .. }
            | Purpose::Entry { .. }
            | Purpose::Accept { .. } => seen,
        }
    }

    /// Whether it is counted among the frames that a task may have.
    pub(crate) fn is_counted(&self) -> bool
        ensures { result ≡ is_counted (plain_purpose self.now []) }
    {
        match self {
            Purpose::Body
            | Purpose::Block
            | Purpose::Loop
            | Purpose::Procedure { .. }
            | Purpose::Operation { .. } => true,
            Purpose::Entry { .. } | Purpose::Accept { .. } => false,
        }
    }

    /// The call of an accept.
    pub(crate) fn accepted(&self) -> Option<usize>
        ensures { result ≡ accepted_for self.now }
    {
        match self {
            Purpose::Accept { call } => Some(*call),
            Purpose::Body
            | Purpose::Block
            | Purpose::Loop
            | Purpose::Procedure { .. }
            | Purpose::Operation { .. }
            | Purpose::Entry { .. } => None,
        }
    }

    /// The call of an accept or an entry body.
    pub(crate) fn served(&self) -> Option<usize>
        ensures { result ≡ served_for self.now }
    {
        match self {
            Purpose::Accept { call } => Some(*call),
            Purpose::Entry { call, .. } => Some(*call),
            Purpose::Body
            | Purpose::Block
            | Purpose::Loop
            | Purpose::Procedure { .. }
            | Purpose::Operation { .. } => None,
        }
    }

    /// Whether it is an entry body for another task's call.
    pub(crate) fn is_served(&self) -> bool
        ensures { result ≡ is_served_for self.now }
    {
        match self {
            Purpose::Entry { served, .. } => *served,
            Purpose::Body
            | Purpose::Block
            | Purpose::Loop
            | Purpose::Procedure { .. }
            | Purpose::Operation { .. }
            | Purpose::Accept { .. } => false,
        }
    }

    /// It with a function's value; of what is no call it is the same.
    pub(crate) fn with_value(self, value: Int32) -> Self
        ensures { result ≡ with_value value self }
    {
        match self {
            Purpose::Procedure { level, returns } => Purpose::Procedure {
                level,
                returns: returns.with_value(value),
            },
            Purpose::Operation { object, returns } => Purpose::Operation {
                object,
                returns: returns.with_value(value),
            },
            Purpose::Body
            | Purpose::Block
            | Purpose::Loop
            | Purpose::Entry { .. }
            | Purpose::Accept { .. } => self,
        }
    }
}

impl Returns {
    // It with a function's value.
    fn with_value(self, value: Int32) -> Self
        ensures { result ≡ record self { value = Some value } }
    {
        Returns {
            value: Some(value),
            ..self
        }
    }
}
