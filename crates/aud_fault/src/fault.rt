// Faults of a program.

ghost use Rattle.std.specs.Prelude.{◌≡◌, Option, None};
ghost use Rattle.aud_fault.specs.declared.fault.Fault.{Fault};
ghost use Rattle.aud_fault.specs.Least.{before, note};

use aud_text::place::Pos;
use aud_text::refusal::Refusal;
use std::marker::Model;

/// A breach of a rule of the language: where it stands, and which it is.
#[derive(Clone, Copy, Debug)]
pub struct Fault {
    pub at: Pos,
    pub refusal: Refusal,
}

/// The first of the faults that were noted, if there were any.
#[derive(Clone, Copy)]
pub struct Least {
    first: Option<Fault>,
}

impl Model for Least {
    ghost Value = { Option Fault };

    ghost view = { λ least. least.first };

    ghost inverse = { λ first. record { first = first } };
}

impl Least {
    /// No fault yet.
    pub fn new() -> Self
        ensures { result ≡ None }
    {
        Least { first: None }
    }

    /// The first of the faults that were noted.
    pub fn get(self) -> Option<Fault>
        ensures { result ≡ self }
    {
        self.first
    }

    /// Notes one more fault.
    pub fn note(&mut self, at: Pos, refusal: Refusal)
        ensures { self.new ≡ note self.old (record { at = at; refusal = refusal }) }
    {
        let fault = Fault { at, refusal };
        self.first = match self.first {
            Some(first) if !before(fault, first) => Some(first),
            _ => Some(fault),
        };
    }
}

// Whether the one fault is reported rather than the other.
fn before(fault: Fault, other: Fault) -> bool
    ensures { result ≡ before fault other }
{
    if fault.at == other.at {
        return fault.refusal.number() < other.refusal.number();
    }
    fault.at.line < other.at.line || (fault.at.line == other.at.line && fault.at.col < other.at.col)
}
