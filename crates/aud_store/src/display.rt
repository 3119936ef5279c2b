// The numbers of the frames that are seen. A frame that is opened takes the place behind those that it sees; what stood
// there comes back when it is left, so opening and leaving a frame costs the same however many are seen or hidden. A
// body that sees other frames than the one that enters it has them behind all numbers.

ghost use Rattle.std.specs.Prelude.{◌≡◌, ◌+◌, ◌≤◌, ◌<◌, [], length, take, OnErr, IfOk};
ghost use Rattle.aud_store.specs.Ties.Display.{end_of, number_of, placed, put_back, seen, set_apart, stands, stands_apart};

use std::alloc::{AllocError, Global};
use std::marker::Model;

/// What a frame's number stands in place of.
#[derive(Clone, Copy)]
pub enum Replaced {
    /// The number that stood there before, if one did. So many frames were seen.
    Among { number: Option<usize>, seen: usize },
    /// Nothing: it is seen with others than were seen before. So many numbers stood before those, and so many frames were seen.
    Apart { base: usize, seen: usize },
}

impl Replaced {
    /// The number that stood there before, if one did.
    pub(crate) fn number(&self) -> Option<usize>
        ensures { result ≡ number_of self.now }
    {
        match self {
            Replaced::Among { number, .. } => *number,
            Replaced::Apart { .. } => None,
        }
    }
}

// The numbers of the frames that are seen, outermost first, behind those of a base; before and behind them some that are hidden.
#[derive(Drop)]
pub(crate) struct Display {
    numbers: Vec<usize>,
    base: usize,
    seen: usize,
}

impl Model for Display {
    ghost use Rattle.std.specs.Prelude.{◌+◌, ◌≤◌, length};
    ghost use Rattle.aud_store.specs.Ties.Display.{Display as Plain};

    ghost Value = { Plain };

    ghost view = { λ d. record { numbers = d.numbers.items; base = d.base; count = d.seen } };

    ghost invariant = { λ d. d.base + d.seen ≤ length d.numbers.items };
}

impl Display {
    /// No frame is seen.
    pub(crate) fn new(alloc: Global) -> Self
        ensures { result ≡ record { numbers = []; base = 0; count = 0 } }
    {
        Display {
            numbers: Vec::new(alloc),
            base: 0,
            seen: 0,
        }
    }

    /// The frames of these numbers are seen, and none is hidden.
    pub(crate) fn of(alloc: Global, numbers: &[usize]) -> Result<Self, AllocError>
        ensures { IfOk result (λ display. display ≡
            record { numbers = numbers.now; base = 0; count = length numbers.now }) }
    {
        Ok(Display {
            numbers: Vec::from_slice(alloc, numbers)?,
            base: 0,
            seen: numbers.len(),
        })
    }

    /// How many frames are seen.
    pub(crate) fn len(&self) -> usize
        ensures { result ≡ self.now.count }
    {
        self.seen
    }

    /// A frame of this number is seen behind so many of those that are seen. It tells what it stands in place of.
    pub(crate) fn enter(&mut self, kept: usize, frame: usize) -> Result<Replaced, AllocError>
        requires { kept ≤ self.old.count }
        ensures entered { IfOk result (λ replaced. self.new ≡ placed kept frame self.old) }
        ensures replaced { IfOk result (λ replaced. replaced ≡ stands kept self.old) }
        ensures kept { OnErr result (self.new ≡ self.old) }
    {
        let seen = self.seen;
        let at = self.base + kept;
        let number = self.numbers.get(at).copied();
        match number {
            Some(_) => self.numbers[at] = frame,
            None => self.numbers.push(frame)?,
        }
        self.seen = kept + 1;
        Ok(Replaced::Among { number, seen })
    }

    /// A frame of this number is seen behind these alone. It tells what was seen before.
    pub(crate) fn enter_apart(
        &mut self,
        numbers: &[usize],
        frame: usize,
    ) -> Result<Replaced, AllocError>
        ensures entered { IfOk result (λ replaced.
            self.new ≡ set_apart numbers.now frame self.old) }
        ensures replaced { IfOk result (λ replaced. replaced ≡ stands_apart self.old) }
        ensures kept { OnErr result (self.new ≡ self.old) }
    {
        let base = self.base;
        let seen = self.seen;
        let end = self.numbers.len();
        let count = numbers.len().checked_add(1).ok_or(AllocError)?;
        self.numbers.extend_from_slice(numbers)?;
        if let Err(failure) = self.numbers.push(frame) {
            self.numbers.truncate(end);
            return Err(failure.into());
        }
        self.base = end;
        self.seen = count;
        Ok(Replaced::Apart { base, seen })
    }

    /// The last frame that is seen is left: what stood in its place comes back.
    pub(crate) fn leave(&mut self, replaced: Replaced)
        requires some { 0 < self.old.count }
        requires within { end_of (put_back replaced self.old) ≤
            length (put_back replaced self.old).numbers }
        ensures { self.new ≡ put_back replaced self.old }
    {
        match replaced {
            Replaced::Among { number, seen } => {
                match number {
                    Some(number) => self.numbers[self.base + self.seen - 1] = number,
                    None => {
                        self.numbers.pop();
                    }
                }
                self.seen = seen;
            }
            Replaced::Apart { base, seen } => {
                self.numbers.truncate(self.base);
                self.base = base;
                self.seen = seen;
            }
        }
    }

    /// The numbers of the frames that are seen, outermost first.
    #[inline(always)]
    pub(crate) fn numbers(&self) -> &[usize]
        ensures { result.now ≡ seen self.now }
    {
        &self.numbers[self.base..self.base + self.seen]
    }

    /// All numbers: those of the frames that are seen, and before and behind them some that are hidden.
    pub(crate) fn all(&self) -> &[usize]
        ensures { result.now ≡ self.now.numbers }
    {
        &self.numbers
    }
}
