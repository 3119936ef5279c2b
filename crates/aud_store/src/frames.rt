// The variables of all executions of bodies.

ghost use Rattle.std.specs.Prelude.{◌≡◌, ℤ, pos, ◌<◌, List, [], ◌∷◌, ◌++◌, length, replicate, IsNone, IsSome, IfSome, OnSome, OnOk, OnErr, slice_get, slice_index_or, slice_set};
ghost use Rattle.aud_store.specs.Ties.Frames.{only_named, with_frame};

use crate::cells::{Cells, lengthen, write};
use crate::shelf::Shelf;
use aud_text::int32::Int32;
use smallvec::SmallVec;
use std::alloc::{AllocError, Global};
use std::marker::Model;
use std::mem;

// So many cells may come before it is worth a look which frames are over.
const DUE: usize = 8_192;

// A frame takes as much memory besides its cells as so many cells do.
const FRAME: usize = 8;

/// All frames that were ever made, by their numbers, which count from 0. A frame has the variables of one execution of
/// a body, in the order of their declarations. Those that are given back have none, and take no memory.
// The first one lies apart from those that are kept. What is fresh came since frames were last given back.
#[derive(Drop)]
pub struct Frames {
    made: usize,
    first: Cells,
    shelf: Shelf,
    fresh: usize,
}

impl Model for Frames {
    ghost use Rattle.std.specs.Prelude.{ℤ, List};
    ghost use Rattle.aud_store.specs.Ties.Frames.{laid};
    ghost use Rattle.aud_store.specs.Ties.Shelf.{frame_of, IsShelf};

    ghost Value = { List (List ℤ) };

    ghost view = { λ f. laid f.made (frame_of f.first.items f.shelf) };

    ghost invariant = { λ f. IsShelf f.made f.shelf };
}

impl Frames {
    /// No frames.
    pub fn new(alloc: Global) -> Self
        ensures { result ≡ [] }
    {
        Frames {
            made: 0,
            first: SmallVec::new(alloc),
            shelf: Shelf::new(alloc),
            fresh: 0,
        }
    }

    /// One more frame, with these variables.
    pub fn enter(&mut self, alloc: Global, variables: &[Int32]) -> Result<(), AllocError>
        ensures entered { OnOk result (self.new ≡ self.old ++ variables.now ∷ []) }
        ensures kept { OnErr result (self.new ≡ self.old) }
    {
        let made = self.made.checked_add(1).ok_or(AllocError)?;
        if self.made == 0 {
            let first = SmallVec::from_slice(alloc, variables)?;
            drop(mem::replace(&mut self.first, first));
        } else {
            self.shelf.push(alloc, self.made, variables)?;
        }
        self.made = made;
        let fresh = variables.len().saturating_add(FRAME);
        self.fresh = self.fresh.saturating_add(fresh);
        Ok(())
    }

    /// How many frames there are.
    #[inline(always)]
    pub fn len(&self) -> usize
        ensures { result ≡ length self.now }
    {
        self.made
    }

    /// The variables of a frame, in the order of their declarations.
    #[inline(always)]
    pub fn frame(&self, number: usize) -> &[Int32]
        requires { number < length self.now }
        ensures { slice_get self.now number ≡ Some result.now }
    {
        if number == 0 {
            self.first.as_slice()
        } else {
            self.shelf.cells(self.made, number)
        }
    }

    /// The key under which the variables of a frame lie, for tests and for looking on: none for the first frame, which
    /// has no key, and none for one that was given back. Keys of frames that were given back become those of others.
    pub fn key(&self, number: usize) -> Option<usize>
        ensures { IsNone result → 0 < number → slice_index_or self.now number [] ≡ [] }
    {
        self.shelf.key(self.made, number)
    }

    /// A variable, or 0 where the frame has none of this number.
    #[inline(always)]
    pub fn load(&self, frame: usize, index: usize) -> Int32
        requires { frame < length self.now }
        ensures { result ≡ slice_index_or (slice_index_or self.now frame []) index (pos 0) }
    {
        self.frame(frame)
            .get(index)
            .copied()
            .unwrap_or(Int32::new(0))
    }

    /// More variables of a frame: so many, each with this value.
    pub fn declare(&mut self, frame: usize, count: usize, value: Int32) -> Result<(), AllocError>
        requires { frame < length self.old }
        ensures declared { OnOk result (self.new ≡
            with_frame frame (λ vs. vs ++ replicate count value) self.old) }
        ensures kept { OnErr result (self.new ≡ self.old) }
    {
        self.fresh = self.fresh.saturating_add(count);
        if frame == 0 {
            lengthen(&mut self.first, count, value)?;
            return Ok(());
        }
        self.shelf.lengthen(self.made, frame, count, value)?;
        Ok(())
    }

    /// More variables of a frame, with these values.
    pub fn extend(&mut self, frame: usize, values: &[Int32]) -> Result<(), AllocError>
        requires { frame < length self.old }
        ensures extended { OnOk result (self.new ≡
            with_frame frame (λ vs. vs ++ values.now) self.old) }
        ensures kept { OnErr result (self.new ≡ self.old) }
    {
        self.fresh = self.fresh.saturating_add(values.len());
        if frame == 0 {
            self.first.extend_from_slice(values)?;
            return Ok(());
        }
        self.shelf.extend(self.made, frame, values)?;
        Ok(())
    }

    /// Another value of a variable; where the frame has none of this number, nothing changes.
    #[inline(always)]
    pub fn assign(&mut self, frame: usize, index: usize, value: Int32)
        requires { frame < length self.old }
        ensures { self.new ≡ with_frame frame (λ vs. slice_set vs index value) self.old }
    {
        if frame == 0 {
            write(self.first.as_mut_slice(), index, value);
            return;
        }
        self.shelf.write(self.made, frame, index, value);
    }

    /// Other cells of a frame. It gives those that it had; none where it was given back, and then nothing changes. No
    /// memory is taken.
    pub fn replace(&mut self, frame: usize, cells: Cells) -> Option<Cells>
        requires { frame < length self.old }
        ensures given { IfSome result (λ given. given.items ≡ slice_index_or self.old frame []) }
        ensures replaced { OnSome result (self.new ≡ with_frame frame (λ vs. cells.items) self.old) }
        ensures kept { IsNone result → self.new ≡ self.old }
        ensures some { 0 < length (slice_index_or self.old frame []) → IsSome result }
    {
        if frame == 0 {
            return Some(mem::replace(&mut self.first, cells));
        }
        self.shelf.replace(self.made, frame, cells)
    }

    /// All frames are given back but the first one and those of these numbers, which are put in order meanwhile. No
    /// memory is taken.
    pub fn forget(&mut self, named: &mut [usize])
        ensures { self.new ≡ only_named named.old self.old }
    {
        named.sort_unstable();
        self.shelf.retain(named);
        self.fresh = 0;
    }

    /// Whether so much was entered and declared since the last `forget`, or since the beginning, that another one is worth its
    /// time. Any answer is right: nothing that is told of frames depends on it.
    pub fn is_due(&self) -> bool {
        DUE <= self.fresh
    }
}
