// Frames that are kept, each under a key.

ghost use Rattle.std.specs.Prelude.{◌≡◌, ℕ, ◌+◌, ◌<◌, ◌++◌, [], length, replicate, slice_set, if◌then◌else◌, IfOk, IfErr, IfSome, IfNone, IsSome, IsNone, OnSome, OnOk, OnErr};
ghost use Rattle.std.specs.List.{AllPairs};
ghost use Rattle.std.specs.List.Sorted.{IsSorted};
ghost use Rattle.std.specs.Ordering.{nat_cmp};
ghost use Rattle.aud_meaning.specs.Parts.{contains};
ghost use Rattle.aud_store.specs.Ties.Shelf.{cells_on, Changes, IsAt, IsGap, IsSame, IsShelf, Keeps, Precedes};

use crate::cells::{Cells, lengthen, write};
use aud_text::int32::Int32;
use slab::Slab;
use smallvec::SmallVec;
use std::alloc::{AllocError, Global};
use std::mem;

/// A frame that is kept, by its number, and the key under which its cells lie.
#[derive(Clone, Copy)]
pub(crate) struct Kept {
    number: usize,
    key: usize,
}

/// The frames that are kept, by rising numbers, and their cells, each under a key.
#[derive(Drop)]
pub(crate) struct Shelf {
    kept: Vec<Kept>,
    slots: Slab<Cells>,
}

impl Shelf {
    /// No frame is kept.
    pub(crate) fn new(alloc: Global) -> Self
        ensures { result.kept.items ≡ [] }
    {
        Shelf {
            kept: Vec::new(alloc),
            slots: Slab::new(alloc),
        }
    }

    /// The key of the frame of a number, if it is kept. So many frames were made.
    #[inline(always)]
    pub(crate) fn key(&self, made: usize, number: usize) -> Option<usize>
        requires { AllPairs Precedes self.now.kept.items }
        ensures found { IfSome result (Keeps self.now.kept.items number) }
        ensures absent { IfNone result (cells_on self.now number ≡ []) }
    {
        match self.find(made, number) {
            Ok(at) => Some(self.kept[at].key),
            Err(_) => None,
        }
    }

    /// The cells of the frame of a number; none where it is not kept.
    pub(crate) fn cells(&self, made: usize, number: usize) -> &[Int32]
        requires { IsShelf made self.now }
        ensures { result.now ≡ cells_on self.now number }
    {
        match self.key(made, number) {
            Some(key) => self.slots[key].as_slice(),
            None => &[],
        }
    }

    /// A frame of this number, above those of all that are kept, is kept with these cells.
    pub(crate) fn push(
        &mut self,
        alloc: Global,
        number: usize,
        cells: &[Int32],
    ) -> Result<(), AllocError>
        requires some { 0 < number }
        requires shelf { IsShelf number self.old }
        ensures shelf { OnOk result (IsShelf (number + 1) self.new) }
        ensures pushed { OnOk result (Changes number (λ none. cells.now) self.old self.new) }
        ensures still { OnErr result (IsShelf number self.new) }
        ensures kept { OnErr result (IsSame self.old self.new) }
    {
        let last = self.kept.len();
        self.keep(alloc, last, number, cells)?;
        Ok(())
    }

    /// More cells of the frame of a number: so many, each with this value.
    pub(crate) fn lengthen(
        &mut self,
        made: usize,
        number: usize,
        count: usize,
        value: Int32,
    ) -> Result<(), AllocError>
        requires some { 0 < number }
        requires within { number < made }
        requires shelf { IsShelf made self.old }
        ensures shelf { IsShelf made self.new }
        ensures longer { OnOk result
            (Changes number (λ cells. cells ++ replicate count value) self.old self.new) }
        ensures kept { OnErr result (IsSame self.old self.new) }
    {
        let key = self.hold(made, number)?;
        lengthen(&mut self.slots[key], count, value)?;
        Ok(())
    }

    /// More cells of the frame of a number, with these values.
    pub(crate) fn extend(
        &mut self,
        made: usize,
        number: usize,
        values: &[Int32],
    ) -> Result<(), AllocError>
        requires some { 0 < number }
        requires within { number < made }
        requires shelf { IsShelf made self.old }
        ensures shelf { IsShelf made self.new }
        ensures longer { OnOk result
            (Changes number (λ cells. cells ++ values.now) self.old self.new) }
        ensures kept { OnErr result (IsSame self.old self.new) }
    {
        let key = self.hold(made, number)?;
        self.slots[key].extend_from_slice(values)?;
        Ok(())
    }

    /// Another value of a cell; where the frame of the number has none there, nothing changes.
    pub(crate) fn write(&mut self, made: usize, number: usize, index: usize, value: Int32)
        requires { IsShelf made self.old }
        ensures shelf { IsShelf made self.new }
        ensures written { Changes number (λ cells. slice_set cells index value) self.old self.new }
    {
        if let Some(key) = self.key(made, number) {
            write(self.slots[key].as_mut_slice(), index, value);
        }
    }

    /// Other cells of the frame of a number. It gives those that it had; none where it is not kept, and then nothing changes.
    pub(crate) fn replace(&mut self, made: usize, number: usize, cells: Cells) -> Option<Cells>
        requires { IsShelf made self.old }
        ensures shelf { IsShelf made self.new }
        ensures given { IfSome result (λ given. given.items ≡ cells_on self.old number) }
        ensures replaced { OnSome result (Changes number (λ none. cells.items) self.old self.new) }
        ensures kept { IsNone result → self.new ≡ self.old }
        ensures some { 0 < length (cells_on self.old number) → IsSome result }
    {
        let key = self.key(made, number)?;
        Some(mem::replace(&mut self.slots[key], cells))
    }

    /// Of the frames that are kept only those of these numbers are; the cells of the others are given back, and their keys come
    /// to be others'.
    pub(crate) fn retain(&mut self, named: &[usize])
        requires sorted { IsSorted nat_cmp named.now }
        requires ordered { AllPairs Precedes self.old.kept.items }
        ensures shelf { (made : ℕ) → IsShelf made self.old → IsShelf made self.new }
        ensures named { (n : ℕ) →
            cells_on self.new n ≡ (if contains n named.now then cells_on self.old n else []) }
    {
        let mut left = 0;
        for index in 0..self.kept.len() {
            let kept = self.kept[index];
            if is_among(named, kept.number) {
                self.kept[left] = kept;
                left += 1;
            } else {
                drop(self.slots.try_remove(kept.key));
            }
        }
        self.kept.truncate(left);
    }

    // Where the frame of a number stands, or else where it would. The frames that were made last are mostly kept
    // without a gap: the place that follows from that is looked at first.
    #[inline(always)]
    fn find(&self, made: usize, number: usize) -> Result<usize, usize>
        requires { AllPairs Precedes self.now.kept.items }
        ensures found { IfOk result (IsAt self.now.kept.items number) }
        ensures absent { IfErr result (IsGap self.now.kept.items number) }
    {
        let likely = self.kept.len().saturating_sub(made.saturating_sub(number));
        if likely < self.kept.len() && self.kept[likely].number == number {
            return Ok(likely);
        }
        self.kept.binary_search_by_key(&number, |kept| kept.number)
    }

    // The key of the frame of a number, for more cells. One that was given back is kept again, with no cells as yet.
    fn hold(&mut self, made: usize, number: usize) -> Result<usize, AllocError>
        requires some { 0 < number }
        requires within { number < made }
        requires shelf { IsShelf made self.old }
        ensures shelf { IsShelf made self.new }
        ensures same { IsSame self.old self.new }
        ensures found { IfOk result (Keeps self.new.kept.items number) }
    {
        match self.find(made, number) {
            Ok(at) => Ok(self.kept[at].key),
            Err(at) => {
                let alloc = *self.kept.allocator();
                let key = self.keep(alloc, at, number, &[])?;
                Ok(key)
            }
        }
    }

    // A frame of this number is kept at its place, with these cells. It gives the key.
    fn keep(
        &mut self,
        alloc: Global,
        at: usize,
        number: usize,
        cells: &[Int32],
    ) -> Result<usize, AllocError>
        requires some { 0 < number }
        requires gap { IsGap self.old.kept.items number at }
        ensures shelf { OnOk result
            ((made : ℕ) → IsShelf made self.old → number < made → IsShelf made self.new) }
        ensures cells { OnOk result ((made : ℕ) → IsShelf made self.old →
            Changes number (λ none. cells.now) self.old self.new) }
        ensures found { IfOk result (Keeps self.new.kept.items number) }
        ensures still { OnErr result ((made : ℕ) → IsShelf made self.old → IsShelf made self.new) }
        ensures kept { OnErr result (IsSame self.old self.new) }
    {
        let cells = SmallVec::from_slice(alloc, cells)?;
        self.slots.reserve(1)?;
        let key = self.slots.vacant_key();
        self.kept.insert(at, Kept { number, key })?;
        self.slots.insert_reserved(cells);
        Ok(key)
    }
}

// Whether a number is one of these, which rise.
fn is_among(named: &[usize], number: usize) -> bool
    requires { IsSorted nat_cmp named.now }
    ensures { result ≡ contains number named.now }
{
    named.binary_search(&number).is_ok()
}
