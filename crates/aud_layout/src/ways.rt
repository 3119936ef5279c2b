// The ways out of what is written.

ghost use Rattle.std.specs.Prelude.{◌≡◌, ℕ, map, IfOk, slice_index_or};
ghost use Rattle.aud_code.specs.View.{plain_way};
ghost use Rattle.aud_layout.specs.Layout.{one_more, ways_count, in_call, in_loop, in_for, in_block};
ghost use Rattle.aud_layout.specs.Leading.{around, way_to};

use crate::sum::sum;
use aud_code::line::Way;
use std::alloc::{AllocError, Global};

/// The place of the step that opened the innermost frame, the ways of exits, out of the innermost loop first, and the way out
/// of the body.
#[derive(Drop)]
pub struct Ways {
    pub within: Option<usize>,
    pub exits: Vec<Way>,
    pub back: Way,
}

// A way on which a loop more is left.
fn with_loop(way: Way) -> Result<Way, AllocError>
    ensures { IfOk result (λ w. plain_way w ≡ one_more (plain_way way)) }
{
    let Way { to, loops } = way;
    Ok(Way {
        to,
        loops: sum(loops, 1)?,
    })
}

impl Ways {
    /// Out of a body with its end at the place `last`, in no loop. What an accept does is within the step that opens its frame.
    pub fn of_body(alloc: Global, within: Option<usize>, last: usize) -> Ways
        ensures { (out : ℕ) → around out result ≡ record (in_call within last) { out = out } }
    {
        Ways {
            within,
            exits: Vec::new(alloc),
            back: Way { to: last, loops: 0 },
        }
    }

    /// How many there are.
    pub fn count(&self) -> Result<usize, AllocError>
        ensures { IfOk result (λ n. n ≡ ways_count (around 0 self.now)) }
    {
        sum(self.exits.len(), 1)
    }

    /// That of an exit out of the loop that is this number of loops further out than the innermost one; to `next` where
    /// there is none.
    pub fn exit(&self, further: usize, next: usize) -> Way
        ensures { plain_way result ≡
            slice_index_or (map plain_way self.now.exits.items) further (way_to next) }
    {
        match self.exits.get(further) {
            Some(way) => *way,
            None => Way { to: next, loops: 0 },
        }
    }

    /// Within a loop that has no frame, behind which is the step at this place.
    pub fn in_loop(&self, alloc: Global, next: usize) -> Result<Ways, AllocError>
        ensures { IfOk result (λ ways. (out : ℕ) →
            around out ways ≡ in_loop next (around out self.now)) }
    {
        let mut exits = Vec::new(alloc);
        exits.push(Way { to: next, loops: 0 })?;
        for way in &self.exits {
            exits.push(*way)?;
        }
        Ok(Ways {
            within: self.within,
            exits,
            back: self.back,
        })
    }

    /// Within a `for` loop whose step stands at a place, behind which is the step `next`: its frame is left on each way.
    pub fn in_for(&self, alloc: Global, place: usize, next: usize) -> Result<Ways, AllocError>
        ensures { IfOk result (λ ways. (out : ℕ) →
            around out ways ≡ in_for place next (around out self.now)) }
    {
        let mut exits = Vec::new(alloc);
        exits.push(Way { to: next, loops: 1 })?;
        for way in &self.exits {
            exits.push(with_loop(*way)?)?;
        }
        Ok(Ways {
            within: Some(place),
            exits,
            back: with_loop(self.back)?,
        })
    }

    /// Within a block whose step stands at a place and whose end is at the place `last`: behind it stands a line for each way,
    /// which leaves the block.
    pub fn in_block(&self, alloc: Global, opener: usize, last: usize) -> Result<Ways, AllocError>
        ensures { IfOk result (λ ways. (out : ℕ) →
            around out ways ≡ record (in_block opener last (around out self.now)) { out = out }) }
    {
        let mut exits = Vec::new(alloc);
        let mut place = last;
        for _ in &self.exits {
            place = sum(place, 1)?;
            exits.push(Way {
                to: place,
                loops: 0,
            })?;
        }
        Ok(Ways {
            within: Some(opener),
            exits,
            back: Way {
                to: sum(place, 1)?,
                loops: 0,
            },
        })
    }
}
