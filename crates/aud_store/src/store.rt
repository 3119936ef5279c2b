// All frames ever made, and those that are open.

ghost use Rattle.std.specs.Prelude.{◌≡◌, ◌<◌, ◌∷◌, ◌++◌, [], None, suc, pos, length, replicate, nat_le, IsNone, IsSome, IfSome, OnSome, OnOk, OnErr, IfOk, slice_index_or, slice_set};
ghost use Rattle.aud_text.specs.declared.limits.TheConstants.{FRAMES};
ghost use Rattle.aud_meaning.specs.Evaluation.{frame_at};
ghost use Rattle.aud_meaning.specs.Effects.{innermost, elaborated_in, handled, live_frames};
ghost use Rattle.aud_meaning.specs.Ties.Stack.{closed, closed_times};
ghost use Rattle.aud_store.specs.Ties.Frames.{only_named};
ghost use Rattle.aud_store.specs.Ties.Stored.{copies_of, declared, entered_after, innermost_cell};
ghost use Rattle.aud_store.specs.Ties.Stored.{kept_by, plain_purpose, stored, with_function_value, IsInnermost};

use crate::cells::Cells;
use crate::frames::Frames;
use crate::purpose::Purpose;
use crate::stack::{Open, Stack};
use crate::target::Back;
use aud_text::int32::Int32;
use aud_text::place::Pos;
use aud_typed::program::{Exception, Variable};
use std::alloc::{AllocError, Global};
use std::marker::Model;
use std::mem;

/// The frames of a program: all that were ever made, of whichever task, and those that are open of the task whose part
/// lies here, if one does.
#[derive(Drop)]
pub struct Store {
    frames: Frames,
    stack: Stack,
}

impl Model for Store {
    ghost use Rattle.aud_store.specs.Ties.Stored.{Stored};

    ghost Value = { Stored };

    ghost view = { λ s. record { frames = s.frames; stack = s.stack } };
}

impl Store {
    /// No frames.
    pub fn new(alloc: Global) -> Self
        ensures { result ≡
            record { frames = []; stack = record { display = []; opened = [] } } }
    {
        Store {
            frames: Frames::new(alloc),
            stack: Stack::new(alloc),
        }
    }

    /// Another task acts: its stack comes in place of the one that is here, which is handed back. No frame is copied.
    pub fn exchange(&mut self, other: &mut Stack)
        ensures here { self.new ≡ record self.old { stack = other.old } }
        ensures there { other.new ≡ self.old.stack }
    {
        mem::swap(&mut self.stack, other);
    }

    /// A frame with these cells is opened, those of the names that are elaborated; these formals are copied back at its end. It
    /// gives the frame's number.
    pub fn enter(
        &mut self,
        alloc: Global,
        purpose: Purpose,
        backs: &[Back],
        region: usize,
        at: Pos,
        cells: &[Int32],
        elaborated: usize,
    ) -> Result<usize, AllocError>
        requires copies { copies_of purpose ≡ length backs.now }
        ensures number { IfOk result (λ frame. frame ≡ length self.old.frames) }
        ensures entered { OnOk result (self.new ≡
            entered_after (plain_purpose purpose backs.now) region at cells.now elaborated
            (kept_by purpose self.old.stack.display) self.old) }
        ensures kept { OnErr result (self.new ≡ self.old) }
    {
        let frame = self.frames.len();
        self.stack
            .enter(purpose, backs, frame, region, at, elaborated)?;
        if let Err(failure) = self.frames.enter(alloc, cells) {
            self.stack.leave();
            return Err(failure);
        }
        Ok(frame)
    }

    /// A frame with these cells is opened that sees the frames of a display, and no other besides its own. It gives the frame's
    /// number.
    pub fn enter_apart(
        &mut self,
        alloc: Global,
        purpose: Purpose,
        backs: &[Back],
        display: &[usize],
        region: usize,
        at: Pos,
        cells: &[Int32],
    ) -> Result<usize, AllocError>
        requires copies { copies_of purpose ≡ length backs.now }
        ensures number { IfOk result (λ frame. frame ≡ length self.old.frames) }
        ensures entered { OnOk result (self.new ≡
            entered_after (plain_purpose purpose backs.now) region at cells.now
            (length cells.now) display.now self.old) }
        ensures kept { OnErr result (self.new ≡ self.old) }
    {
        let frame = self.frames.len();
        let elaborated = cells.len();
        self.stack
            .enter_apart(purpose, backs, display, frame, region, at, elaborated)?;
        if let Err(failure) = self.frames.enter(alloc, cells) {
            self.stack.leave();
            return Err(failure);
        }
        Ok(frame)
    }

    /// A frame with these cells is made that no task opens, as that of an object's components. It gives the frame's number.
    pub fn make(&mut self, alloc: Global, cells: &[Int32]) -> Result<usize, AllocError>
        ensures number { IfOk result (λ frame. frame ≡ length self.old.frames) }
        ensures made { OnOk result (self.new ≡ record self.old {
          frames = self.old.frames ++ cells.now ∷ [];
        }) }
        ensures kept { OnErr result (self.new ≡ self.old) }
    {
        let frame = self.frames.len();
        self.frames.enter(alloc, cells)?;
        Ok(frame)
    }

    /// Whether one frame more is allowed.
    pub fn has_room(&self) -> bool
        ensures { result ≡ nat_le (suc (live_frames self.now.stack.opened)) FRAMES }
    {
        self.stack.has_room()
    }

    /// The innermost frame is left.
    pub fn leave(&mut self)
        ensures { self.new ≡ record self.old { stack = closed self.old.stack } }
    {
        self.stack.leave();
    }

    /// The innermost frame is left, and that around it, so many of them.
    pub fn leave_times(&mut self, n: usize)
        ensures { self.new ≡ record self.old { stack = closed_times n self.old.stack } }
    {
        self.stack.leave_times(n);
    }

    /// A function's value waits for the end of its call (RM 6.5).
    pub fn set_value(&mut self, value: Int32)
        ensures { self.new ≡
            record self.old { stack = with_function_value value self.old.stack } }
    {
        self.stack.set_value(value);
    }

    /// The exception that is being handled (RM 11.3(5)).
    pub fn handled(&self) -> Option<Exception>
        ensures { result ≡ handled self.now.stack.opened None }
    {
        self.stack.handled()
    }

    /// The innermost open frame.
    pub fn innermost(&self) -> Option<Open>
        ensures { IsInnermost result self.now.stack.opened }
    {
        self.stack.innermost()
    }

    /// How many names are elaborated in the innermost frame.
    pub fn elaborated(&self) -> usize
        ensures { result ≡ elaborated_in self.now.stack.opened }
    {
        self.stack.elaborated()
    }

    /// One more name of the innermost frame, with its cell (RM 3.3.1).
    pub fn declare(&mut self, value: Int32) -> Result<(), AllocError>
        ensures declared { OnOk result (self.new ≡ declared (value ∷ []) self.old) }
        ensures kept { OnErr result (self.new ≡ self.old) }
    {
        self.declare_all(1, value)
    }

    /// One more name of the innermost frame, with so many cells, each with this value (RM 3.6).
    pub fn declare_all(&mut self, count: usize, value: Int32) -> Result<(), AllocError>
        ensures declared { OnOk result (self.new ≡ declared (replicate count value) self.old) }
        ensures kept { OnErr result (self.new ≡ self.old) }
    {
        let elaborated = self.elaborated().checked_add(1).ok_or(AllocError)?;
        let frame = self.innermost_number();
        if frame < self.frames.len() {
            self.frames.declare(frame, count, value)?;
        }
        self.stack.set_elaborated(elaborated);
        Ok(())
    }

    /// One more name of the innermost frame, with these cells (RM 3.3.1).
    pub fn declare_cells(&mut self, cells: &[Int32]) -> Result<(), AllocError>
        ensures declared { OnOk result (self.new ≡ declared cells.now self.old) }
        ensures kept { OnErr result (self.new ≡ self.old) }
    {
        let elaborated = self.elaborated().checked_add(1).ok_or(AllocError)?;
        let frame = self.innermost_number();
        if frame < self.frames.len() {
            self.frames.extend(frame, cells)?;
        }
        self.stack.set_elaborated(elaborated);
        Ok(())
    }

    /// What a cell of the innermost frame holds, or 0 where there is none of this number.
    pub fn innermost_cell(&self, index: usize) -> Int32
        ensures { result ≡ innermost_cell index self.now }
    {
        self.load_at(self.innermost_number(), index)
    }

    /// Another value of the first cell of the innermost frame, a loop's parameter.
    pub fn set_loop(&mut self, value: Int32)
        ensures { self.new ≡ stored (innermost self.old.stack.opened) 0 value self.old }
    {
        self.assign(self.innermost_number(), 0, value);
    }

    /// What a variable's cell holds, or 0 where there is none.
    pub fn load(&self, variable: Variable) -> Int32
        ensures { result ≡ slice_index_or
            (frame_at self.now.stack.display self.now.frames variable.level)
            variable.index (pos 0) }
    {
        let frame = self.display().get(variable.level).copied().unwrap_or(0);
        self.load_at(frame, variable.index)
    }

    /// Another value of a cell; where there is none of this number, nothing changes.
    #[inline(always)]
    pub fn assign(&mut self, frame: usize, index: usize, value: Int32)
        ensures { self.new ≡ stored frame index value self.old }
    {
        if frame < self.frames.len() {
            self.frames.assign(frame, index, value);
        }
    }

    /// Other cells of a frame. It gives those that it had; none where there is no such frame or it was given back, and
    /// then nothing changes. No memory is taken.
    pub fn replace(&mut self, frame: usize, cells: Cells) -> Option<Cells>
        ensures within { OnSome result (frame < length self.old.frames) }
        ensures given { IfSome result (λ given.
            given.items ≡ slice_index_or self.old.frames frame []) }
        ensures replaced { OnSome result (self.new ≡ record self.old {
          frames = slice_set self.old.frames frame cells.items;
        }) }
        ensures kept { IsNone result → self.new ≡ self.old }
        ensures some { 0 < length (slice_index_or self.old.frames frame []) → IsSome result }
    {
        if frame < self.frames.len() {
            return self.frames.replace(frame, cells);
        }
        None
    }

    /// The numbers of the frames that are seen, outermost first.
    #[inline(always)]
    pub fn display(&self) -> &[usize]
        ensures { result.now ≡ self.now.stack.display }
    {
        self.stack.display()
    }

    /// All frames ever made, by their numbers.
    #[inline(always)]
    pub fn frames(&self) -> &Frames
        ensures { result.now ≡ self.now.frames }
    {
        &self.frames
    }

    /// The key under which the cells of a frame lie; none for the first frame and for one that was given back.
    pub fn key(&self, frame: usize) -> Option<usize>
        ensures { IsNone result → 0 < frame → slice_index_or self.now.frames frame [] ≡ [] }
    {
        self.frames.key(frame)
    }

    /// All frames are given back but the first one and those of these numbers, which are put in order meanwhile.
    pub fn forget(&mut self, named: &mut [usize])
        ensures { self.new ≡
            record self.old { frames = only_named named.old self.old.frames } }
    {
        self.frames.forget(named);
    }

    /// Whether so much was entered and declared since the last `forget` that another one is worth its time. Any answer is right.
    pub fn is_due(&self) -> bool {
        self.frames.is_due()
    }

    /// The open frames of the task whose part lies here.
    pub fn stack(&self) -> &Stack
        ensures { result.now ≡ self.now.stack }
    {
        &self.stack
    }

    /// The number of the innermost frame, or 0 where none is open.
    pub fn innermost_number(&self) -> usize
        ensures { result ≡ innermost self.now.stack.opened }
    {
        match self.innermost() {
            Some(open) => open.frame,
            None => 0,
        }
    }

    /// The cells of a frame; none where there is no frame of this number, or it was given back.
    pub fn cells(&self, frame: usize) -> &[Int32]
        ensures { result.now ≡ slice_index_or self.now.frames frame [] }
    {
        if frame < self.frames.len() {
            self.frames.frame(frame)
        } else {
            &[]
        }
    }

    // What a cell of a frame holds, or 0 where there is none.
    fn load_at(&self, frame: usize, index: usize) -> Int32
        ensures { result ≡ slice_index_or (slice_index_or self.now.frames frame []) index (pos 0) }
    {
        if frame < self.frames.len() {
            self.frames.load(frame, index)
        } else {
            Int32::new(0)
        }
    }
}
