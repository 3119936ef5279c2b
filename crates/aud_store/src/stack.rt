// The open frames, which lie in one another.

ghost use Rattle.std.specs.Prelude.{◌≡◌, ℕ, suc, [], ◌++◌, None, Bool, Result, filter, length, map, nat_le, reverse, take, IfOk, OnOk, OnErr};
ghost use Rattle.std.specs.List.{filter_map, list_any};
ghost use Rattle.aud_text.specs.declared.limits.TheConstants.{FRAMES};
ghost use Rattle.aud_text.specs.declared.raise.Raise.{Raise as RaiseOf};
ghost use Rattle.aud_typed.specs.Tree.{Plan};
ghost use Rattle.aud_meaning.specs.Effects.{elaborated_in, handled, innermost, is_counted, live_frames, outermost};
ghost use Rattle.aud_meaning.specs.Evaluation.{Sight};
ghost use Rattle.aud_meaning.specs.Listings.{is_served};
ghost use Rattle.aud_meaning.specs.Parts.{any, is_master};
ghost use Rattle.aud_meaning.specs.Ties.Stack.{closed, closed_times, opens_after, out_of_loops};
ghost use Rattle.aud_store.specs.Ties.Extents.{extent, extent_in};
ghost use Rattle.aud_store.specs.Ties.Named.{names_of, NamesAll};
ghost use Rattle.aud_store.specs.Ties.Stored.{accepted_for, accepted_in, copies_of, innermost_backs, is_in_loop, is_served_for, kept_by};
ghost use Rattle.aud_store.specs.Ties.Stored.{plain_open, plain_purpose, served_for, served_in, valued, with_function_value};
ghost use Rattle.aud_store.specs.Ties.Stored.{with_handling, with_elaborated};
ghost use Rattle.aud_store.specs.Ties.Stored.{IsInnermost};

use crate::display::{Display, Replaced};
use crate::purpose::Purpose;
use crate::target::Back;
use aud_text::int32::Int32;
use aud_text::limits::FRAMES;
use aud_text::place::Pos;
use aud_typed::program::Exception;
use std::alloc::{AllocError, Global};
use std::marker::Model;

/// An open frame: its number, the table of its variables, how many of their names are elaborated; the exception that its
/// construct handles; the place of the statement that opened it, and what for; what its number stands in place of.
#[derive(Clone, Copy)]
pub struct Open {
    pub frame: usize,
    pub region: usize,
    pub elaborated: usize,
    pub handling: Option<Exception>,
    pub at: Pos,
    pub purpose: Purpose,
    pub replaced: Replaced,
}

impl Open {
    // Whether it is a master's (RM 9.3(2)).
    fn is_master(&self) -> bool
        ensures { result ≡ is_master (plain_open self.now [] []) }
    {
        match self.purpose {
            Purpose::Body | Purpose::Block | Purpose::Procedure { .. } => true,
            Purpose::Loop
            | Purpose::Operation { .. }
            | Purpose::Entry { .. }
            | Purpose::Accept { .. } => false,
        }
    }

    // Appends its number, and the one that it stands in place of.
    fn names(&self, into: &mut Vec<usize>) -> Result<(), AllocError>
        ensures { OnOk result (into.new.items ≡ into.old.items ++ names_of self.now) }
    {
        into.push(self.frame)?;
        let Some(number) = self.replaced.number() else {
            return Ok(());
        };
        into.push(number)?;
        Ok(())
    }
}

/// The open frames of a task, the innermost one last; the numbers of the frames that are seen; and the formals that are copied
/// back at the ends of all calls, those of the innermost call last.
#[derive(Drop)]
pub struct Stack {
    opened: Vec<Open>,
    display: Display,
    backs: Vec<Back>,
}

impl Model for Stack {
    ghost use Rattle.std.specs.Prelude.{reverse};
    ghost use Rattle.aud_meaning.specs.Ties.Stack.{Stack as Plain};
    ghost use Rattle.aud_store.specs.Ties.Display.{seen};
    ghost use Rattle.aud_store.specs.Ties.Stored.{plain_opened, ArePlaced};

    ghost Value = { Plain };

    ghost view = { λ s. record {
      display = seen s.display;
      opened = plain_opened s.display (reverse s.opened.items) s.backs.items;
    } };

    ghost invariant = { λ s. ArePlaced s.display (reverse s.opened.items) };
}

impl Stack {
    /// No open frame, and none that is seen.
    pub fn new(alloc: Global) -> Self
        ensures { result ≡ record { display = []; opened = [] } }
    {
        Stack {
            opened: Vec::new(alloc),
            display: Display::new(alloc),
            backs: Vec::new(alloc),
        }
    }

    /// No open frame, and so many of these frames are seen from the outside, the outermost ones: those that the body of a task of
    /// this level sees where they are seen at its declaration (RM 8.3).
    pub fn within(alloc: Global, display: &[usize], level: usize) -> Result<Self, AllocError>
        ensures { IfOk result (λ stack. stack ≡
            record { display = take level display.now; opened = [] }) }
    {
        let outer = &display[..level.min(display.len())];
        Ok(Stack {
            opened: Vec::new(alloc),
            display: Display::of(alloc, outer)?,
            backs: Vec::new(alloc),
        })
    }

    /// A frame of this number is opened, in which so many names are elaborated; these formals are copied back at its end.
    pub(crate) fn enter(
        &mut self,
        purpose: Purpose,
        backs: &[Back],
        frame: usize,
        region: usize,
        at: Pos,
        elaborated: usize,
    ) -> Result<(), AllocError>
        requires copies { copies_of purpose ≡ length backs.now }
        ensures entered { OnOk result (self.new ≡
            opens_after (plain_purpose purpose backs.now) frame region at elaborated
            (kept_by purpose self.old.display) self.old) }
        ensures kept { OnErr result (self.new ≡ self.old) }
    {
        // Room first, so that nothing is half done.
        self.opened.reserve(1)?;
        let kept = purpose.kept(self.display.len());
        let replaced = self.display.enter(kept, frame)?;
        if let Err(failure) = self.backs.extend_from_slice(backs) {
            self.display.leave(replaced);
            return Err(failure);
        }
        self.opened.push(Open {
            frame,
            region,
            elaborated,
            handling: None,
            at,
            purpose,
            replaced,
        })?;
        Ok(())
    }

    /// A frame of this number is opened that sees the frames of a display, and no other besides its own.
    pub(crate) fn enter_apart(
        &mut self,
        purpose: Purpose,
        backs: &[Back],
        display: &[usize],
        frame: usize,
        region: usize,
        at: Pos,
        elaborated: usize,
    ) -> Result<(), AllocError>
        requires copies { copies_of purpose ≡ length backs.now }
        ensures entered { OnOk result (self.new ≡
            opens_after (plain_purpose purpose backs.now) frame region at elaborated
            display.now self.old) }
        ensures kept { OnErr result (self.new ≡ self.old) }
    {
        self.opened.reserve(1)?;
        let replaced = self.display.enter_apart(display, frame)?;
        if let Err(failure) = self.backs.extend_from_slice(backs) {
            self.display.leave(replaced);
            return Err(failure);
        }
        self.opened.push(Open {
            frame,
            region,
            elaborated,
            handling: None,
            at,
            purpose,
            replaced,
        })?;
        Ok(())
    }

    /// The innermost one is left.
    pub fn leave(&mut self)
        ensures { self.new ≡ closed self.old }
    {
        if let Some(open) = self.opened.pop() {
            self.display.leave(open.replaced);
            let outer = self.backs.len().saturating_sub(open.purpose.copies());
            self.backs.truncate(outer);
        }
    }

    /// The innermost one is left, and that around it, so many of them.
    pub fn leave_times(&mut self, n: usize)
        ensures { self.new ≡ closed_times n self.old }
    {
        for _ in 0..n {
            self.leave();
        }
    }

    /// The frames of the loops within the innermost construct are left.
    pub fn leave_loops(&mut self)
        ensures { self.new ≡ out_of_loops self.old }
    {
        while self.is_in_loop() {
            self.leave();
        }
    }

    /// The innermost open frame.
    pub fn innermost(&self) -> Option<Open>
        ensures { IsInnermost result self.now.opened }
    {
        self.opened.last().copied()
    }

    /// Its number, or 0 where none is open.
    pub fn innermost_number(&self) -> usize
        ensures { result ≡ innermost self.now.opened }
    {
        match self.innermost() {
            Some(open) => open.frame,
            None => 0,
        }
    }

    /// The calls whose accepts are under way, the innermost one first.
    pub fn accepts(&self, alloc: Global) -> Result<Vec<usize>, AllocError>
        ensures { IfOk result (λ calls. calls.items ≡ accepted_in self.now.opened) }
    {
        let calls = accepted_of(alloc, &self.opened)?;
        Ok(calls)
    }

    /// The calls whose accepts or entry bodies are under way, the innermost one first.
    pub fn served(&self, alloc: Global) -> Result<Vec<usize>, AllocError>
        ensures { IfOk result (λ calls. calls.items ≡ served_in self.now.opened) }
    {
        let calls = served_of(alloc, &self.opened)?;
        Ok(calls)
    }

    /// Whether an entry body is under way for another task's call.
    pub fn is_serving(&self) -> bool
        ensures { (plan : Plan) → (barrier : ℕ → Sight → Result Bool RaiseOf) →
            result ≡ any (is_served plan barrier) self.now.opened }
    {
        is_any_served(&self.opened)
    }

    /// The innermost one but for loops within it: that of the construct which is left next.
    pub fn construct(&self) -> Option<Open>
        ensures { IsInnermost result (out_of_loops self.now).opened }
    {
        self.opened
            .iter()
            .rev()
            .find(|open| !open.purpose.is_loop())
            .copied()
    }

    /// Whether the innermost one is a loop's.
    #[tactic(auto, using(crate::proofs::Opened::same_loop))]
    pub(crate) fn is_in_loop(&self) -> bool
        ensures { result ≡ is_in_loop self.now.opened }
    {
        match self.innermost() {
            Some(open) => open.purpose.is_loop(),
            None => false,
        }
    }

    /// The formals that are copied back at the end of the innermost one, in the order of the text.
    pub fn backs(&self) -> &[Back]
        ensures { result.now ≡ innermost_backs self.now.opened }
    {
        let copies = match self.opened.last() {
            Some(open) => open.purpose.copies(),
            None => 0,
        };
        let first = self.backs.len().saturating_sub(copies);
        &self.backs[first..]
    }

    /// How many names are elaborated in the innermost one.
    pub(crate) fn elaborated(&self) -> usize
        ensures { result ≡ elaborated_in self.now.opened }
    {
        match self.innermost() {
            Some(open) => open.elaborated,
            None => 0,
        }
    }

    /// The construct of the innermost one handles an exception.
    pub fn handle(&mut self, exception: Exception)
        ensures { self.new ≡ with_handling exception self.old }
    {
        if let Some(open) = self.opened.last_mut() {
            open.handling = Some(exception);
        }
    }

    /// The exception that is being handled (RM 11.3(5)).
    pub(crate) fn handled(&self) -> Option<Exception>
        ensures { result ≡ handled self.now.opened None }
    {
        let open = self
            .opened
            .iter()
            .rev()
            .find(|open| open.handling.is_some())?;
        open.handling
    }

    /// A function's value waits for the end of its call (RM 6.5).
    pub(crate) fn set_value(&mut self, value: Int32)
        ensures { self.new ≡ with_function_value value self.old }
    {
        give_value(&mut self.opened, value);
    }

    /// So many names are elaborated in the innermost one.
    pub(crate) fn set_elaborated(&mut self, elaborated: usize)
        ensures { self.new ≡ with_elaborated elaborated self.old }
    {
        if let Some(open) = self.opened.last_mut() {
            open.elaborated = elaborated;
        }
    }

    /// Whether one frame more is allowed; those of accepts and entry bodies are not counted.
    pub fn has_room(&self) -> bool
        ensures { result ≡ nat_le (suc (live_frames self.now.opened)) FRAMES }
    {
        // Where so few are open, it does not matter which of them are counted.
        if self.opened.len() < FRAMES as usize {
            return true;
        }
        self.live() < FRAMES as usize
    }

    // How many open frames are counted.
    fn live(&self) -> usize
        ensures { result ≡ live_frames self.now.opened }
    {
        count_live(&self.opened)
    }

    /// The frames of the masters under way, the innermost one first (RM 9.3).
    pub fn masters(&self, alloc: Global) -> Result<Vec<usize>, AllocError>
        ensures { IfOk result (λ frames. frames.items ≡
            map (λ o. o.frame) (filter is_master self.now.opened)) }
    {
        let masters = masters_of(alloc, &self.opened)?;
        Ok(masters)
    }

    /// All open frames, the innermost one first.
    pub fn frames(&self, alloc: Global) -> Result<Vec<usize>, AllocError>
        ensures { IfOk result (λ frames. frames.items ≡ map (λ o. o.frame) self.now.opened) }
    {
        let frames = numbers_of(alloc, &self.opened)?;
        Ok(frames)
    }

    /// All open frames, the outermost one first.
    #[tactic(auto, using(crate::proofs::Extents::extents_reversed))]
    pub fn opened(&self) -> &[Open]
        ensures { map extent_in result.now ≡ map extent (reverse self.now.opened) }
    {
        &self.opened
    }

    /// Appends the numbers of all frames that it names, and no other: of those that are seen or hidden, of those that
    /// are open, and of those that an open one stands in place of. Some may be there more than once.
    pub fn names(&self, into: &mut Vec<usize>) -> Result<(), AllocError>
        ensures { OnOk result
            (NamesAll into.old.items into.new.items self.now.display self.now.opened) }
    {
        into.extend_from_slice(self.display.all())?;
        for open in &self.opened {
            open.names(into)?;
        }
        Ok(())
    }

    /// The outermost open frame, which is a body's; 0 where none is open.
    pub fn outermost(&self) -> usize
        ensures { result ≡ outermost self.now.opened }
    {
        match self.opened.first() {
            Some(open) => open.frame,
            None => 0,
        }
    }

    /// The numbers of the frames that are seen, outermost first.
    #[inline(always)]
    pub fn display(&self) -> &[usize]
        ensures { result.now ≡ self.now.display }
    {
        self.display.numbers()
    }
}

// A function's value waits in the last of these that was not opened within another execution.
fn give_value(opened: &mut Vec<Open>, value: Int32)
    ensures { reverse opened.new.items ≡ valued value (reverse opened.old.items) }
{
    for inner in 0..opened.len() {
        let at = opened.len() - 1 - inner;
        if !opened[at].purpose.is_inner() {
            opened[at].purpose = opened[at].purpose.with_value(value);
            return;
        }
    }
}

// The numbers of frames, the last one first.
fn numbers_of(alloc: Global, opened: &[Open]) -> Result<Vec<usize>, AllocError>
    ensures { IfOk result (λ frames. frames.items ≡ map (λ o. o.frame) (reverse opened.now)) }
{
    opened.iter().rev().map(|open| open.frame).collect(alloc)
}

// How many of these are counted.
fn count_live(opened: &[Open]) -> usize
    ensures { result
        ≡ length (filter (λ o. is_counted (plain_purpose o.purpose [])) (reverse opened.now)) }
{
    opened
        .iter()
        .rev()
        .filter(|open| open.purpose.is_counted())
        .count()
}

// The calls of those that are accepts', the last one first.
fn accepted_of(alloc: Global, opened: &[Open]) -> Result<Vec<usize>, AllocError>
    ensures { IfOk result (λ calls. calls.items ≡
        filter_map (λ o. accepted_for o.purpose) (reverse opened.now)) }
{
    opened
        .iter()
        .rev()
        .filter_map(|open| open.purpose.accepted())
        .collect(alloc)
}

// Those of accepts and entry bodies.
fn served_of(alloc: Global, opened: &[Open]) -> Result<Vec<usize>, AllocError>
    ensures { IfOk result (λ calls. calls.items ≡
        filter_map (λ o. served_for o.purpose) (reverse opened.now)) }
{
    opened
        .iter()
        .rev()
        .filter_map(|open| open.purpose.served())
        .collect(alloc)
}

// Whether one of these is an entry body's, for another task's call.
fn is_any_served(opened: &[Open]) -> bool
    ensures { result ≡ list_any (λ o. is_served_for o.purpose) (reverse opened.now) }
{
    opened.iter().rev().any(|open| open.purpose.is_served())
}

// Those of masters.
fn masters_of(alloc: Global, opened: &[Open]) -> Result<Vec<usize>, AllocError>
    ensures { IfOk result (λ frames. frames.items ≡
        map (λ o. o.frame) (filter (λ o. is_master (plain_open o [] [])) (reverse opened.now))) }
{
    opened
        .iter()
        .rev()
        .filter(|open| open.is_master())
        .map(|open| open.frame)
        .collect(alloc)
}
