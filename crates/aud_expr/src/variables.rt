// Variables, as an evaluation sees them.

ghost use Rattle.std.specs.Prelude.{◌≡◌, [], pos, slice_index, slice_index_or, OnOk};
ghost use Rattle.aud_meaning.specs.Evaluation.{cell, target_at, Sight};
ghost use Rattle.aud_code.specs.Eval.{held, seen_in};
ghost use Rattle.aud_code.specs.Instruction.{Load, Find};
ghost use Rattle.aud_expr.specs.declared.flow.Flow.TheVariants.{Passes};
ghost use Rattle.aud_expr.specs.Flow.{InFrames, Reads};

use crate::operands::Operands;
use aud_store::frames::Frames;
use aud_store::target::Target;
use aud_text::int32::Int32;
use aud_typed::program::{Subtype, Variable};
use std::alloc::AllocError;

/// What a variable's cell holds, or 0 where there is none.
#[inline(always)]
pub fn value_of(variable: Variable, display: &[usize], frames: &Frames) -> Int32
    ensures { InFrames display.now frames.now (λ s. result ≡ cell variable s.sight) }
{
    cell_in(frames, frame_of(display, variable.level), variable.index)
}

/// The same where an object may be declared, whose cells so far are seen as one more frame, behind all others (RM 9.4).
pub fn value_seen(
    variable: Variable,
    display: &[usize],
    frames: &Frames,
    operands: &Operands,
) -> Int32
    ensures { InFrames display.now frames.now (λ s.
        result ≡ cell variable (seen_in operands.now.cells s.sight)) }
{
    let frame = frame_seen(display, variable.level, frames, operands);
    cell_seen(frames, frame, variable.index, operands)
}

/// What a target's cell holds, or 0 where there is none, where an object may be declared.
pub fn held(target: Target, frames: &Frames, operands: &Operands) -> Int32
    ensures { (s : Sight) → s.frames ≡ frames.now →
        result ≡ held target (seen_in operands.now.cells s).frames }
{
    cell_seen(frames, target.frame(), target.index(), operands)
}

// What a cell of a frame holds, or 0 where there is none, where an object may be declared.
fn cell_seen(frames: &Frames, frame: usize, index: usize, operands: &Operands) -> Int32
    ensures { (s : Sight) → s.frames ≡ frames.now → result ≡ slice_index_or
        (slice_index_or (seen_in operands.now.cells s).frames frame []) index (pos 0) }
{
    if frame == frames.len() {
        operands
            .cells()
            .get(index)
            .copied()
            .unwrap_or(Int32::new(0))
    } else {
        cell_in(frames, frame, index)
    }
}

/// What a cell of a frame holds, or 0 where there is none.
#[inline(always)]
pub fn cell_in(frames: &Frames, frame: usize, index: usize) -> Int32
    ensures { result ≡ slice_index_or (slice_index_or frames.now frame []) index (pos 0) }
{
    if frame < frames.len() {
        frames.load(frame, index)
    } else {
        Int32::new(0)
    }
}

/// The variable's cell, with its subtype, where an object may be declared.
pub fn target_seen(
    variable: Variable,
    subtype: Subtype,
    display: &[usize],
    frames: &Frames,
    operands: &Operands,
) -> Target
    ensures { InFrames display.now frames.now (λ s.
        result ≡ target_at subtype variable (seen_in operands.now.cells s.sight)) }
{
    let frame = frame_seen(display, variable.level, frames, operands);
    Target::new(frame, variable.index, subtype)
}

// The number of the frame at a level, or 0 where none is seen there, where an object may be declared.
fn frame_seen(display: &[usize], level: usize, frames: &Frames, operands: &Operands) -> usize
    ensures { InFrames display.now frames.now (λ s.
        result ≡ slice_index (seen_in operands.now.cells s.sight).display level) }
{
    if operands.declares() && level == display.len() {
        frames.len()
    } else {
        frame_of(display, level)
    }
}

/// The number of the frame at a level, or 0 where none is seen there.
#[inline(always)]
pub fn frame_of(display: &[usize], level: usize) -> usize
    ensures { result ≡ slice_index display.now level }
{
    display.get(level).copied().unwrap_or(0)
}

/// What the variable's cell holds, as one more Integer.
pub fn load(
    variable: Variable,
    display: &[usize],
    frames: &Frames,
    operands: &mut Operands,
) -> Result<(), AllocError>
    ensures { OnOk result
        (Reads display.now frames.now (Load variable) (Passes 0) operands.old operands.new) }
{
    let value = value_seen(variable, display, frames, operands);
    operands.push(value)
}

/// The variable's cell, as one more target.
pub fn find(
    variable: Variable,
    subtype: Subtype,
    display: &[usize],
    frames: &Frames,
    operands: &mut Operands,
) -> Result<(), AllocError>
    ensures { OnOk result (Reads display.now frames.now (Find variable subtype) (Passes 0)
        operands.old operands.new) }
{
    let target = target_seen(variable, subtype, display, frames, operands);
    operands.push_target(target)
}
