// The table of operands that stands beside code: each line is checked against what is written before it and at each place that
// it leads to.

ghost use Rattle.std.specs.Prelude.{◌≡◌, ◌↔◌, List, length, map, drop, Some, slice_get, IsTrue};
ghost use Rattle.aud_code.specs.Flat.{FlatLine, instructions_from};
ghost use Rattle.aud_code.specs.Sound.{InstructionFine};
ghost use Rattle.aud_code.specs.View.{plain_instruction, plain_line};
ghost use Rattle.aud_code.specs.Verified.{Before, IsEnough};
ghost use Rattle.aud_code.specs.Tabled.{changed, counts, BeginsWithNone, FirstTabled, GoesOver};
ghost use Rattle.aud_code.specs.Tabled.{IsTabled, LeadsTo, Tabled};

use crate::counts::{Counts, Effect, effect_of, need_of_last};
use crate::instruction::Instruction;
use crate::line::Line;

/// Whether each line finds its operands among those that are written before it, and leaves those that are written where it
/// leads, in its own step.
pub(crate) fn is_tabled(lines: &[Line], table: &[Counts]) -> bool
    ensures { IsTrue result ↔ IsTabled (map plain_line lines.now) (map counts table.now) }
{
    begins_with_none(table) && are_tabled(lines, table)
}

#[tactic(auto, using(crate::proofs::Tabling::as_long))]
fn are_tabled(lines: &[Line], table: &[Counts]) -> bool
    ensures { IsTrue result ↔ Tabled (map plain_line lines.now) (map counts table.now) }
{
    lines.len() == table.len() && each_is_tabled(lines, table)
}

// Each line, from the last one on.
fn each_is_tabled(lines: &[Line], table: &[Counts]) -> bool
    requires { length lines.now ≡ length table.now }
    ensures { IsTrue result ↔ Tabled (map plain_line lines.now) (map counts table.now) }
{
    // How many instructions stand before the next ending.
    let mut count = 0;
    for place in (0..lines.len()).rev() {
        if !first_is_tabled(&lines[place..], count, &table[place..]) {
            return false;
        }
        count = match &lines[place] {
            Line::Instruction(_) => count + 1,
            Line::End(_) => 0,
        };
    }
    true
}

// The first line, where so many instructions of its step stand behind it.
fn first_is_tabled(lines: &[Line], behind: usize, table: &[Counts]) -> bool
    requires { Before (drop 1 (map plain_line lines.now)) behind }
    ensures { IsTrue result ↔ FirstTabled (map plain_line lines.now) (map counts table.now) }
{
    let Some((line, _)) = lines.split_first() else {
        return true;
    };
    let Some((before, next)) = table.split_first() else {
        return true;
    };
    match line {
        Line::Instruction(instruction) => leads_on(instruction, *before, behind, next),
        Line::End(end) => need_of_last(&end.last).are_among(*before) && begins_with_none(next),
    }
}

fn begins_with_none(table: &[Counts]) -> bool
    ensures { IsTrue result ↔ BeginsWithNone (map counts table.now) }
{
    match table.split_first() {
        Some((first, _)) => first.is_nothing(),
        None => true,
    }
}

// An instruction, where so many stand behind it.
fn leads_on(instruction: &Instruction, before: Counts, behind: usize, next: &[Counts]) -> bool
    ensures { (ls : List FlatLine) → Before ls behind → IsTrue result ↔
        InstructionFine (plain_instruction instruction.now) (LeadsTo ls (map counts next.now))
        (counts before) }
{
    let effect = effect_of(instruction);
    effect.takes.are_among(before)
        && makes(effect, before, next)
        && goes_over(instruction, before, behind, next)
}

fn makes(effect: Effect, before: Counts, next: &[Counts]) -> bool
    requires { IsEnough effect.takes (counts before) }
    ensures { IsTrue result ↔
        (slice_get (map counts next.now) 0 ≡ Some (changed effect (counts before))) }
{
    match next.split_first() {
        Some((first, _)) => effect.makes(before, *first),
        None => false,
    }
}

// Where it leads besides, to its step's ending at the furthest.
fn goes_over(instruction: &Instruction, before: Counts, behind: usize, next: &[Counts]) -> bool
    ensures { (ls : List FlatLine) → Before ls behind → IsTrue result ↔
        GoesOver (plain_instruction instruction.now) (LeadsTo ls (map counts next.now))
        (counts before) }
{
    match instruction {
        Instruction::PassIfFalse(passed)
        | Instruction::PassIfTrue(passed)
        | Instruction::PassUnlessNext(_, passed) => {
            *passed <= behind && stands(before, next, *passed)
        }
        _ => true,
    }
}

// Whether these operands are written before the line that passes a number of others.
fn stands(before: Counts, next: &[Counts], passed: usize) -> bool
    ensures { IsTrue result ↔ (slice_get (map counts next.now) passed ≡ Some (counts before)) }
{
    match next.get(passed) {
        Some(there) => there.is_same(before),
        None => false,
    }
}
