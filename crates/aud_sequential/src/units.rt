// The bodies of a program, by their numbers.

ghost use Rattle.std.specs.Prelude.{◌≡◌};
ghost use Rattle.aud_sequential.specs.Shown.{plans_of, unit_in};

use aud_text::place::Pos;
use aud_typed::program::Unit;

/// How many frames a body sees besides its own.
pub(crate) fn level_of(units: &[Unit], number: usize) -> usize
    ensures { result ≡ (unit_in (plans_of units.now) number).level }
{
    match units.get(number) {
        Some(unit) => unit.level,
        None => 0,
    }
}

/// The number of the table of its formals and variables.
pub(crate) fn region_of(units: &[Unit], number: usize) -> usize
    ensures { result ≡ (unit_in (plans_of units.now) number).region }
{
    match units.get(number) {
        Some(unit) => unit.region,
        None => 0,
    }
}

/// Whether it is a function's.
pub fn is_function(units: &[Unit], number: usize) -> bool
    ensures { result ≡ (unit_in (plans_of units.now) number).is_function }
{
    match units.get(number) {
        Some(unit) => unit.is_function,
        None => false,
    }
}

/// Where it begins in the text.
pub(crate) fn place_of(units: &[Unit], number: usize) -> Pos
    ensures { result ≡ (unit_in (plans_of units.now) number).at }
{
    match units.get(number) {
        Some(unit) => unit.at,
        None => Pos { line: 0, col: 0 },
    }
}

/// Where the `end` of its body stands.
pub fn end_of(units: &[Unit], number: usize) -> Pos
    ensures { result ≡ (unit_in (plans_of units.now) number).end }
{
    match units.get(number) {
        Some(unit) => unit.body.end,
        None => Pos { line: 0, col: 0 },
    }
}
