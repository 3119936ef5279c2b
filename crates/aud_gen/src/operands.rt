// The table of operands beside code.

ghost use Rattle.std.specs.Prelude.{◌≡◌, map, IfOk};
ghost use Rattle.aud_code.specs.View.{plain_line};
ghost use Rattle.aud_code.specs.Tabled.{changed, counts, table_of};

use aud_code::counts::{Counts, Effect, NOTHING, effect_of};
use aud_code::line::Line;
use aud_layout::sum::sum;
use std::alloc::{AllocError, Global};

/// How many operands stand before each line. They are refused only where memory is refused.
pub fn operands(alloc: Global, lines: &[Line]) -> Result<Vec<Counts>, AllocError>
    ensures { IfOk result (λ table. map counts table.items ≡ table_of (map plain_line lines.now)) }
{
    let mut table = Vec::with_capacity(alloc, lines.len())?;
    let mut before = NOTHING;
    for line in lines {
        table.push(before)?;
        before = match line {
            Line::Instruction(instruction) => after(effect_of(instruction), before)?,
            Line::End(_) => NOTHING,
        };
    }
    Ok(table)
}

// What an instruction makes of these.
fn after(effect: Effect, before: Counts) -> Result<Counts, AllocError>
    ensures { IfOk result (λ after. counts after ≡ changed effect (counts before)) }
{
    let Effect { takes, leaves } = effect;
    Ok(Counts {
        integers: sum(
            before.integers.saturating_sub(takes.integers),
            leaves.integers,
        )?,
        booleans: sum(
            before.booleans.saturating_sub(takes.booleans),
            leaves.booleans,
        )?,
        targets: sum(before.targets.saturating_sub(takes.targets), leaves.targets)?,
        names: sum(before.names.saturating_sub(takes.names), leaves.names)?,
        cells: leaves.cells || before.cells,
    })
}
