// Numbers.

ghost use Rattle.aud_text.specs.Ties.Adds.{Adds};
ghost use Rattle.aud_meaning.specs.Parts.{number_name};

use aud_text::digits::push_decimal;
use std::alloc::AllocError;

/// Appends a number in decimal digits, behind a minus sign where it is negative.
pub(crate) fn push_number(out: &mut Vec<u8>, number: i64) -> Result<(), AllocError>
    ensures { Adds result out.old out.new (number_name number) }
{
    if number < 0 {
        out.push(b'-')?;
    }
    push_decimal(out, number.unsigned_abs())
}
