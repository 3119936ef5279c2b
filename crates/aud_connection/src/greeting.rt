// What a connection is told before it asks.

ghost use Rattle.std.specs.Prelude.{◌≡◌, IfOk};
ghost use Rattle.aud_text.specs.Ties.Adds.{Adds};
ghost use Rattle.aud_connection.specs.Greeting.{greeting, seat_line, seat_lines};

use aud_text::digits::push_decimal;
use aud_text::limits::Limits;
use std::alloc::{AllocError, Global};

/// The text of the greeting of a desk whose seats have these limits: the name and version of the protocol, and for each seat, in
/// the order of their numbers, its tasks and the bytes of its source texts.
///
/// # Errors
///
/// Where memory is refused.
pub fn greeting(alloc: Global, seats: &[Limits]) -> Result<Vec<u8>, AllocError>
    ensures { IfOk result (λ text. text.items ≡ greeting seats.now) }
{
    let mut out = Vec::new(alloc);
    push_greeting(&mut out, seats)?;
    Ok(out)
}

fn push_greeting(out: &mut Vec<u8>, seats: &[Limits]) -> Result<(), AllocError>
    ensures { Adds result out.old out.new (greeting seats.now) }
{
    out.extend_from_slice(b"+ ")?;
    push_decimal(out, seats.len() as u64 + 1)?;
    out.extend_from_slice(b"\naud 2\n")?;
    push_seats(out, seats)
}

fn push_seats(out: &mut Vec<u8>, seats: &[Limits]) -> Result<(), AllocError>
    ensures { Adds result out.old out.new (seat_lines 1 seats.now) }
{
    for index in 0..seats.len() {
        push_seat(out, index as u64 + 1, seats[index])?;
    }
    Ok(())
}

fn push_seat(out: &mut Vec<u8>, number: u64, limits: Limits) -> Result<(), AllocError>
    ensures { Adds result out.old out.new (seat_line number limits) }
{
    out.extend_from_slice(b"seat ")?;
    push_decimal(out, number)?;
    out.extend_from_slice(b" tasks ")?;
    push_decimal(out, u64::from(limits.tasks))?;
    out.extend_from_slice(b" source ")?;
    push_decimal(out, u64::from(limits.source))?;
    out.extend_from_slice(b"\n")
}
