// Calls in a new hall, and the replies that must come, in the order of the calls.

use crate::fault::Fault;
use crate::halls::calls::{Calls, read_calls};
use crate::halls::words::{alone, texts, words};
use crate::repeated::TextFault;
use crate::session::Session;
use aud_bench::bench::Work;
use aud_bench::request::Answer;
use aud_text::limits::Limits;
use aud_text::refusal::Refusal;
use aud_worlds::fault::HallFault;
use aud_worlds::hall::Hall;
use aud_worlds::laws::world_run;
use aud_worlds::parcel::Parcel;
use aud_worlds::reply::Reply;
use aud_worlds::world::World;
use std::alloc::Global;

// What is said at the end of answers where memory was refused.
const OUT_OF_MEMORY: &str = "- E90 out of memory\n";

/// What a hall answers otherwise to a session of calls than is written, if anything, or an outbox that it leaves which
/// is no prefix of the private server's answers.
///
/// # Errors
///
/// `Call` where a line is no call; `Memory` where memory is refused. If it is refused to the hall, what is answered up
/// to there is looked at, and each outbox must be a prefix all the same, with at most one answer more that tells it.
pub fn look_at(alloc: Global, session: &Session) -> Result<Option<String>, Fault> {
    let Calls { limits, events } = calls_of(alloc, session)?;
    let seats = limits.to_vec(alloc)?;
    let mut world = world_run(alloc, limits, events)?;
    take_in(&mut world.hall, &mut world.out);
    let is_refused = tells_memory(alloc, seats.len(), &world)?;
    if let Some(found) = other_reply(alloc, session, &world.replies, is_refused)? {
        return Ok(Some(found));
    }
    if let Some(found) = other_outbox(alloc, &seats, &world.hall, is_refused)? {
        return Ok(Some(found));
    }
    if is_refused {
        return Err(Fault::Memory);
    }
    Ok(None)
}

fn calls_of(alloc: Global, session: &Session) -> Result<Calls, Fault> {
    let text = String::from_utf8_lossy(alloc, &session.sent)?;
    match read_calls(alloc, text.as_str()) {
        Ok(calls) => Ok(calls),
        Err(TextFault::Memory) => Err(Fault::Memory),
        Err(TextFault::Form) => Err(Fault::Call(String::from_str(alloc, &session.name)?)),
    }
}

// The first reply that is not what must come next, or that there are too few; where memory was refused, up to the first
// that may tell it.
fn other_reply(
    alloc: Global,
    session: &Session,
    replies: &[Reply],
    is_refused: bool,
) -> Result<Option<String>, Fault> {
    let mut rest: &[u8] = &session.written;
    for reply in replies {
        let found = words(alloc, reply)?;
        match rest.strip_prefix(found.as_bytes()) {
            Some(behind) => rest = behind,
            None if is_refused && may_tell_memory(reply) => return Ok(None),
            None => return Ok(Some(found)),
        }
    }
    if rest.is_empty() {
        return Ok(None);
    }
    Ok(Some(String::from_str(alloc, "no reply")?))
}

// Whether memory was refused in the call, if that may be so: a bench that closes stays where it is to be sent out, and
// a slice of one that is out does less than it must.
fn may_tell_memory(reply: &Reply) -> bool {
    match reply {
        Reply::Refused(HallFault::Memory) | Reply::Sent(false) => true,
        Reply::Worked(Work { left, .. }) => *left > 0,
        _ => false,
    }
}

// Takes in what is still out, where it fits: a bench that has closed tells that by its last answer.
fn take_in(hall: &mut Hall, out: &mut [Option<Parcel>]) {
    for there in out {
        if let Some(parcel) = there.take() {
            let seat = parcel.seat();
            if let Err(stranger) = hall.check_in(seat, parcel) {
                *there = Some(stranger.parcel);
            }
        }
    }
}

// Whether a reply or an outbox tells that memory was refused to the hall.
fn tells_memory(alloc: Global, seats: usize, world: &World) -> Result<bool, Fault> {
    Ok(a_reply_tells(&world.replies) || an_outbox_tells(alloc, seats, &world.hall)?)
}

fn a_reply_tells(replies: &[Reply]) -> bool {
    for reply in replies {
        let tells = match reply {
            Reply::Refused(fault) => *fault == HallFault::Memory,
            Reply::Answers(answers) => ends_with_memory(answers),
            _ => false,
        };
        if tells {
            return true;
        }
    }
    false
}

fn an_outbox_tells(alloc: Global, seats: usize, hall: &Hall) -> Result<bool, Fault> {
    for seat in 1..=seats {
        if hall.asked(seat).is_some() && ends_with_memory(&hall.collect(alloc, seat, 0)?) {
            return Ok(true);
        }
    }
    Ok(false)
}

fn ends_with_memory(answers: &[Answer]) -> bool {
    matches!(answers.last(), Some(Answer::Refused(Refusal::OutOfMemory)))
}

// The first outbox that is no prefix of the private server's answers.
fn other_outbox(
    alloc: Global,
    limits: &[Limits],
    hall: &Hall,
    is_refused: bool,
) -> Result<Option<String>, Fault> {
    for (place, limits) in limits.iter().enumerate() {
        let seat = place.saturating_add(1);
        if !is_prefix(alloc, hall, seat, *limits, is_refused)? {
            return Ok(Some(format!(in alloc; "the outbox of seat {seat}")?));
        }
    }
    Ok(None)
}

// Whether the answers at a seat are a prefix of the private server's, but for a last one by which memory may be refused.
fn is_prefix(
    alloc: Global,
    hall: &Hall,
    seat: usize,
    limits: Limits,
    may_be_refused: bool,
) -> Result<bool, Fault> {
    let Some(asked) = hall.asked(seat) else {
        return Ok(true);
    };
    let all = alone(alloc, limits, asked)?;
    let found = texts(alloc, &hall.collect(alloc, seat, 0)?)?;
    match found.strip_suffix(OUT_OF_MEMORY) {
        Some(prefix) if may_be_refused => Ok(all.starts_with(prefix)),
        _ => Ok(all.starts_with(found.as_str())),
    }
}
