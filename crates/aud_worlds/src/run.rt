// Events, one after the other.

ghost use Rattle.std.specs.Prelude.{◌≡◌, List, Option, IfOk, map};
ghost use Rattle.aud_hall.specs.Halls as halls;
ghost use Rattle.aud_hall.specs.Ties.Said.{said, said_answers};
ghost use Rattle.aud_worlds.specs.Ties.Runs.{seen, Makes, SlicesThere, ChecksThere};
ghost use Rattle.aud_worlds.specs.Headline.{AnswersAlone};
ghost use Rattle.aud_worlds.specs.Why.Laws.{OfEachSeat};
ghost use Rattle.aud_worlds.specs.Why.Runs.{KeepsApart};
ghost use Rattle.aud_worlds.specs.Ties.Calls.{told_by, plain_reply, IsRun};
ghost use Rattle.aud_worlds.specs.declared.event.Event.TheVariants as event;

use crate::event::Event;
use crate::reply::Reply;
use crate::world::World;
use aud_bench::request::Answer;
use aud_hall::fault::HallFault;
use aud_hall::hall::Hall;
use aud_hall::parcel::Parcel;
use aud_text::limits::Limits;
use std::alloc::{AllocError, Global};

/// Makes the calls that these events tell, on a hall with a seat for each of these limits.
///
/// # Errors
///
/// Where memory is refused for the hall, or for what is kept of parcels and replies.
pub fn world_run(
    alloc: Global,
    limits: Vec<Limits>,
    events: Vec<Event>,
) -> Result<World, AllocError>
    ensures apart { IfOk result (λ w.
        (run : IsRun limits.items events.items (seen w.hall w.out.items)
        (map plain_reply w.replies.items))
        × KeepsApart limits.items run.events (seen w.hall w.out.items)) }
    ensures headline { IfOk result (λ w.
        OfEachSeat (λ limits s. AnswersAlone limits s.requests s) w.hall) }
{
    let mut hall = Hall::new(alloc, limits)?;
    let mut out = Vec::new(alloc);
    let mut replies = Vec::new(alloc);
    for event in events {
        let reply = happen(alloc, &mut hall, &mut out, event)?;
        replies.push(reply)?;
    }
    Ok(World { hall, out, replies })
}

// Makes the call that an event tells.
fn happen(
    alloc: Global,
    hall: &mut Hall,
    out: &mut Vec<Option<Parcel>>,
    event: Event,
) -> Result<Reply, AllocError>
    ensures { IfOk result (λ reply.
        Makes event (seen hall.old out.old.items) reply (seen hall.new out.new.items)) }
{
    match event {
        Event::Claim { seat } => Ok(accepted(hall.claim(alloc, seat))),
        Event::Submit { seat, request } => Ok(accepted(hall.submit(seat, request))),
        Event::SendOut { seat } => send_out(alloc, hall, out, seat),
        Event::Slice { parcel, units } => Ok(slice(alloc, out, parcel, units)),
        Event::CheckIn { parcel, seat } => Ok(check_in(hall, out, parcel, seat)),
        Event::Collect { seat, from } => Ok(collected(hall.collect(alloc, seat, from))),
        Event::Free { seat } => Ok(accepted(hall.free(seat))),
    }
}

fn accepted(outcome: Result<(), HallFault>) -> Reply
    ensures { told_by (said outcome) ≡ plain_reply result }
{
    match outcome {
        Ok(()) => Reply::Accepted,
        Err(fault) => Reply::Refused(fault),
    }
}

fn collected(outcome: Result<Vec<Answer>, HallFault>) -> Reply
    ensures { told_by (said_answers outcome) ≡ plain_reply result }
{
    match outcome {
        Ok(answers) => Reply::Answers(answers),
        Err(fault) => Reply::Refused(fault),
    }
}

fn send_out(
    alloc: Global,
    hall: &mut Hall,
    out: &mut Vec<Option<Parcel>>,
    seat: usize,
) -> Result<Reply, AllocError>
    ensures { IfOk result (λ reply. Makes (event.SendOut seat)
        (seen hall.old out.old.items) reply (seen hall.new out.new.items)) }
{
    match hall.send_out(alloc, seat) {
        Some(parcel) => {
            out.push(Some(parcel))?;
            Ok(Reply::Sent(true))
        }
        None => Ok(Reply::Sent(false)),
    }
}

fn slice(alloc: Global, out: &mut Vec<Option<Parcel>>, parcel: usize, units: u64) -> Reply
    ensures { (hall : List halls.Place) → Makes (event.Slice parcel units)
        (seen hall out.old.items) result (seen hall out.new.items) }
{
    if out.len() <= parcel {
        return Reply::Nothing;
    }
    let there = &mut out[parcel];
    slice_there(alloc, there, units)
}

fn slice_there(alloc: Global, there: &mut Option<Parcel>, units: u64) -> Reply
    ensures { SlicesThere units there.old result there.new }
{
    match there {
        Some(parcel) => Reply::Worked(parcel.slice(alloc, units)),
        None => Reply::Nothing,
    }
}

fn check_in(hall: &mut Hall, out: &mut Vec<Option<Parcel>>, parcel: usize, seat: usize) -> Reply
    ensures { Makes (event.CheckIn parcel seat)
        (seen hall.old out.old.items) result (seen hall.new out.new.items) }
{
    if out.len() <= parcel {
        return Reply::Nothing;
    }
    let there = &mut out[parcel];
    check_in_from(hall, there, seat)
}

fn check_in_from(hall: &mut Hall, there: &mut Option<Parcel>, seat: usize) -> Reply
    ensures { ChecksThere seat hall.old there.old result hall.new there.new }
{
    let Some(parcel) = there.take() else {
        return Reply::Nothing;
    };
    match hall.check_in(seat, parcel) {
        Ok(next) => Reply::Taken(next),
        Err(stranger) => {
            let why = stranger.why;
            *there = Some(stranger.parcel);
            Reply::Stranger(why)
        }
    }
}
