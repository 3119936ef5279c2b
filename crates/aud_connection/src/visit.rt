// What is told for each request of a connection.

ghost use Rattle.std.specs.Prelude.{◌≡◌, false, Some, None, IfOk};
ghost use Rattle.aud_bench.specs.Alone.{is_quit};
ghost use Rattle.aud_connection.specs.Told.{Told, told_text};
ghost use Rattle.aud_connection.specs.Ties.Visits.{Finishes, Converses, Admits, Replies};

use crate::told::fault_text;
use aud_bench::journal::is_quit;
use aud_bench::request::{Answer, Request};
use aud_desk::desk::Desk;
use aud_desk::seating::Seating;
use aud_lines::answers::answer_text;
use aud_pass::fault::DeskFault;
use aud_pass::pass::Pass;
use aud_text::refusal::Refusal;
use std::alloc::{AllocError, Global};
use std::sync::Wait;

/// How far a connection is: its pass, once it has a seat, and whether its QUIT was told of.
#[derive(Drop)]
pub struct Visit {
    pub pass: Option<Pass>,
    pub over: bool,
}

impl Visit {
    /// A connection without a seat.
    pub fn new() -> Visit
        ensures { (result.pass ≡ None) × (result.over ≡ false) }
    {
        Visit {
            pass: None,
            over: false,
        }
    }

    /// The text of what is told for a request: without a seat, that of a SEAT that takes one, or of a refusal; then the answer,
    /// or why the desk refuses it.
    ///
    /// # Errors
    ///
    /// Where memory is refused.
    pub fn reply<R: Wait, D: Seating>(
        &mut self,
        rt: &R,
        alloc: Global,
        desk: &Desk<D>,
        request: &Request,
    ) -> Result<Vec<u8>, AllocError>
        ensures { IfOk result (λ text. Replies D.limits request.now self.old text.items self.new) }
    {
        match &mut self.pass {
            Some(pass) => {
                self.over = is_quit(request);
                converse(rt, alloc, desk, pass, request)
            }
            None => admit(rt, alloc, desk, &mut self.pass, request),
        }
    }
}

// Takes a seat, or says why not.
fn admit<R: Wait, D: Seating>(
    rt: &R,
    alloc: Global,
    desk: &Desk<D>,
    pass: &mut Option<Pass>,
    request: &Request,
) -> Result<Vec<u8>, AllocError>
    requires { pass.old ≡ None }
    ensures { IfOk result (λ text. Admits D.limits request.now text.items pass.new) }
{
    let Request::Seat(number) = request else {
        return fault_text(alloc, DeskFault::NotClaimed);
    };
    match desk.open(rt, alloc, *number as usize) {
        Ok(opened) => {
            *pass = Some(opened);
            answer_text(alloc, &Answer::Done)
        }
        Err(DeskFault::Memory) => Err(AllocError),
        Err(refused) => fault_text(alloc, refused),
    }
}

// Sends a request, and gives the text of its answer.
fn converse<R: Wait, D: Seating>(
    rt: &R,
    alloc: Global,
    desk: &Desk<D>,
    pass: &mut Pass,
    request: &Request,
) -> Result<Vec<u8>, AllocError>
    ensures { IfOk result (λ text. (told : Told) × (text.items ≡ told_text told)
        × Converses request.now pass.old told pass.new) }
{
    let request = request.try_clone(alloc)?;
    match desk.submit(rt, alloc, pass, request) {
        Ok(()) => {}
        Err(DeskFault::Memory) => return Err(AllocError),
        Err(DeskFault::Full) => {
            return answer_text(alloc, &Answer::Refused(Refusal::JournalFull));
        }
        Err(refused) => return fault_text(alloc, refused),
    }
    match finish(rt, alloc, desk, pass) {
        Ok(()) => {}
        Err(DeskFault::Memory) => return Err(AllocError),
        Err(refused) => return fault_text(alloc, refused),
    }
    match pass.got().last() {
        Some(answer) => answer_text(alloc, answer),
        None => unreachable!(),
    }
}

// Waits until all that was sent is answered.
fn finish<R: Wait, D: Seating>(
    rt: &R,
    alloc: Global,
    desk: &Desk<D>,
    pass: &mut Pass,
) -> Result<(), DeskFault>
    ensures { Finishes result pass.old pass.new }
{
    for _ in rt.forever() {
        let _ = desk.wait(rt, alloc, pass)?;
        if pass.has_all() && !pass.is_over() {
            return Ok(());
        }
    }
    unreachable!()
}
