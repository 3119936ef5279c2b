// The bench: the requests of one user, worked off in slices.

ghost use Rattle.std.specs.Prelude.{◌≡◌, ◌+◌, ◌-◌, ◌<◌, ◌≤◌, ◌++◌, min, [], ◌∷◌, Err, false, true, length, drop, vec_len, vec_capacity, None, IfSome, IfOk, OnOk, OnErr, IsErrOf};
ghost use Rattle.aud_bench.specs.Alone.{cost};
ghost use Rattle.aud_bench.specs.Seen.{is_closed, fits_behind, with_request, answers_of, untaken, unanswered};
ghost use Rattle.aud_bench.specs.Ties.Kept.{is_kept};
ghost use Rattle.aud_bench.specs.declared.bench.GiveFault.TheVariants as fault;

use crate::journal::{fits, is_quit, size};
use crate::request::{Answer, Request};
use crate::service::{Served, serve};
use aud_machine::machine::Machine;
use aud_text::limits::Limits;
use aud_text::refusal::Refusal;
use std::alloc::{AllocError, Global};
use std::marker::Model;
use thiserror::Error;

/// Why a request is not taken. Nothing has changed then.
#[derive(Debug, Drop, Error)]
pub enum GiveFault {
    /// The request does not fit the journal.
    #[error("journal full")]
    Full,
    /// The session is over.
    #[error("session over")]
    Closed,
    #[error("out of memory")]
    Memory,
}

/// What a slice did: units of work, and the requests that are given and unanswered.
#[derive(Clone, Copy)]
pub struct Work {
    pub done: u64,
    pub left: usize,
}

/// A private server: the requests of one user in order, of which the first ones are answered.
pub struct Bench {
    limits: Limits,
    journal: Vec<Request>,
    bytes: usize,
    // Those that were not taken out. There is room for one for each request, and for one more.
    answers: Vec<Answer>,
    taken: usize,
    // The first requests, which have cost all their units: where memory is refused, there is one answer more.
    finished: usize,
    machine: Option<Machine>,
    // Units that are done of the first unanswered request.
    progress: u32,
    quit: bool,
    spent: bool,
}

// One call wherever it is dropped.
impl Drop for Bench {
    fn drop(self) {
        let Bench {
            limits: _,
            journal: _,
            bytes: _,
            answers: _,
            taken: _,
            finished: _,
            machine: _,
            progress: _,
            quit: _,
            spent: _,
        } = self;
    }
}

impl Model for Bench {
    ghost use Rattle.std.specs.Prelude.{◌≡◌, ◌≤◌, ◌<◌, length, true, false, vec_capacity};
    ghost use Rattle.aud_text.specs.declared.limits.TheConstants.{REQUEST_BYTES};
    ghost use Rattle.aud_bench.specs.Ties.Standing.{IsAt, units_done};
    ghost use Rattle.aud_bench.specs.Seen.{Seen, has_quit};
    ghost use Rattle.aud_bench.specs.Ties.Kept.{is_kept};
    ghost use Rattle.aud_bench.specs.Ties.Times.{are_brief};
    ghost use Rattle.aud_bench.specs.Size.{bytes_of};

    ghost Value = { Seen };

    ghost view = { λ b. record {
      limits = b.limits;
      journal = b.journal.items;
      units = units_done b.limits b.journal.items b.finished b.progress;
      taken = b.taken;
      spent = b.spent;
    } };

    ghost invariant = { λ b.
        ∥ IsAt b.limits b.journal.items b.finished b.progress b.taken b.answers.items b.spent b.machine ∥₁
        × (length b.journal.items < vec_capacity b.answers)
        × (b.quit ≡ false → (b.bytes ≡ bytes_of b.journal.items) × (b.bytes ≤ REQUEST_BYTES))
        × (b.quit ≡ has_quit b.journal.items)
        × (is_kept b.journal.items ≡ true)
        × (are_brief b.journal.items ≡ true) };
}

impl Bench {
    /// A bench with an empty journal. It keeps room for the answer that memory is out.
    ///
    /// # Errors
    ///
    /// Where memory is refused.
    pub fn new(alloc: Global, limits: Limits) -> Result<Self, AllocError>
        ensures { IfOk result (λ bench. bench
            ≡ record { limits = limits; journal = []; units = 0; taken = 0; spent = false }) }
    {
        let answers = Vec::with_capacity(alloc, 1)?;
        Ok(Bench {
            limits,
            journal: Vec::new(alloc),
            bytes: 0,
            answers,
            taken: 0,
            finished: 0,
            machine: None,
            progress: 0,
            quit: false,
            spent: false,
        })
    }

    /// The limits that its programs keep to.
    pub fn limits(&self) -> Limits
        ensures { result ≡ self.now.limits }
    {
        self.limits
    }

    /// Whether memory was refused: nothing more is done then.
    pub fn is_spent(&self) -> bool
        ensures { result ≡ self.now.spent }
    {
        self.spent
    }

    /// The requests that were given and kept, in order: each fits behind those before it, and none follows a QUIT.
    pub fn journal(&self) -> &[Request]
        ensures journal { result.now ≡ self.now.journal }
        ensures kept { is_kept result.now ≡ true }
    {
        self.journal.as_slice()
    }

    /// The answers made and not yet taken out, in their order: of those that the units of work come to, one for each of the
    /// first requests. Where memory is refused, the last one says so.
    pub fn answers(&self) -> &[Answer]
        ensures { result.now ≡ untaken self.now }
    {
        &self.answers
    }

    /// How many answers were made, those that were taken out too.
    pub fn answered(&self) -> usize
        ensures { result ≡ length (answers_of self.now) }
    {
        self.taken + self.answers.len()
    }

    /// Adds a request at the journal's end. It is refused where the session is over, by a QUIT or an answer that memory
    /// is out, where it does not fit, and where memory is refused; a QUIT always fits. A refusal changes nothing.
    pub fn give(&mut self, request: Request) -> Result<(), GiveFault>
        ensures ok { OnOk result (self.new ≡ with_request self.old request) }
        ensures err { OnErr result (self.new ≡ self.old) }
        ensures closed { is_closed self.old ≡ true → result ≡ Err fault.Closed }
        ensures open { IsErrOf result fault.Closed → is_closed self.old ≡ true }
        ensures full { is_closed self.old ≡ false → fits_behind self.old request ≡ false →
            result ≡ Err fault.Full }
        ensures room { IsErrOf result fault.Full → fits_behind self.old request ≡ false }
    {
        if self.quit || self.spent {
            return Err(GiveFault::Closed);
        }
        if !fits(self.journal.len(), self.bytes, &request) {
            return Err(GiveFault::Full);
        }
        match self.keep(request) {
            Ok(()) => Ok(()),
            Err(_) => Err(GiveFault::Memory),
        }
    }

    // Keeps a request that fits, and room for one answer more.
    fn keep(&mut self, request: Request) -> Result<(), AllocError>
        requires open { is_closed self.old ≡ false }
        requires fits { fits_behind self.old request ≡ true }
        ensures ok { OnOk result (self.new ≡ with_request self.old request) }
        ensures err { OnErr result (self.new ≡ self.old) }
    {
        let room = self.journal.len() + 2 - self.answers.len();
        self.answers.reserve(room)?;
        let quit = is_quit(&request);
        let size = size(&request);
        self.journal.push(request)?;
        self.bytes += size;
        self.quit = quit;
        Ok(())
    }

    /// Does this many units of work, or all that is left: a RUN costs its steps, at least one, and any other request one.
    /// A RUN that the slice cuts goes on in the next one. Where memory is refused, the bench closes: the last answer
    /// tells it, and those before it stay.
    pub fn slice(&mut self, alloc: Global, units: u64) -> Work
        ensures within { result.done ≤ units }
        ensures done { self.new.spent ≡ false →
            result.done ≡ min units (cost self.old.limits self.old.journal - self.old.units) }
        ensures units { self.new.units ≡ self.old.units + result.done }
        ensures cut { self.old.spent ≡ false → self.new.spent ≡ true →
            result.done < min units (cost self.old.limits self.old.journal - self.old.units) }
        ensures journal { (self.new.journal ≡ self.old.journal)
            × (self.new.limits ≡ self.old.limits) }
        ensures taken { self.new.taken ≡ self.old.taken }
        ensures left { result.left ≡ unanswered self.new }
        ensures spent { self.old.spent ≡ true → (self.new ≡ self.old) × (result.done ≡ 0) }
    {
        let mut done = 0;
        if self.spent {
            return Work {
                done,
                left: self.left(),
            };
        }
        'requests: while done < units && self.left() > 0 {
            match self.work(alloc, units - done) {
                Some(cost) => done += cost,
                None => {
                    return Work {
                        done,
                        left: self.left(),
                    };
                }
            }
        }
        Work {
            done,
            left: self.left(),
        }
    }

    /// Closes a bench that has not closed, as a refusal of memory does: its last answer tells it, and those before it stay.
    /// This takes no memory.
    pub fn close(&mut self)
        requires { self.old.spent ≡ false }
        ensures { self.new ≡ record self.old { spent = true } }
    {
        self.spent = true;
        add(&mut self.answers, Answer::Refused(Refusal::OutOfMemory));
    }

    /// Takes out all answers: those from this number on are moved behind others, for which there has to be room, and those
    /// before it are dropped. Numbers count from 0 over all answers that the bench ever made, and this one is no less than how
    /// many were taken out before. This takes no memory.
    pub fn take_answers(&mut self, into: &mut Vec<Answer>, from: usize)
        requires held { self.old.taken ≤ from }
        requires room { vec_len into.old + (length (answers_of self.old) - from)
            ≤ vec_capacity into.old }
        ensures items { into.new.items ≡ into.old.items ++ drop from (answers_of self.old) }
        ensures capacity { vec_capacity into.old ≤ vec_capacity into.new }
        ensures bench { self.new ≡ record self.old { taken = length (answers_of self.old) } }
    {
        let skip = from - self.taken;
        self.taken += self.answers.len();
        move_past(&mut self.answers, skip, into);
    }

    /// How many requests are given and unanswered.
    pub fn left(&self) -> usize
        ensures left { result ≡ unanswered self.now }
        ensures within { self.now.units ≤ cost self.now.limits self.now.journal }
        ensures whole { result ≡ 0 → self.now.units ≡ cost self.now.limits self.now.journal }
    {
        self.journal.len() - self.finished
    }

    // Does at most this many units of the first unanswered request, and tells how many; nothing where memory is refused.
    fn work(&mut self, alloc: Global, units: u64) -> Option<u64>
        requires some { 1 ≤ units }
        requires alive { self.old.spent ≡ false }
        requires unanswered { 1 ≤ unanswered self.old }
        ensures kept { (self.new.journal ≡ self.old.journal) × (self.new.limits ≡ self.old.limits) }
        ensures taken { self.new.taken ≡ self.old.taken }
        ensures works { IfSome result (λ done. (self.new.spent ≡ false)
            × (1 ≤ done) × (done ≤ units) × (self.new.units ≡ self.old.units + done)) }
        ensures spent { result ≡ None →
            (self.new.spent ≡ true) × (self.new.units ≡ self.old.units) }
    {
        let request = &self.journal[self.finished];
        let Ok(served) = serve(
            alloc,
            self.limits,
            &mut self.machine,
            request,
            self.progress,
            units,
        ) else {
            self.spent = true;
            add(&mut self.answers, Answer::Refused(Refusal::OutOfMemory));
            return None;
        };
        let Served {
            answer,
            progress,
            cost,
        } = served;
        self.progress = progress;
        if let Some(answer) = answer {
            add(&mut self.answers, answer);
            self.finished += 1;
        }
        Some(cost)
    }
}

// Adds an answer for which there is room.
fn add(answers: &mut Vec<Answer>, answer: Answer)
    requires { vec_len answers.old < vec_capacity answers.old }
    ensures items { answers.new.items ≡ answers.old.items ++ answer ∷ [] }
    ensures capacity { vec_capacity answers.old ≤ vec_capacity answers.new }
{
    match answers.push(answer) {
        Ok(()) => {}
        Err(_) => unreachable!(),
    }
}

// Moves answers behind others, for which there is room, and drops this many of the first ones.
fn move_past(answers: &mut Vec<Answer>, skip: usize, into: &mut Vec<Answer>)
    requires { vec_len into.old + (vec_len answers.old - skip) ≤ vec_capacity into.old }
    ensures items { into.new.items ≡ into.old.items ++ drop skip answers.old.items }
    ensures capacity { vec_capacity into.old ≤ vec_capacity into.new }
    ensures none { answers.new.items ≡ [] }
    ensures room { vec_capacity answers.new ≡ vec_capacity answers.old }
{
    drop_first(answers, skip);
    match into.append(answers) {
        Ok(()) => {}
        Err(_) => unreachable!(),
    }
}

// Drops this many of the first answers, or all.
fn drop_first(answers: &mut Vec<Answer>, count: usize)
    ensures items { answers.new.items ≡ drop count answers.old.items }
    ensures capacity { vec_capacity answers.new ≡ vec_capacity answers.old }
{
    let count = count.min(answers.len());
    let left = answers.len() - count;
    answers.rotate_left(count);
    answers.truncate(left);
}
