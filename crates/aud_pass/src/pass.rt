// A pass: the right to a seat.

ghost use Rattle.std.specs.Prelude.{◌≡◌, ◌==◌, ◌++◌, length, false, IsTrue, OnOk, OnErr};
ghost use Rattle.aud_pass.specs.Passed.{Passed, opened, is_over, IsGot};
ghost use Rattle.aud_pass.specs.Replies.{IsWhole};

use aud_bench::request::{Answer, Request};
use aud_text::limits::Limits;
use aud_text::refusal::Refusal;
use std::alloc::{AllocError, Global};
use std::marker::Model;

/// The right to a seat, with its limits, what was sent there and what was got from there.
///
/// What was got are the first answers of a private server to what was sent, or some of these and then that memory is out.
#[derive(Drop)]
pub struct Pass {
    pub(crate) seat: usize,
    pub(crate) limits: Limits,
    pub(crate) sent: Vec<Request>,
    pub(crate) got: Vec<Answer>,
}

impl Model for Pass {
    ghost use Rattle.aud_pass.specs.Passed.{Passed, IsGot};

    ghost Value = { Passed };

    ghost view = { λ p. record {
      seat = p.seat;
      limits = p.limits;
      sent = p.sent.items;
      got = p.got.items;
    } };

    ghost invariant = { λ p. IsGot p.limits p.sent.items p.got.items };
}

impl Pass {
    /// A pass of a seat with these limits, by which nothing was sent.
    pub(crate) fn new(alloc: Global, seat: usize, limits: Limits) -> Pass
        ensures { result ≡ opened seat limits }
    {
        Pass {
            seat,
            limits,
            sent: Vec::new(alloc),
            got: Vec::new(alloc),
        }
    }

    /// The number of the seat.
    pub fn seat(&self) -> usize
        ensures { result ≡ self.now.seat }
    {
        self.seat
    }

    /// The limits of the seat.
    pub fn limits(&self) -> Limits
        ensures { result ≡ self.now.limits }
    {
        self.limits
    }

    /// The requests that were sent and stored, in order.
    pub fn sent(&self) -> &[Request]
        ensures { result.now ≡ self.now.sent }
    {
        &self.sent
    }

    /// The answers that were got, in order.
    pub fn got(&self) -> &[Answer]
        ensures got { result.now ≡ self.now.got }
        ensures right { IsGot self.now.limits self.now.sent self.now.got }
    {
        &self.got
    }

    /// Whether as many answers were got as requests were sent. Where the last one does not tell that memory is out, they are all
    /// the answers of a private server.
    pub fn has_all(&self) -> bool
        ensures count { result ≡ (length self.now.got == length self.now.sent) }
        ensures whole { IsTrue result → is_over self.now.got ≡ false → IsWhole self.now }
    {
        self.got.len() == self.sent.len()
    }

    // Adds answers to those that were got.
    pub(crate) fn take(&mut self, answers: Vec<Answer>) -> Result<(), AllocError>
        requires { IsGot self.old.limits self.old.sent (self.old.got ++ answers.items) }
        ensures ok { OnOk result
            (self.new ≡ record self.old { got = self.old.got ++ answers.items }) }
        ensures err { OnErr result (self.new ≡ self.old) }
    {
        let mut answers = answers;
        self.got.append(&mut answers)
    }

    /// Whether the last answer tells that memory is out: then none follows.
    pub fn is_over(&self) -> bool
        ensures { result ≡ is_over self.now.got }
    {
        matches!(self.got.last(), Some(Answer::Refused(Refusal::OutOfMemory)))
    }
}
