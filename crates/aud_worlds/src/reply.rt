// What the calls of a list are answered.

use aud_bench::bench::Work;
use aud_bench::request::Answer;
use aud_hall::fault::HallFault;
use aud_hall::next::Next;
use aud_hall::why::Why;

/// The answer to a call.
#[derive(Drop)]
pub enum Reply {
    Accepted,
    Refused(HallFault),
    /// Whether a parcel went out.
    Sent(bool),
    Worked(Work),
    /// The parcel was taken in.
    Taken(Next),
    /// It was not, and is out as before.
    Stranger(Why),
    Answers(Vec<Answer>),
    /// No parcel of this number is out.
    Nothing,
}
