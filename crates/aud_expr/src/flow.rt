// How an evaluation goes on after an instruction.

use aud_text::raise::Raise;

/// Where an instruction leads: on, past this number of others, to an exception, or no further, where the evaluation is
/// one up to the mark.
#[derive(Clone, Copy)]
pub enum Flow {
    Passes(usize),
    Raises(Raise),
    Stops,
}
