// What a look at the answers finds.

/// What a collect has found.
#[derive(Clone, Copy, PartialEq, Eq, Debug)]
pub enum Got {
    /// The answers to all that was sent were got before.
    Idle,
    /// So many answers are new.
    New(usize),
    /// Answers are to come.
    Busy,
}
