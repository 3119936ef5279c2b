// What is to be done for a seat.

/// Whether a seat that took a parcel in has work for another one.
#[derive(Clone, Copy)]
pub enum Next {
    /// A stored request is unanswered.
    More,
    /// There is none, or the bench closed for want of memory.
    Idle,
}
