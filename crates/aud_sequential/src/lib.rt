// What a task of a compiled program does by itself: in its body, and in the procedures that it calls.
#![tactic(auto)]

mod coming;
pub mod endings;
pub mod fast;
pub mod progress;
pub mod standing;
mod statements;
pub mod step;
pub mod units;
