// What a running program keeps: its frames, which of them are open, and what the ends of calls copy back.
#![tactic(auto)]

pub mod cells;
pub mod display;
pub mod frames;
pub mod purpose;
mod shelf;
pub mod stack;
pub mod store;
pub mod target;
