// Entry calls in memory with their queues.
#![tactic(auto)]

pub mod calls;
mod queues;
pub mod slot;
