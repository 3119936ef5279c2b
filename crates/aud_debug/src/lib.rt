// What is shown of a program between two steps, as lines.
#![tactic(auto)]

pub mod calls;
mod declared;
pub mod lines;
pub mod listing;
mod moves;
mod names;
mod numbers;
mod objects;
mod page;
mod queues;
mod tasks;
mod values;
mod variables;
mod waits;
mod words;
