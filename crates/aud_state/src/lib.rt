// All tasks with what they share in memory, as the meaning has them.
#![tactic(auto)]

mod aborting;
mod accepting;
mod actions;
mod alone;
mod bodies;
mod calling;
mod condition;
mod copies;
mod creation;
mod ending;
mod evaluation;
pub mod fast;
mod forget;
mod formals;
mod found;
mod marks;
pub mod object;
mod opening;
pub mod reads;
mod requeue;
mod resting;
mod returning;
mod seen;
pub mod state;
mod supplies;
pub mod task;
mod waiting;
