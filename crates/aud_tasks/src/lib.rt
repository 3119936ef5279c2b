// Steps and runs of compiled programs with all their tasks.
#![tactic(auto)]

mod act;
mod again;
mod barriers;
mod choice;
pub mod chosen;
pub mod coming;
pub mod compiled;
mod enabled;
mod endings;
mod entries;
mod hindering;
pub mod holds;
mod leave;
mod leaving;
pub mod moves;
mod objects;
mod requeues;
pub mod run;
pub mod status;
mod step;
mod times;
pub mod turn;
