// Declarations, statements and bodies: their faults, and what is left of a program.
#![tactic(auto)]

mod abort;
mod accept;
mod argument;
mod assignment;
mod call;
mod declaration;
mod delay;
mod entry;
mod entry_call;
mod formal;
mod handler;
mod iteration;
mod labels;
pub mod laws;
mod leaving;
mod made;
mod object;
mod operation;
mod requeue;
mod select;
mod statement;
mod tables;
mod task;
pub mod unit;
mod value;
mod within;
