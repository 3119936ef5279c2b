// Bytecode. Each step of a task is some instructions that evaluate and one that ends the step.
#![tactic(auto)]

pub mod control;
pub mod counts;
mod frames;
pub mod fused;
mod fusing;
pub mod instruction;
pub mod line;
mod seen;
pub mod sound_code;
mod table;
