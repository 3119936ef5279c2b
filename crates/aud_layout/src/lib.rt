// How a program is laid out as code, and the laws that tie the steps of that code to the program's. The definitions
// stand in specs/. What the generator knows of where statements lead stands here as well.
#![tactic(auto)]

pub mod laws;
pub mod sum;
pub mod ways;
