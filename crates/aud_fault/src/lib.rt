// Faults of a program, of which the least is reported.
#![tactic(auto)]

pub mod fault;
