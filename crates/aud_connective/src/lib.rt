// Reads the operators that make a chain of relations: the same one throughout, or a fault.
#![tactic(auto)]

pub mod connective;
