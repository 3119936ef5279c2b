// Reads names and expressions.
#![tactic(auto)]

mod assemble;
pub mod expression;
