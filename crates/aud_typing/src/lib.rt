// Expressions: their types, their faults, and what is left of them.
#![tactic(auto)]

mod attribute;
pub mod condition;
pub mod entity;
pub mod expression;
pub mod typed;
