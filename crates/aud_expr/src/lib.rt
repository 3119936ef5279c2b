// The evaluation of a step's expressions, by its instructions.
#![tactic(auto)]

mod arguments;
mod components;
mod elements;
pub mod evaluate;
pub mod facts;
mod few;
pub mod flow;
pub mod fused;
mod integers;
pub mod operands;
pub mod operators;
pub mod stack;
mod texts;
mod truths;
pub mod variables;
mod waiting;
