// From typed programs to their code.
#![tactic(auto)]

mod alone;
mod bodies;
mod entries;
mod expressions;
mod frames;
mod lengths;
mod objects;
mod operands;
mod places;
mod program;
mod statements;
mod writer;

pub use program::generate;
