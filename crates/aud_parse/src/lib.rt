// The parser: declarations, statements and programs.
#![tactic(auto)]

mod abort;
mod build;
mod build_protected;
mod build_select;
mod declaration;
mod delay;
mod entry;
mod formals;
mod operation;
mod operation_head;
mod parser;
mod protected;
mod requeue;
mod scheme;
mod select;
mod statement;
mod task;

pub use crate::parser::{SyntaxFault, parse};
