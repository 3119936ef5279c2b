// The line protocol: the requests of a stream of bytes, and the text of answers.
#![tactic(auto)]

pub mod answers;
pub mod commands;
pub mod feed;
pub mod laws;
pub mod lines;
pub mod requests;
