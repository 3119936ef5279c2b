// What names denote, and the rules that a program may break.
#![tactic(auto)]

pub mod array;
pub mod awaited;
pub mod behind;
pub mod entries;
mod further_out;
mod hidden;
pub mod laws;
pub mod names;
pub mod objects;
pub mod parts;
pub mod resolution;
pub mod rules;
pub mod table;
