// Reads tokens, and what is made of tokens alone.
#![tactic(auto)]

pub mod behind;
pub mod choice_list;
pub mod clauses;
pub mod cursor;
pub mod leaf;
pub mod mode;
pub mod value;
