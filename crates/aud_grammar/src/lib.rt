// The grammar, what tokens spell by it, and the laws of both.
#![tactic(auto)]

pub mod laws;
