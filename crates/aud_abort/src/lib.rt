// Abort (RM 9.8).
#![tactic(auto)]

pub mod aborting;
pub mod completing;
pub mod deferring;
pub mod withdrawing;
