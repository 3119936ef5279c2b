// Passes, and what the calls of a desk do with them under its lock. Of threads, and of the parcels that wait, `aud_desk` knows.
#![tactic(auto)]

pub mod fault;
pub mod got;
pub mod pass;
pub mod sections;
