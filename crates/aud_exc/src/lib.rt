// Exceptions: those that are raised, and where they go.
#![tactic(auto)]

pub mod propagation;
