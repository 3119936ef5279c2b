// Sessions and programs whose answers the prover computes from the definitions.
#![tactic(auto)]

pub mod laws;
