// Selective accepts (RM 9.7.1) and delays (RM 9.6).
#![tactic(auto)]

pub mod delaying;
pub mod expiring;
pub mod selecting;
