// Protected objects: their declarations, their actions, and the calls of their entries (RM 9.4, 9.5.1 to 9.5.3).
#![tactic(auto)]

pub mod barriers;
pub mod cancelling;
pub mod declaring;
pub mod entering;
pub mod finishing;
pub mod servicing;
pub mod starting;
