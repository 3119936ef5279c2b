// Calls of tasks' entries, accepts, and the ends of both (RM 9.5.2, 9.5.3).
#![tactic(auto)]

pub mod accepting;
pub mod calling;
pub mod cancelling;
pub mod ending;
