// Machines: compiled programs under way. They do the code, one step after the other.
#![tactic(auto)]

pub mod machine;

// Who shows a machine asks its tasks.
pub use aud_tasks::{coming, compiled, holds, status};
