// Masters (RM 9.3), activation (RM 9.2) and completion.
#![tactic(auto)]

pub mod activation;
pub mod completion;
pub mod creation;
pub mod ending;
pub mod mark;
