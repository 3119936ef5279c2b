// The running desk: a hall under a lock, a channel of parcels, and the workers that take them from there.
#![tactic(auto)]

pub mod desk;
pub mod gate;
pub mod seating;
