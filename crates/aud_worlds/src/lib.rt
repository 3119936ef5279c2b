// What a hall is to its users: worlds, which are a hall and the parcels that are out, and what holds of them after any calls. The
// hall and its calls are those of `aud_hall`.
#![tactic(auto)]

pub mod event;
pub mod laws;
pub mod reply;
mod run;
pub mod world;

pub use aud_hall::{fault, hall, next, parcel, stranger, why};
