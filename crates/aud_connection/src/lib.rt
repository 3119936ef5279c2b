// The session of one connection at a desk: SEAT takes a seat, and what is asked then is answered request by request.
#![tactic(auto)]

mod greeting;
pub mod serve;
mod told;
mod visit;
