// A hall: the private servers of many users at once. Each user has a seat, and the work for it goes out as a parcel. What calls
// come to for each user, whatever all others do, is told in `aud_worlds`.
#![tactic(auto)]

pub mod difference;
pub mod fault;
pub mod hall;
pub mod next;
pub mod parcel;
mod place;
mod seat;
pub mod stranger;
pub mod why;
