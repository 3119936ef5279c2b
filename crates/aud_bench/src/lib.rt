// The private server: requests, their answers, and a bench that works them off in slices.
#![tactic(auto)]

pub mod bench;
pub mod choices;
pub mod journal;
pub mod laws;
pub mod loading;
pub mod request;
pub mod service;
pub mod session;
pub mod wait;
