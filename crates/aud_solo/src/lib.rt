// The server on one stream of requests: readers and writers that count their calls, whoever answers the requests; the
// session of one user, and the status with which a program ends that has served one.
#![tactic(auto)]

pub mod ended;
mod history;
pub mod serving;
pub mod solo;
pub mod streams;
