// Laws: a task under way holds the frames that code says are open where it stands. The definitions stand in specs/.
#![tactic(auto)]

pub mod laws;
pub mod runs;
