// Laws: what is over of a program under way may be forgotten. The definitions stand in specs/.
#![tactic(auto)]

pub mod laws;
