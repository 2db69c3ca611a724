// What the programs print alike.
#![tactic(auto)]

pub mod busy;
pub mod names;
