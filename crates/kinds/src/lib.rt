// Kinds: what the kinds of domain share, each of which is one domain and sees a frame as a stream of cost.
// It turns a question about rows into one about streams, with every cost worked out once, and checks the rows.
#![tactic(auto)]

pub mod alone;
mod gather;
pub mod kind;
pub mod look;
pub mod view;
