// Plan: the calls of a plan over any bank, each with the questions that it asks and the number of each refusal.
// It knows packing, ordering and domains by their contracts, and no kind of domain. A draft cannot be ordered, and a
// closed plan cannot be changed: they are types of their own.
#![tactic(auto)]

pub mod closed;
pub mod draft;
pub mod fault;
pub mod questions;
mod weight;
