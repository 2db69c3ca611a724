// Runs: any list of calls on a plan just created, and what holds of the plan and of every answer.
// It knows plans by their contracts, and no kind of domain.
#![tactic(auto)]

pub mod call;
pub mod replay;
pub mod state;
