// Timing: which domain carries which frame, what it is told of the others, and when an answer is in time, in one domain
// and in every domain of a set. It knows domains by their trait alone.
#![tactic(auto)]

pub mod carried;
pub mod everywhere;
pub mod ranked;
