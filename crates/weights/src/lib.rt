// Weights: what share of the domains that carry them frames take, in millionths.
// It knows domains by their trait alone.
#![tactic(auto)]

pub mod weigh;
