// Streams: what a domain's load is made of, a cost each period, and the smallest time at which a load is served.
// It knows of no frame record and no kind of domain, and is the one place that solves a response time equation.
#![tactic(auto)]

pub mod load;
pub mod rounding;
pub mod stream;
pub mod totals;
pub mod weight;
