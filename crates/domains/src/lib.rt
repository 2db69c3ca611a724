// Domains: the two questions that all that carries frames answers, and what it owes.
// It knows frames, and no kind of domain. Whatever is built on the trait rests on the duties alone.
#![tactic(auto)]

pub mod domain;
pub mod fault;
pub mod figure;
pub mod laws;
pub mod pair;
pub mod place;
pub mod question;
