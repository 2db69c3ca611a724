// Runs of the code at the limits: records, figures of domains, and questions that have no answer.
#![tactic(auto)]

#[cfg(test)]
mod asking;
#[cfg(test)]
mod buses;
#[cfg(test)]
mod figures;
#[cfg(test)]
mod questions;
#[cfg(test)]
mod records;
