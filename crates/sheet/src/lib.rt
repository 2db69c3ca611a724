// Sheets: a bank's figures and signals read line by line, a plan of them, and its listing written out.
// It knows the kinds of domain, since the letters of a sheet name them, and the calls of a plan.
#![tactic(auto)]

mod body;
pub mod fault;
mod head;
pub mod kind;
mod line;
pub mod meaning;
pub mod run;
