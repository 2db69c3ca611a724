// Runs of sheets: at both sides of each limit of length, what is written and what stays, and the places of faults.
#![tactic(auto)]

#[cfg(test)]
mod faults;
#[cfg(test)]
mod limits;
#[cfg(test)]
mod samples;
