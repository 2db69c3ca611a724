// Runs of plans: at both sides of each limit, in the order of the questions, of the tie rules, from signals to
// identifiers and to a conflict, of lists of calls, and of listings.
#![tactic(auto)]

#[cfg(test)]
mod closings;
#[cfg(test)]
mod drafts;
#[cfg(test)]
mod limits;
#[cfg(test)]
mod listings;
#[cfg(test)]
mod orders;
#[cfg(test)]
mod replays;
#[cfg(test)]
mod samples;
