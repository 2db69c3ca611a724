// Signals: what a control box sends, as it is given and as a plan keeps it, and the row of the frame that carries some
// of them. It knows frames, and no domain.
#![tactic(auto)]

pub mod entries;
pub mod gather;
pub mod signal;
