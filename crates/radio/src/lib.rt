// The radio link: every frame takes its turn in each round, so a frame waits for all.
// It knows streams and what the kinds share, and no other kind.
#![tactic(auto)]

pub mod radio;
