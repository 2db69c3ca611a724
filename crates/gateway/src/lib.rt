// The gateway processor: it works frames off by priority, so a frame waits for those above it.
// It knows streams and what the kinds share, and no other kind.
#![tactic(auto)]

pub mod gateway;
