// The CAN FD bus: arbitration by identifier, so a frame waits for one below it and for those above it.
// It knows streams and what the kinds share, and no other kind.
#![tactic(auto)]

pub mod bus;
mod queue;
