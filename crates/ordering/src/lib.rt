// Ordering: which frame gets which place, and which frames are in each other's way where there is no order.
// It knows domains by their trait alone, through whether a frame is in time everywhere.
#![tactic(auto)]

pub mod conflicts;
pub mod orders;
pub mod places;
