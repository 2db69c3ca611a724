// Listing: the lines that tell a plan, or the fault of a sheet, byte for byte.
// It knows closed plans by their public calls, and no kind of domain.
#![tactic(auto)]

mod lines;
pub mod list;
pub mod text;
