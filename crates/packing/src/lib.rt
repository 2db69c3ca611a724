// Packing: which signals ride together, kept in tables, and the frame where one more makes the plan least heavier.
// It knows domains by their trait alone, and refuses nothing: what may be asked of it is asked above.
#![tactic(auto)]

pub mod choice;
pub mod choose;
pub mod table;
pub mod tables;
