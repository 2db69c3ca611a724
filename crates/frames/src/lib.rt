// Frames: the plain row in which a frame lies in a table, its record, and the payload that its fill takes.
// It knows of no domain and no plan. A record keeps the limits of a frame as an invariant of its own fields.
#![tactic(auto)]

pub mod fault;
pub mod frame;
pub mod limits;
pub mod payload;
pub mod row;
