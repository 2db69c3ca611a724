// A plan that is ordered and read.
use ordering::conflicts::Conflict;
use ordering::orders::Placement;
use packing::tables::Tables;

// What stands: an order, a conflict, or neither. Three names are plainer than an Option of a Result, in which a
// conflict that stands would read as a failure.
#[derive(Clone, Copy)]
pub enum Standing {
    Neither,
    Ordered(Placement),
    Clashing(Conflict),
}

#[derive(Drop)]
pub struct Closed<B> {
    pub(crate) bank: B,
    pub(crate) tables: Tables,
    pub(crate) standing: Standing,
}

mod line;
pub mod order;
pub mod readings;
