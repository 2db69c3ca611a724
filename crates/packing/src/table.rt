// The signals of a plan, in order of entry.
use lists::list::ArrayList;
use signals::signal::Entry;

// A plan has no more.
pub const MAX_SIGNALS: usize = 256;

#[derive(Clone, Copy)]
pub struct SignalTable {
    pub(crate) entries: ArrayList<Entry, MAX_SIGNALS>,
}

pub mod edit;
