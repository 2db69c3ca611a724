// A frame as a domain sees it: its cost there, at most once in each period.
#[derive(Clone, Copy, PartialEq, Eq, Debug, Default)]
pub struct Stream {
    pub cost: u64,
    pub period: u64,
}
