// A frame that a signal may go to, and by how much the plan then weighs more.
#[derive(Clone, Copy, PartialEq, Eq, Debug)]
pub struct Choice {
    pub frame: usize,
    pub growth: u64,
}
