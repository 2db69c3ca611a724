// A signal as a planner gives it, and as a plan keeps it, with the number of its frame.
#[derive(Clone, Copy, PartialEq, Eq, Debug, Default)]
pub struct Signal {
    pub name: u16,
    // The control box that sends it.
    pub sender: u8,
    // In bytes.
    pub size: u8,
    // The shortest time between two values, in nanoseconds.
    pub period: u64,
    // How late after its release it may be, in nanoseconds.
    pub deadline: u64,
    // The domains that it has to reach: bit k stands for domain k.
    pub set: u8,
}

#[derive(Clone, Copy, PartialEq, Eq, Debug, Default)]
pub struct Entry {
    pub signal: Signal,
    pub frame: usize,
}
