// A frame as it lies in a table or a list: plain, and not yet checked.
#[derive(Clone, Copy, PartialEq, Eq, Debug, Default)]
pub struct Row {
    // The control box that sends it.
    pub sender: u8,
    // The bytes of its signals together.
    pub fill: u8,
    // The shortest time between two sendings, in nanoseconds.
    pub period: u64,
    // How late after its release it may be, in nanoseconds.
    pub deadline: u64,
    // Bit k stands for domain k.
    pub set: u8,
}
