// Where another frame of a list stands to the frame asked about.
#[derive(Clone, Copy, PartialEq, Eq, Debug)]
pub enum Place {
    // It has the higher priority.
    Above,
    // It has the lower priority.
    Below,
    // The question does not speak of it.
    Absent,
}
