// The limits that code of several crates names. Contracts say them as numbers, and the proofs tie the two.

// A list has no more frames.
pub const MAX_FRAMES: usize = 96;

// The bytes that a frame carries at the most: the largest payload.
pub const MAX_FILL: u8 = 64;

// The longest period of a frame, in nanoseconds. No deadline is longer.
pub const MAX_PERIOD: u64 = 2_000_000_000;
