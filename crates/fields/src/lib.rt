// Numbers in hexadecimal digits and fields in lines, read from bytes and written. It knows nothing of frames.
// A digit is one of 0 to 9 and A to F. A field is one space and then an exact number of digits. A line is its letter,
// its fields and a line feed.
#![tactic(auto)]

pub mod digits;
pub mod meaning;
pub mod reading;
