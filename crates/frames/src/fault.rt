// Why a row is no record: the first of its limits that it breaks.
ghost use Rattle.std.specs.Prelude.{Some};
ghost use Rattle.frames.specs.Texts.{row_fault_text};

use std::error::Error;
use std::fmt;

#[derive(Clone, Copy, PartialEq, Eq, Debug)]
pub enum RowFault {
    Fill,
    Period,
    Deadline,
    Set,
}

impl fmt::Display for RowFault {
    ghost output = { λ e. Some (row_fault_text e) };

    fn fmt<W: fmt::Write>(&self, f: &mut fmt::Formatter<W>) -> fmt::Result {
        f.write_str(match self {
            RowFault::Fill => "the fill of a frame is outside its limits",
            RowFault::Period => "the period of a frame is outside its limits",
            RowFault::Deadline => "the deadline of a frame is outside its limits",
            RowFault::Set => "the domain set of a frame is outside its limits",
        })
    }
}

impl Error for RowFault {}
