// A record is made from a row, after a check, and read back.
ghost use Rattle.std.specs.Prelude.{◌≡◌};
ghost use Rattle.frames.specs.Payloads.{payload};
ghost use Rattle.frames.specs.Records.{Checked, row_of};

use crate::fault::RowFault;
use crate::frame::Frame;
use crate::limits::{MAX_FILL, MAX_PERIOD};
use crate::payload::payload_of;
use crate::row::Row;

impl TryFrom<Row> for Frame {
    type Error = RowFault;

    ghost try_from_gives = { Checked };

    // The record of a row, or the first limit that the row breaks.
    fn try_from(row: Row) -> Result<Frame, RowFault> {
        let Row {
            sender,
            fill,
            period,
            deadline,
            set,
        } = row;
        if !(1..=MAX_FILL).contains(&fill) {
            return Err(RowFault::Fill);
        }
        if !(1_000_000..=MAX_PERIOD).contains(&period) {
            return Err(RowFault::Period);
        }
        if !(1..=period).contains(&deadline) {
            return Err(RowFault::Deadline);
        }
        if !(1..=15).contains(&set) {
            return Err(RowFault::Set);
        }
        Ok(Frame {
            sender,
            fill,
            period,
            deadline,
            set,
        })
    }
}

impl From<Frame> for Row {
    ghost from_gives = { λ f r. r ≡ row_of f };

    fn from(frame: Frame) -> Row {
        Row {
            sender: frame.sender,
            fill: frame.fill,
            period: frame.period,
            deadline: frame.deadline,
            set: frame.set,
        }
    }
}

impl Frame {
    pub fn payload(&self) -> u8
        ensures { result ≡ payload self.now.fill }
    {
        payload_of(self.fill).unwrap()
    }

    pub fn period(&self) -> u64
        ensures { result ≡ self.now.period }
    {
        self.period
    }
}
