// The tables of a plan: its signals, and the row of each frame, which is what the signals in it give.
ghost use Rattle.std.specs.Prelude.{◌≡◌, true, length};
ghost use Rattle.packing.specs.Packings.{packed, rows_of};
ghost use Rattle.packing.specs.Sound.{sound};
ghost use Rattle.packing.specs.Tables.{listed};

use crate::table::SignalTable;
use arrayvec::ArrayVec;
use frames::limits::MAX_FRAMES;
use frames::row::Row;

#[derive(Drop)]
pub struct Tables {
    signals: SignalTable,
    rows: ArrayVec<Row, MAX_FRAMES>,
    ghost ok: { sound (packed (listed signals) (length rows.items)) ≡ true },
    ghost kept: { rows.items ≡ rows_of (listed signals) (length rows.items) },
}

pub mod hold;
