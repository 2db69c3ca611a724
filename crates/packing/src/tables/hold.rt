// What the tables hold, one signal more, and one out.
ghost use Rattle.std.specs.Prelude.{◌≡◌, ◌+◌, ◌<◌, ◌≤◌, [], ◌∷◌, ◌++◌, length, slice_set};
ghost use Rattle.std.specs.List.{AllByRecursion};
ghost use Rattle.frames.specs.Limits.{Lawful};
ghost use Rattle.signals.specs.Limits.{LawfulSignal};
ghost use Rattle.signals.specs.Riders.{riders};
ghost use Rattle.signals.specs.Rows.{row_by};
ghost use Rattle.packing.specs.Holds.{held};
ghost use Rattle.packing.specs.Laws.{Placeable, WellPacked};
ghost use Rattle.packing.specs.Packings.{packed, row, rows, placed, taken_out};

use crate::table::SignalTable;
use crate::tables::Tables;
use arrayvec::ArrayVec;
use frames::limits::MAX_FRAMES;
use frames::row::Row;
use lists::list::ArrayList;
use signals::entries::has_rider;
use signals::gather::{BLANK, gather, join};
use signals::signal::{Entry, Signal};

impl Tables {
    pub fn new() -> Tables
        ensures { held result ≡ packed [] 0 }
    {
        Tables {
            signals: SignalTable {
                entries: ArrayList::new(),
            },
            rows: ArrayVec::new(),
        }
    }

    pub fn signal_count(&self) -> usize
        ensures { result ≡ length (held self.now).signals }
    {
        self.signals.entries.len()
    }

    pub fn frame_count(&self) -> usize
        ensures is { result ≡ (held self.now).frames }
        ensures low { result ≤ 96 }
    {
        self.rows.len()
    }

    // The signals in order of entry, each with the number of its frame. Any tables are well packed by their invariants;
    // `packed` says it in words to whoever reads the contract, as those of `enter` and `withdraw` do.
    pub fn entries(&self) -> &[Entry]
        ensures is { result.now ≡ (held self.now).signals }
        ensures packed { WellPacked (held self.now) }
    {
        self.signals.entries.as_slice()
    }

    // The rows of the frames, in list order. A row is no record and holds no fact, so `lawful` stands here and below,
    // wherever one is given out.
    pub fn frame_rows(&self) -> &[Row]
        ensures is { result.now ≡ rows (held self.now) }
        ensures few { length result.now ≤ 96 }
        ensures lawful { AllByRecursion Lawful result.now }
    {
        self.rows.as_slice()
    }

    // The row of frame n; past the last frame, a blank one.
    pub fn row(&self, n: usize) -> Row
        ensures is { result ≡ row (held self.now) n }
        ensures lawful { n < (held self.now).frames → Lawful result }
    {
        self.rows.get(n).copied().unwrap_or(BLANK)
    }

    // The row that frame n would have with the signal in it.
    pub(crate) fn row_with(&self, n: usize, signal: &Signal) -> Row
        requires { (row (held self.now) n).fill + signal.now.size ≤ 64 }
        ensures is { result ≡ row_by (riders n (held self.now).signals ++ (signal.now ∷ [])) }
        ensures lawful { LawfulSignal signal.now → Lawful result }
    {
        join(&self.row(n), signal)
    }

    // Puts the signal into frame n.
    pub fn place(&mut self, signal: Signal, n: usize)
        requires { Placeable (held self.old) signal n }
        ensures { held self.new ≡ placed (held self.old) signal n }
    {
        let row = self.row_with(n, &signal);
        put(&mut self.rows, n, row);
        self.signals.entries.push(Entry { signal, frame: n });
    }

    // Takes the signal at place i out. Its frame's row alone is gathered anew, or leaves where no signal rides there.
    pub fn take_out(&mut self, i: usize)
        requires { i < length (held self.old).signals }
        ensures { held self.new ≡ taken_out (held self.old) i }
    {
        let gone = self.signals.entries.remove(i);
        let f = gone.frame;
        let left = self.signals.entries.as_slice();
        if has_rider(left, f) {
            put(&mut self.rows, f, gather(left, f));
        } else {
            self.signals.close_up(f);
            self.rows.remove(f);
        }
    }
}

// Writes the row of frame n, an old one or the one after the last.
fn put(rows: &mut ArrayVec<Row, MAX_FRAMES>, n: usize, row: Row)
    requires near { n ≤ length rows.old.items }
    requires room { n < 96 }
    ensures old { n < length rows.old.items → rows.new.items ≡ slice_set rows.old.items n row }
    ensures next { n ≡ length rows.old.items → rows.new.items ≡ rows.old.items ++ (row ∷ []) }
{
    match rows.get_mut(n) {
        Some(old) => *old = row,
        None => rows.push(row),
    }
}
