// What the signal table changes where a frame leaves.
ghost use Rattle.std.specs.Prelude.{◌≡◌, map};
ghost use Rattle.packing.specs.Packings.{lower, lowered};
ghost use Rattle.packing.specs.Tables.{listed};

use crate::table::SignalTable;

impl SignalTable {
    // Frame f is gone: the number of each later frame falls by one.
    pub(crate) fn close_up(&mut self, f: usize)
        ensures { listed self.new ≡ map (lower f) (listed self.old) }
    {
        // By place: a list that lends its items to be changed would want a proof by hand over the machine.
        for i in 0..self.entries.len() {
            let mut entry = self.entries.as_slice()[i];
            entry.frame = moved_up(entry.frame, f);
            self.entries.set(i, entry);
        }
    }
}

// The number of frame n once frame f is gone.
fn moved_up(n: usize, f: usize) -> usize
    ensures { result ≡ lowered f n }
{
    if n > f { n - 1 } else { n }
}
