// What the readings look up in the order that stands.
ghost use Rattle.std.specs.Prelude.{◌≡◌, ◌≤◌, map, length};
ghost use Rattle.packing.specs.Holds.{held};
ghost use Rattle.packing.specs.Packings.{row};
ghost use Rattle.plan.specs.Stands.{place_in};

use arrayvec::ArrayVec;
use frames::limits::MAX_FRAMES;
use frames::row::Row;
use packing::tables::Tables;

// The place of frame n in the order, counted from 0; the number of places where it has none. It is no `Option`, since
// the definition `place_in` wants how many come before the frame, and that many do.
pub(crate) fn place_of(numbers: &[u8], n: usize) -> usize
    ensures is { result ≡ place_in n numbers.now }
    ensures low { result ≤ length numbers.now }
{
    numbers
        .iter()
        .position(|number| usize::from(*number) == n)
        .unwrap_or(numbers.len())
}

// The rows of the frames in order of priority.
pub(crate) fn line_up(tables: &Tables, numbers: &[u8]) -> ArrayVec<Row, MAX_FRAMES>
    requires { length numbers.now ≤ 96 }
    ensures { result.items ≡ map (row (held tables.now)) numbers.now }
{
    let mut rows = ArrayVec::new();
    for n in numbers {
        rows.push(tables.row(usize::from(*n)));
    }
    rows
}
