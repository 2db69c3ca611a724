// What a frame weighs: its cost in each domain of its set, as a share of its period.
ghost use Rattle.std.specs.Prelude.{◌≡◌, ◌≤◌};
ghost use Rattle.std.specs.List.{AllByRecursion};
ghost use Rattle.frames.specs.Limits.{Lawful};
ghost use Rattle.frames.specs.Records.{row_of};
ghost use Rattle.weights.specs.Weights.{weight_in, row_weight, rows_weight};

use domains::domain::{Domain, MOST_DOMAINS};
use frames::frame::Frame;
use frames::row::Row;
use streams::stream::Stream;
use streams::weight::weight_of;
use timing::carried::carries;
use timing::everywhere::Frames;

// What the frame weighs in domain k; 0 where the domain does not carry it.
pub fn weight_in<D: Domain>(bank: &D, k: usize, frame: &Frame) -> u64
    ensures is { result ≡ weight_in (D.cost bank.now) k (row_of frame.now) }
    ensures low { result ≤ 20000000 }
{
    let row = Row::from(*frame);
    if !carries(k, row.set) {
        return 0;
    }
    let cost = bank.cost(k, frame);
    // What costs nothing weighs nothing.
    if cost == 0 {
        return 0;
    }
    weight_of(&Stream {
        cost,
        period: row.period,
    })
}

// What the frame weighs in all domains of its set.
pub fn frame_weight<D: Domain>(bank: &D, frame: &Frame) -> u64
    ensures is { result ≡ row_weight (D.cost bank.now) (row_of frame.now) }
    ensures low { result ≤ 80000000 }
{
    (0..MOST_DOMAINS).map(|k| weight_in(bank, k, frame)).sum()
}

// What the frame of a row within the limits weighs. Tables hold rows and no records, since a row is gathered from
// signals beginning with a blank one, which no record can be: so a record is made here, and `Lawful` is asked of the
// row.
pub fn row_weight<D: Domain>(bank: &D, row: &Row) -> u64
    requires { Lawful row.now }
    ensures is { result ≡ row_weight (D.cost bank.now) row.now }
    ensures low { result ≤ 80000000 }
{
    Frame::try_from(*row).map_or(0, |frame| frame_weight(bank, &frame))
}

// What the frames of a list weigh together. That their rows are lawful is asked here and is no fact of `Frames`, which
// takes any rows.
pub fn rows_weight<D: Domain>(frames: &Frames<D>) -> u64
    requires { AllByRecursion Lawful frames.now.rows.now }
    ensures { result ≡ rows_weight (D.cost frames.now.bank.now) frames.now.rows.now }
{
    let rows = frames.rows.iter();
    rows.map(|row| row_weight(frames.bank, row)).sum()
}
