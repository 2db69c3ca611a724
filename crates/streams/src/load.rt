// The streams that load a domain: a frame's own and those of 96 others at the most, each within the limits.
ghost use Rattle.std.specs.Prelude.{◌≡◌, ◌≤◌, All, length};
ghost use Rattle.streams.specs.Demands.{Fit};

use crate::stream::Stream;

// No response time exceeds it: four seconds.
pub const HORIZON: u64 = 4_000_000_000;

#[derive(Clone, Copy)]
pub struct Load<'a> {
    streams: &'a [Stream],
    ghost fit: { All Fit streams.now },
    ghost few: { length streams.now ≤ 97 },
}

impl<'a> Load<'a> {
    pub fn new(streams: &'a [Stream]) -> Load<'a>
        requires fit { All Fit streams.now }
        requires few { length streams.now ≤ 97 }
        ensures { result.streams.now ≡ streams.now }
    {
        Load { streams }
    }

    pub fn as_slice(&self) -> &'a [Stream]
        ensures { result.now ≡ self.now.streams.now }
    {
        self.streams
    }
}

mod costs;
mod demand;
mod settle;
