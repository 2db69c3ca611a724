// What streams demand of a domain in a time.
ghost use Rattle.std.specs.Prelude.{◌≡◌, ◌*◌, ◌≤◌};
ghost use Rattle.streams.specs.Demands.{ceil, demand, Fit};

use crate::load::Load;
use crate::rounding::div_up;
use crate::stream::Stream;

// The time that the instances of a stream take that are released in the time w.
fn share(stream: &Stream, w: u64) -> u64
    requires fit { Fit stream.now }
    requires soon { w ≤ 4000008000 }
    ensures is { result ≡ ceil w stream.now.period * stream.now.cost }
    ensures low { result ≤ 80020000000 }
{
    div_up(w, stream.period) * stream.cost
}

impl Load<'_> {
    // The time that the instances of all streams take that are released in the time w.
    pub fn demand(&self, w: u64) -> u64
        requires { w ≤ 4000008000 }
        ensures is { result ≡ demand self.now.streams.now w }
        ensures low { result ≤ 7761940000000 }
    {
        let mut sum: u64 = 0;
        for stream in self.streams {
            sum += share(stream, w);
        }
        sum
    }
}
