// What share of a domain a stream takes.
ghost use Rattle.std.specs.Prelude.{◌≡◌};
ghost use Rattle.streams.specs.Demands.{Fit, weight};

use crate::rounding::div_up;
use crate::stream::Stream;

// In millionths, rounded up.
pub fn weight_of(stream: &Stream) -> u64
    requires { Fit stream.now }
    ensures { result ≡ weight stream.now }
{
    div_up(stream.cost * 1_000_000, stream.period)
}
