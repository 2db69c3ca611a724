// Quotients that are rounded up.
ghost use Rattle.std.specs.Prelude.{◌≡◌, ◌<◌};
ghost use Rattle.streams.specs.Demands.{ceil, Rounded};

// n / by, rounded up: so many periods begin in a time, and so many millionths a cost takes of a period.
pub fn div_up(n: u64, by: u64) -> u64
    requires { 0 < by }
    ensures is { result ≡ ceil n by }
    ensures rounded { Rounded n by result }
{
    n.div_ceil(by)
}
