// Figures of any number of streams together.
ghost use Rattle.std.specs.Prelude.{◌≡◌, ◌≤◌};
ghost use Rattle.std.specs.List.{AllByRecursion};
ghost use Rattle.shelf.specs.Folds.{least, most};
ghost use Rattle.streams.specs.Demands.{Fit};

use crate::stream::Stream;

// The smallest of a period and those of the streams.
pub fn least_period(first: u64, streams: &[Stream]) -> u64
    ensures { result ≡ least (λ s. s.period) first streams.now }
{
    let mut smallest = first;
    for stream in streams {
        smallest = smallest.min(stream.period);
    }
    smallest
}

// The largest of the streams' costs, or 0. It takes a slice and no `Load`, since a list of any length has one, and a
// `Load` has 97 streams at the most.
pub fn largest_cost(streams: &[Stream]) -> u64
    requires { AllByRecursion Fit streams.now }
    ensures is { result ≡ most (λ s. s.cost) streams.now }
    ensures low { result ≤ 20000000 }
{
    let mut largest: u64 = 0;
    for stream in streams {
        largest = largest.max(stream.cost);
    }
    largest
}
