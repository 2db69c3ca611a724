// A kind of domain, by what it makes of streams.
ghost use Rattle.std.specs.Prelude.{◌≡◌, ℕ, ◌≤◌, List, length, Option};
ghost use Rattle.std.specs.List.{AllByRecursion};
ghost use Rattle.streams.specs.declared.stream.Stream.{Stream};
ghost use Rattle.streams.specs.Demands.{Fit};
ghost use Rattle.kinds.specs.KindLaws.{KindLaws, Own};

use crate::view::View;

pub trait Kind {
    // The time that a payload takes.
    ghost price: { Self → ℕ → ℕ };

    // The response time of a stream, with streams above it and streams below it.
    ghost time: { Self → Stream → List Stream → List Stream → Option ℕ };

    fn price(&self, payload: u8) -> u64
        ensures { result ≡ price self.now payload };

    // These are asked here and are no facts of a view: a type that held them would ask more of a caller of the gateway,
    // which does without.
    fn time(&self, view: &View<'_>) -> Option<u64>
        requires own { Own (price self.now) view.now.own }
        requires under { AllByRecursion Fit view.now.below.now }
        requires less { length view.now.below.now ≤ 96 }
        ensures { result ≡ time self.now view.now.own view.now.above.streams.now view.now.below.now };

    // The duties, for streams.
    ghost kept: { KindLaws price time };
}
