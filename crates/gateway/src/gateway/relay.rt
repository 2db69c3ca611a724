// The gateway processor as a domain.
ghost use Rattle.std.specs.Prelude.{◌≡◌, [], ◌∷◌};
ghost use Rattle.domains.specs.Faults.{Made, limited};
ghost use Rattle.kinds.specs.Rows.{one, alone_cost, alone_response};
ghost use Rattle.gateway.specs.Gateways.{figures, gateway_price, relayed, Relayed};
ghost use Rattle.gateway.specs.Relays.{gateway_kept};
ghost use Rattle.kinds.proofs.Singles.{kind_duties};

use crate::gateway::Gateway;
use domains::domain::Domain;
use domains::fault::DomainFault;
use domains::figure::check_figure;
use domains::question::Question;
use frames::frame::Frame;
use kinds::alone::{answer_alone, cost_alone};
use kinds::kind::Kind;
use kinds::view::View;

impl Gateway {
    // A processor that takes 1,000 to 100,000 nanoseconds for a frame, and up to 1,000 more for each byte.
    pub fn new(fixed: u64, byte: u64) -> Result<Gateway, DomainFault>
        ensures { Made figures (limited 1000 fixed 100000 ∷ limited 0 byte 1000 ∷ []) result }
    {
        check_figure(1_000, fixed, 100_000, DomainFault::FirstFigure)?;
        check_figure(0, byte, 1_000, DomainFault::SecondFigure)?;
        Ok(Gateway { fixed, byte })
    }
}

impl Kind for Gateway {
    ghost price = { gateway_price };

    ghost time = { λ g. relayed };

    ghost kept = { gateway_kept };

    fn price(&self, payload: u8) -> u64 {
        self.fixed + self.byte * u64::from(payload)
    }

    // A smallest solution, or none up to the horizon: frames below it do not matter.
    fn time(&self, view: &View<'_>) -> Option<u64>
        ensures is { result ≡ relayed view.now.own view.now.above.streams.now view.now.below.now }
        ensures smallest { Relayed view.now.own view.now.above.streams.now result }
    {
        view.above.settle(view.own.cost, 0, 1, 0)
    }
}

// Each kind has an impl of its own: one for all kinds would collide with that of `Pair`, and a wrapper would take
// `Domain` from the kind itself. Its methods are what the kinds share.
impl Domain for Gateway {
    ghost count = { one };

    ghost cost = { alone_cost gateway_price };

    ghost response = { alone_response gateway_price (λ g. relayed) };

    ghost duties = { kind_duties gateway_kept };

    fn count(&self) -> usize {
        1
    }

    fn cost(&self, k: usize, frame: &Frame) -> u64 {
        cost_alone(self, k, frame)
    }

    fn answer(&self, k: usize, question: &Question<'_>) -> Option<u64> {
        answer_alone(self, k, question)
    }
}
