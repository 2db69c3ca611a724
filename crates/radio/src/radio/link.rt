// The radio link as a domain.
ghost use Rattle.std.specs.Prelude.{[], ◌∷◌};
ghost use Rattle.domains.specs.Faults.{Made, limited};
ghost use Rattle.kinds.specs.Rows.{one, alone_cost, alone_response};
ghost use Rattle.radio.specs.Radios.{figures, radio_price, radio_time};
ghost use Rattle.radio.specs.Rounds.{radio_kept};
ghost use Rattle.kinds.proofs.Singles.{kind_duties};

use crate::radio::Radio;
use domains::domain::Domain;
use domains::fault::DomainFault;
use domains::figure::check_figure;
use domains::question::Question;
use frames::frame::Frame;
use kinds::alone::{answer_alone, cost_alone};
use kinds::kind::Kind;
use kinds::view::View;
use streams::load::Load;
use streams::totals::least_period;

impl Radio {
    // A link whose bytes take 10,000 to 200,000 nanoseconds each.
    pub fn new(byte: u64) -> Result<Radio, DomainFault>
        ensures { Made figures (limited 10000 byte 200000 ∷ []) result }
    {
        check_figure(10_000, byte, 200_000, DomainFault::FirstFigure)?;
        Ok(Radio { byte })
    }
}

impl Kind for Radio {
    ghost price = { radio_price };

    ghost time = { λ r. radio_time };

    ghost kept = { radio_kept };

    fn price(&self, payload: u8) -> u64 {
        self.byte * (u64::from(payload) + 6)
    }

    fn time(&self, view: &View<'_>) -> Option<u64> {
        let sum = view.own.cost + view.above.total_cost() + Load::new(view.below).total_cost();
        let period = least_period(view.own.period, view.above.as_slice());
        let period = least_period(period, view.below);
        (sum <= period).then_some(sum)
    }
}

// Each kind has an impl of its own: one for all kinds would collide with that of `Pair`, and a wrapper would take
// `Domain` from the kind itself. Its methods are what the kinds share.
impl Domain for Radio {
    ghost count = { one };

    ghost cost = { alone_cost radio_price };

    ghost response = { alone_response radio_price (λ r. radio_time) };

    ghost duties = { kind_duties radio_kept };

    fn count(&self) -> usize {
        1
    }

    fn cost(&self, k: usize, frame: &Frame) -> u64 {
        cost_alone(self, k, frame)
    }

    fn answer(&self, k: usize, question: &Question<'_>) -> Option<u64> {
        answer_alone(self, k, question)
    }
}
