// The CAN FD bus as a domain.
ghost use Rattle.std.specs.Prelude.{◌≡◌, [], ◌∷◌};
ghost use Rattle.std.specs.List.{AllByRecursion};
ghost use Rattle.streams.specs.Demands.{Fit};
ghost use Rattle.domains.specs.Faults.{Made, limited};
ghost use Rattle.kinds.specs.KindLaws.{Own};
ghost use Rattle.kinds.specs.Rows.{one, alone_cost, alone_response};
ghost use Rattle.bus.specs.Answers.{BusAnswer};
ghost use Rattle.bus.specs.Buses.{figures, bus_price, blocking, bus_time};
ghost use Rattle.bus.specs.Wiring.{bus_kept};
ghost use Rattle.kinds.proofs.Singles.{kind_duties};

use crate::bus::Bus;
use crate::bus::busy::BusyPeriod;
use domains::domain::Domain;
use domains::fault::DomainFault;
use domains::figure::check_figure;
use domains::question::Question;
use frames::frame::Frame;
use kinds::alone::{answer_alone, cost_alone};
use kinds::kind::Kind;
use kinds::view::View;

impl Bus {
    // A bus whose arbitration bits take 1,000 to 8,000 nanoseconds, and its data bits 125 up to as long.
    pub fn new(arbitration: u64, data: u64) -> Result<Bus, DomainFault>
        ensures { Made figures (limited 1000 arbitration 8000 ∷ limited 125 «data» arbitration ∷ []) result }
    {
        check_figure(1_000, arbitration, 8_000, DomainFault::FirstFigure)?;
        check_figure(125, data, arbitration, DomainFault::SecondFigure)?;
        Ok(Bus { arbitration, data })
    }
}

impl Kind for Bus {
    ghost price = { bus_price };

    ghost time = { λ b. bus_time b.arbitration };

    ghost kept = { bus_kept };

    fn price(&self, payload: u8) -> u64 {
        let bits = 34 * self.arbitration + (28 + 10 * u64::from(payload)) * self.data;
        if payload > 16 {
            bits + 5 * self.data
        } else {
            bits
        }
    }

    // Every instance of the busy period counts: a later one can be later than the first. It asks what `Kind::time`
    // asks, where it is said why no view holds that.
    fn time(&self, view: &View<'_>) -> Option<u64>
        requires own { Own (bus_price self.now) view.now.own }
        requires under { AllByRecursion Fit view.now.below.now }
        ensures is { result ≡ bus_time self.now.arbitration view.now.own view.now.above.streams.now view.now.below.now }
        ensures words { BusAnswer self.now.arbitration view.now.own view.now.above.streams.now (blocking view.now.below.now) result }
    {
        let busy = BusyPeriod::of(*self, view)?;
        let instances = busy.instances();
        let mut worst: u64 = 0;
        let mut known: u64 = 0;
        for q in 0..instances {
            // The next instance waits at least until this one is done.
            known = busy.delay(q, known) + busy.view.own.cost;
            worst = worst.max(known - q * busy.view.own.period);
        }
        Some(worst)
    }
}

// Each kind has an impl of its own: one for all kinds would collide with that of `Pair`, and a wrapper would take
// `Domain` from the kind itself. Its methods are what the kinds share.
impl Domain for Bus {
    ghost count = { one };

    ghost cost = { alone_cost bus_price };

    ghost response = { alone_response bus_price (λ b. bus_time b.arbitration) };

    ghost duties = { kind_duties bus_kept };

    fn count(&self) -> usize {
        1
    }

    fn cost(&self, k: usize, frame: &Frame) -> u64 {
        cost_alone(self, k, frame)
    }

    fn answer(&self, k: usize, question: &Question<'_>) -> Option<u64> {
        answer_alone(self, k, question)
    }
}
