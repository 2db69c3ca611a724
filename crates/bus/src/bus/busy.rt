// The busy period of a frame on a bus, and how long each instance of it waits.
ghost use Rattle.std.specs.Prelude.{◌≡◌, ℕ, ◌*◌, ◌<◌, ◌≤◌, Some, None, MatchOption};
ghost use Rattle.std.specs.List.{AllByRecursion};
ghost use Rattle.streams.specs.Demands.{ceil, horizon, Fit};
ghost use Rattle.kinds.specs.KindLaws.{Own};
ghost use Rattle.bus.specs.Buses.{bus_price, blocking, bus_busy, queue_load, delay};

use crate::bus::Bus;
use crate::queue::queue_of;
use kinds::view::View;
use streams::load::Load;
use streams::rounding::div_up;
use streams::totals::largest_cost;

// How long the bus is at worst busy with the frame of the view and those above it, blocked by one below.
#[derive(Clone, Copy)]
pub(crate) struct BusyPeriod<'a> {
    bus: Bus,
    pub(crate) view: View<'a>,
    blocked_for: u64,
    pub(crate) length: u64,
    ghost own: { Own (bus_price bus) view.own },
    ghost blocked: { blocked_for ≡ blocking view.below.now },
    ghost low: { blocked_for ≤ 20000000 },
    ghost is: { Some length ≡ bus_busy view.own view.above.streams.now view.below.now },
}

impl<'a> BusyPeriod<'a> {
    // None where it has no end up to the horizon. It asks what `Kind::time` asks, where it is said why no view holds
    // that.
    pub(crate) fn of(bus: Bus, view: &View<'a>) -> Option<BusyPeriod<'a>>
        requires own { Own (bus_price bus) view.now.own }
        requires under { AllByRecursion Fit view.now.below.now }
        ensures { MatchOption result (None ≡ bus_busy view.now.own view.now.above.streams.now view.now.below.now) (λ p. (p.bus ≡ bus) × (p.view ≡ view.now)) }
    {
        let blocked_for = largest_cost(view.below);
        let queue = queue_of(view);
        let length = Load::new(&queue).settle(blocked_for, 0, 1, 0)?;
        Some(BusyPeriod {
            bus,
            view: *view,
            blocked_for,
            length,
        })
    }

    // How many instances of the frame there are in it.
    pub(crate) fn instances(&self) -> u64
        ensures { result ≡ ceil self.now.length self.now.view.own.period }
    {
        div_up(self.length, self.view.own.period)
    }

    // How long instance q waits: every one of them has an end to its waiting. It does not start before the time known,
    // so the search begins there.
    pub(crate) fn delay(&self, q: u64, known: u64) -> u64
        requires within { q < ceil self.now.length self.now.view.own.period }
        requires rises { known ≤ queue_load self.now.bus.arbitration self.now.view.own self.now.view.above.streams.now (blocking self.now.view.below.now) q known }
        requires below { (v : ℕ) → v ≡ queue_load self.now.bus.arbitration self.now.view.own self.now.view.above.streams.now (blocking self.now.view.below.now) q v → known ≤ v }
        ensures is { delay self.now.bus.arbitration self.now.view.own self.now.view.above.streams.now (blocking self.now.view.below.now) q ≡ Some result }
        ensures begins { q * self.now.view.own.period ≤ result }
        ensures soon { result ≤ horizon }
    {
        let base = self.blocked_for + q * self.view.own.cost;
        self.view
            .above
            .settle(base, self.bus.arbitration, 0, known)
            .unwrap()
    }
}
