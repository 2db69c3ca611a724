// What lies behind the answer of a bus: the busy period, and each of its instances. Each method has room for the streams
// of a whole list, and stays out of its callers, so that a caller of both has room for one list at a time.
ghost use Rattle.std.specs.Prelude.{◌≡◌};
ghost use Rattle.domains.specs.Asked.{asked};
ghost use Rattle.kinds.specs.Rows.{of_streams};
ghost use Rattle.bus.specs.Buses.{bus_price, bus_busy, bus_instance};

use crate::bus::Bus;
use crate::bus::busy::BusyPeriod;
use domains::question::Question;
use kinds::look::look;

impl Bus {
    // How long the bus is at worst busy with the frame and those above it; none where it has no end up to the horizon.
    #[inline(never)]
    pub fn busy_period(&self, question: &Question<'_>) -> Option<u64>
        ensures { result ≡ asked (of_streams (bus_price self.now) bus_busy) question.now.rows.now question.now.places.now question.now.frame }
    {
        let streams = look(self, question)?;
        let busy = BusyPeriod::of(*self, &streams.view())?;
        Some(busy.length)
    }

    // The response time of instance q of that busy period, counted from 0; none past its last instance.
    #[inline(never)]
    pub fn instance(&self, question: &Question<'_>, q: u64) -> Option<u64>
        ensures { result ≡ asked (of_streams (bus_price self.now) (bus_instance self.now.arbitration q)) question.now.rows.now question.now.places.now question.now.frame }
    {
        let streams = look(self, question)?;
        let busy = BusyPeriod::of(*self, &streams.view())?;
        if q >= busy.instances() {
            return None;
        }
        Some(busy.delay(q, 0) + busy.view.own.cost - q * busy.view.own.period)
    }
}
