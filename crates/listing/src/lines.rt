// The lines of a plan and of a fault.
ghost use Rattle.std.specs.Prelude.{◌≡◌, ◌+◌, ◌<◌, ◌≤◌, ◌++◌, length};
ghost use Rattle.frames.specs.Records.{row_of};
ghost use Rattle.packing.specs.Holds.{held};
ghost use Rattle.plan.specs.Banks.{bank_of};
ghost use Rattle.plan.specs.Holds.{stands_of};
ghost use Rattle.listing.specs.Lines.{row_text, times_in, times_text, order_line, conflict_line, fault_line};

use crate::text::Listing;
use domains::domain::{Domain, MOST_DOMAINS};
use fields::digits::hex;
use frames::frame::Frame;
use frames::row::Row;
use plan::closed::Closed;
use timing::carried::carries;

impl Listing {
    // Sender, payload, period, deadline and set.
    fn push_row(&mut self, frame: &Frame)
        requires { length self.old.bytes.items + 25 ≤ 6240 }
        ensures is { self.new.bytes.items ≡ self.old.bytes.items ++ row_text (row_of frame.now) }
        ensures len { length self.new.bytes.items ≡ length self.old.bytes.items + 25 }
    {
        let row = Row::from(*frame);
        self.push_field::<1>(u64::from(row.sender));
        self.push_field::<2>(u64::from(frame.payload()));
        self.push_field::<8>(row.period);
        self.push_field::<8>(row.deadline);
        self.push_field::<1>(u64::from(row.set));
    }

    // How late frame n can be in each domain of a set, the lowest first.
    fn push_times<B: Domain>(&mut self, plan: &Closed<B>, n: usize, set: u8)
        requires { length self.old.bytes.items + 36 ≤ 6240 }
        ensures is { self.new.bytes.items ≡ self.old.bytes.items ++ times_text (times_in (bank_of (B.count plan.now.bank) (B.cost plan.now.bank) (B.response plan.now.bank)) (held plan.now.tables) (stands_of (held plan.now.tables).frames plan.now.standing) n set) }
        ensures low { length self.new.bytes.items ≤ length self.old.bytes.items + 36 }
    {
        for k in 0..MOST_DOMAINS {
            if carries(k, set) {
                self.push_field::<8>(plan.response(n, k).unwrap_or(0));
            }
        }
    }

    // The line of frame n in the order that stands. Each of the three lines asks for the room of the longest: a type
    // that held it would be no plainer, since each push leaves less.
    pub(crate) fn push_order_line<B: Domain>(&mut self, plan: &Closed<B>, n: usize)
        requires room { length self.old.bytes.items + 65 ≤ 6240 }
        requires within { n < (held plan.now.tables).frames }
        ensures is { self.new.bytes.items ≡ self.old.bytes.items ++ order_line (bank_of (B.count plan.now.bank) (B.cost plan.now.bank) (B.response plan.now.bank)) (held plan.now.tables) (stands_of (held plan.now.tables).frames plan.now.standing) n }
        ensures low { length self.new.bytes.items ≤ length self.old.bytes.items + 65 }
    {
        let frame = plan.record(n).unwrap();
        // While an order stands each frame has an identifier, and a time in each domain of its set.
        let identifier = plan.identifier(n).unwrap_or(0);
        self.push_text(&hex::<3>(u64::from(identifier)));
        self.push_row(&frame);
        self.push_times(plan, n, Row::from(frame).set);
        self.push_feed();
    }

    // The line of frame n in the conflict that stands.
    pub(crate) fn push_conflict_line<B: Domain>(&mut self, plan: &Closed<B>, n: usize)
        requires room { length self.old.bytes.items + 65 ≤ 6240 }
        requires within { n < (held plan.now.tables).frames }
        ensures is { self.new.bytes.items ≡ self.old.bytes.items ++ conflict_line (held plan.now.tables) n }
        ensures low { length self.new.bytes.items ≤ length self.old.bytes.items + 65 }
    {
        let frame = plan.record(n).unwrap();
        self.push_text(b"FFF");
        self.push_row(&frame);
        self.push_feed();
    }

    // The line of a fault by its number, with its place in a sheet.
    pub(crate) fn push_fault_line(&mut self, number: u8, line: u16, field: u8)
        requires { length self.old.bytes.items + 65 ≤ 6240 }
        ensures { self.new.bytes.items ≡ self.old.bytes.items ++ fault_line number line field }
    {
        self.push_text(b"EEE");
        self.push_field::<2>(u64::from(number));
        self.push_field::<4>(u64::from(line));
        self.push_field::<1>(u64::from(field));
        self.push_feed();
    }
}
