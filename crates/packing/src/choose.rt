// Which frame a signal goes to.
ghost use Rattle.std.specs.Prelude.{◌≡◌, ◌<◌, ◌≤◌};
ghost use Rattle.signals.specs.Limits.{LawfulSignal};
ghost use Rattle.packing.specs.Choices.{at_frame, choice, growth_at};
ghost use Rattle.packing.specs.Holds.{held};

use crate::choice::Choice;
use crate::tables::Tables;
use domains::domain::Domain;
use frames::limits::{MAX_FILL, MAX_FRAMES};
use signals::signal::Signal;
use weights::weigh::row_weight;

// A signal that asks for a frame of the tables, over a bank of domains.
#[derive(Drop)]
pub struct Entrant<'a, D> {
    pub bank: &'a D,
    pub tables: &'a Tables,
    pub signal: &'a Signal,
    pub ghost lawful: { LawfulSignal signal.now },
}

impl<D: Domain> Entrant<'_, D> {
    // How much more the plan weighs where the signal joins frame n, which has to be of its sender and have room.
    fn join_growth(&self, n: usize) -> Option<u64>
        requires { n < (held self.now.tables.now).frames }
        ensures { result ≡ growth_at (D.cost self.now.bank.now) (held self.now.tables.now) self.now.signal.now n }
    {
        let row = self.tables.row(n);
        if row.sender != self.signal.sender {
            return None;
        }
        if row.fill + self.signal.size > MAX_FILL {
            return None;
        }
        let after = row_weight(self.bank, &self.tables.row_with(n, self.signal));
        Some(after - row_weight(self.bank, &row))
    }

    // How much more it weighs where the signal opens frame n, the one after the last, if there may be one more.
    fn open_growth(&self, n: usize) -> Option<u64>
        requires { n ≡ (held self.now.tables.now).frames }
        ensures { result ≡ growth_at (D.cost self.now.bank.now) (held self.now.tables.now) self.now.signal.now n }
    {
        if n >= MAX_FRAMES {
            return None;
        }
        Some(row_weight(self.bank, &self.tables.row_with(n, self.signal)))
    }

    // What frame n offers the signal, an old one or the one after the last.
    fn offer(&self, n: usize) -> Option<Choice>
        requires { n ≤ (held self.now.tables.now).frames }
        ensures { result ≡ at_frame n (growth_at (D.cost self.now.bank.now) (held self.now.tables.now) self.now.signal.now n) }
    {
        let growth = if n < self.tables.frame_count() {
            self.join_growth(n)?
        } else {
            self.open_growth(n)?
        };
        Some(Choice { frame: n, growth })
    }

    // The frame where the weight grows least: an old one before a new one, an earlier one before a later one.
    pub fn choose(&self) -> Option<Choice>
        ensures { result ≡ choice (D.cost self.now.bank.now) (held self.now.tables.now) self.now.signal.now }
    {
        let count = self.tables.frame_count();
        (0..=count)
            .filter_map(|n| self.offer(n))
            .min_by_key(|choice| choice.growth)
    }
}
