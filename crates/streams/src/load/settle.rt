// The smallest solution of a response time equation.
ghost use Rattle.std.specs.Prelude.{◌≡◌, ℕ, ◌+◌, ◌≤◌, max};
ghost use Rattle.shelf.specs.Times.{AtMost};
ghost use Rattle.shelf.specs.Smallest.{solution};
ghost use Rattle.streams.specs.Demands.{busy, horizon};

use crate::load::{HORIZON, Load};

impl Load<'_> {
    // The smallest w from `from` to the horizon with w = base + what the streams demand in w + ahead.
    // No solution is below `known`, so the search may start there.
    pub fn settle(&self, base: u64, ahead: u64, from: u64, known: u64) -> Option<u64>
        requires small { base ≤ 100000000000 }
        requires near { ahead ≤ 8000 }
        requires early { from ≤ horizon }
        requires rises { max from known ≤ busy self.now.streams.now base ahead (max from known) }
        requires below { (v : ℕ) → from ≤ v → v ≡ busy self.now.streams.now base ahead v → known ≤ v }
        ensures is { result ≡ solution (busy self.now.streams.now base ahead) from horizon }
        ensures soon { AtMost horizon result }
    {
        let mut w = from.max(known);
        while w <= HORIZON {
            let next = base + self.demand(w + ahead);
            if next == w {
                return Some(w);
            }
            w = next;
        }
        None
    }
}
