// Ordering a closed plan, and reopening it.
ghost use Rattle.std.specs.Prelude.{◌≡◌, ◌≤◌, ◌+◌, ◌*◌, ◌/◌, false, [], ◌∷◌, is_ok, MatchResult};
ghost use Rattle.packing.specs.Holds.{held};
ghost use Rattle.packing.specs.Packings.{rows};
ghost use Rattle.timing.specs.Everywhere.{everywhere};
ghost use Rattle.ordering.specs.Answers.{Answered};
ghost use Rattle.plan.specs.Banks.{bank_of};
ghost use Rattle.plan.specs.Closes.{order_says, ordered};
ghost use Rattle.plan.specs.Holds.{stands_of};
ghost use Rattle.plan.specs.Said.{told};
ghost use Rattle.plan.specs.Subject.{HasOrder, Iff, Upheld};

use crate::closed::{Closed, Standing};
use crate::draft::Draft;
use crate::fault::PlanFault;
use domains::domain::Domain;
use ordering::conflicts::Conflict;
use ordering::orders::{Placement, find_order};
use timing::everywhere::Frames;

// How many frames were ordered, and how many examinations it took.
#[derive(Clone, Copy, PartialEq, Eq, Debug)]
pub struct Counted {
    pub frames: usize,
    pub examinations: usize,
}

impl<B: Domain> Closed<B> {
    fn solve(&self) -> Result<Placement, Conflict>
        ensures { Answered (everywhere (B.response self.now.bank)) (rows (held self.now.tables)) result }
    {
        find_order(&Frames {
            bank: &self.bank,
            rows: self.tables.frame_rows(),
        })
    }

    // Orders the frames, or refuses and leaves the conflict.
    pub fn order(&mut self) -> Result<Counted, PlanFault>
        ensures says { told (λ c. c.frames ∷ c.examinations ∷ []) result ≡ order_says (bank_of (B.count self.old.bank) (B.cost self.old.bank) (B.response self.old.bank)) (held self.old.tables) }
        ensures stands { stands_of (held self.new.tables).frames self.new.standing ≡ ordered (bank_of (B.count self.old.bank) (B.cost self.old.bank) (B.response self.old.bank)) (held self.old.tables) }
        ensures holds { held self.new.tables ≡ held self.old.tables }
        ensures bank { self.new.bank ≡ self.old.bank }
        ensures refused { Iff (is_ok result ≡ false) (HasOrder (bank_of (B.count self.old.bank) (B.cost self.old.bank) (B.response self.old.bank)) (rows (held self.old.tables)) → ⊥) }
        ensures few { MatchResult result (λ c. c.examinations ≤ c.frames * (c.frames + 1) / 2) (λ _. Unit {0}) }
        ensures upheld { Upheld (bank_of (B.count self.old.bank) (B.cost self.old.bank) (B.response self.old.bank)) (held self.old.tables) (stands_of (held self.new.tables).frames self.new.standing) }
    {
        match self.solve() {
            Ok(placement) => {
                let counted = Counted {
                    frames: placement.numbers.len(),
                    examinations: placement.examinations,
                };
                self.standing = Standing::Ordered(placement);
                Ok(counted)
            }
            Err(conflict) => {
                self.standing = Standing::Clashing(conflict);
                Err(PlanFault::NoOrder(conflict.size))
            }
        }
    }

    // Ends the closed plan.
    pub fn reopen(self) -> Draft<B>
        ensures holds { held result.tables ≡ held self.tables }
        ensures bank { result.bank ≡ self.bank }
    {
        let Closed {
            bank,
            tables,
            standing: _,
        } = self;
        Draft { bank, tables }
    }
}
