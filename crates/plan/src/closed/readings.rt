// The readings of a closed plan.
ghost use Rattle.std.specs.Prelude.{◌≡◌, ◌<◌, ◌≤◌, false, [], ◌∷◌, length, MatchResult};
ghost use Rattle.frames.specs.Records.{row_of};
ghost use Rattle.packing.specs.Holds.{held};
ghost use Rattle.packing.specs.Packings.{packing_weight};
ghost use Rattle.plan.specs.declared.closed.Standing.TheVariants.{Ordered};
ghost use Rattle.plan.specs.declared.fault.PlanFault.TheVariants.{FrameUnknown, NotOrdered};
ghost use Rattle.plan.specs.Banks.{bank_of};
ghost use Rattle.plan.specs.Closes.{frame_says, record_says, identifier_says, response_says, member_says, figures, bit};
ghost use Rattle.plan.specs.Holds.{stands_of};
ghost use Rattle.plan.specs.Said.{told};
ghost use Rattle.plan.specs.Stands.{is_order};

use crate::closed::line::{line_up, place_of};
use crate::closed::{Closed, Standing};
use crate::fault::PlanFault;
use crate::questions::find_signal;
use crate::weight::plan_weight;
use domains::domain::Domain;
use domains::place::Place;
use frames::frame::Frame;
use ordering::orders::Placement;
use timing::carried::carries;
use timing::ranked::response_at;

// Identifiers are multiples of this, so that late frames find room between two.
pub const IDENTIFIER_STEP: u16 = 8;

impl<B: Domain> Closed<B> {
    // Whether the plan has frame n.
    fn check_frame(&self, n: usize) -> Result<(), PlanFault>
        ensures { let frames = (held self.now.tables).frames in MatchResult result (λ _. (n < frames) × (frames ≤ 96)) (λ e. (e ≡ FrameUnknown) × (frames ≤ n)) }
    {
        if n >= self.tables.frame_count() {
            return Err(PlanFault::FrameUnknown);
        }
        Ok(())
    }

    // The order that stands.
    fn placement(&self) -> Result<&Placement, PlanFault>
        ensures { MatchResult result (λ p. self.now.standing ≡ Ordered p.now) (λ e. (e ≡ NotOrdered) × (is_order (stands_of (held self.now.tables).frames self.now.standing) ≡ false)) }
    {
        match &self.standing {
            Standing::Ordered(placement) => Ok(placement),
            _ => Err(PlanFault::NotOrdered),
        }
    }

    // The frame that the signal of that name rides in.
    pub fn frame_of(&self, name: u16) -> Result<usize, PlanFault>
        ensures { told (λ n. n ∷ []) result ≡ frame_says (held self.now.tables) name }
    {
        let i = find_signal(&self.tables, name)?;
        Ok(self.tables.entries()[i].frame)
    }

    // The record of frame n.
    pub fn record(&self, n: usize) -> Result<Frame, PlanFault>
        ensures { told (λ f. figures (row_of f)) result ≡ record_says (held self.now.tables) n }
    {
        self.check_frame(n)?;
        Ok(Frame::try_from(self.tables.row(n)).unwrap())
    }

    // The identifier of frame n in the order that stands.
    pub fn identifier(&self, n: usize) -> Result<u16, PlanFault>
        ensures { told (λ i. i ∷ []) result ≡ identifier_says (held self.now.tables) (stands_of (held self.now.tables).frames self.now.standing) n }
    {
        self.check_frame(n)?;
        let place = place_of(self.placement()?.numbers.as_slice(), n);
        // The place is 96 at the most: the cast is proved to lose nothing, where `u16::try_from` would want an `unwrap`.
        Ok(IDENTIFIER_STEP * (place as u16 + 1))
    }

    // How late frame n can be in domain k, in the order that stands.
    pub fn response(&self, n: usize, k: usize) -> Result<u64, PlanFault>
        ensures { told (λ t. t ∷ []) result ≡ response_says (bank_of (B.count self.now.bank) (B.cost self.now.bank) (B.response self.now.bank)) (held self.now.tables) (stands_of (held self.now.tables).frames self.now.standing) n k }
    {
        self.check_frame(n)?;
        let numbers = self.placement()?.numbers.as_slice();
        if !carries(k, self.tables.row(n).set) {
            return Err(PlanFault::NotCarried);
        }
        let rows = line_up(&self.tables, numbers);
        let place = place_of(numbers, n);
        response_at(&self.bank, k, &rows, place).ok_or(PlanFault::NotCarried)
    }

    // Whether frame n is in the conflict that stands.
    pub fn in_conflict(&self, n: usize) -> Result<bool, PlanFault>
        ensures { told (λ b. bit b ∷ []) result ≡ member_says (held self.now.tables) (stands_of (held self.now.tables).frames self.now.standing) n }
    {
        self.check_frame(n)?;
        match &self.standing {
            Standing::Clashing(conflict) => Ok(conflict.table[n] == Place::Above),
            _ => Err(PlanFault::NoConflict),
        }
    }

    // Counts and weight stand in a draft too, where it is said why.
    pub fn signal_count(&self) -> usize
        ensures { result ≡ length (held self.now.tables).signals }
    {
        self.tables.signal_count()
    }

    pub fn frame_count(&self) -> usize
        ensures { result ≡ (held self.now.tables).frames }
    {
        self.tables.frame_count()
    }

    // What all frames weigh together, in millionths.
    pub fn weight(&self) -> u64
        ensures { result ≡ packing_weight (B.cost self.now.bank) (held self.now.tables) }
    {
        plan_weight(&self.bank, &self.tables)
    }
}
