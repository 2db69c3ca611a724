// A plan that signals are entered into and withdrawn from.
ghost use Rattle.std.specs.Prelude.{◌≡◌, ℕ, [], length, OnOk};
ghost use Rattle.packing.specs.Holds.{held};
ghost use Rattle.packing.specs.Laws.{WellPacked, Placeable, Lightest};
ghost use Rattle.packing.specs.Packings.{packed, packing_weight, withdrawn};
ghost use Rattle.plan.specs.declared.fault.PlanFault.TheVariants.{FramesFull};
ghost use Rattle.plan.specs.Drafts.{entered, enter_says, withdraw_says};
ghost use Rattle.plan.specs.Faults.{plan_told};
ghost use Rattle.plan.specs.Holds.{stands_of};
ghost use Rattle.plan.specs.Said.{told, done};
ghost use Rattle.plan.specs.Said.Said.{refuses};
ghost use Rattle.plan.specs.Stands.Stands.{nothing};

use crate::closed::{Closed, Standing};
use crate::fault::PlanFault;
use crate::questions::{ask, find_signal};
use crate::weight::plan_weight;
use domains::domain::Domain;
use packing::tables::Tables;
use signals::signal::Signal;

#[derive(Drop)]
pub struct Draft<B> {
    pub(crate) bank: B,
    pub(crate) tables: Tables,
}

// Counts and weight stand in a draft and in a closed plan: a struct that both hold would make nine methods of six, and
// each clause longer.
impl<B: Domain> Draft<B> {
    pub fn new(bank: B) -> Draft<B>
        ensures bank { result.bank ≡ bank }
        ensures holds { held result.tables ≡ packed [] 0 }
    {
        Draft {
            bank,
            tables: Tables::new(),
        }
    }

    // Puts the signal into the frame where the plan's weight grows least.
    pub fn enter(&mut self, signal: Signal) -> Result<(), PlanFault>
        ensures says { told done result ≡ enter_says (B.count self.old.bank) (B.cost self.old.bank) (held self.old.tables) signal }
        ensures holds { held self.new.tables ≡ entered (B.count self.old.bank) (B.cost self.old.bank) (held self.old.tables) signal }
        ensures bank { self.new.bank ≡ self.old.bank }
        ensures packed { WellPacked (held self.new.tables) }
        ensures lightest { OnOk result (Lightest (B.cost self.old.bank) (held self.old.tables) signal (held self.new.tables)) }
        ensures full { told done result ≡ refuses (plan_told FramesFull) → (n : ℕ) → Placeable (held self.old.tables) signal n → ⊥ }
        ensures undone { OnOk result (withdrawn (held self.new.tables) signal.name ≡ held self.old.tables) }
    {
        let choice = ask(&self.bank, &self.tables, &signal)?;
        self.tables.place(signal, choice.frame);
        Ok(())
    }

    // Takes the signal of that name out.
    pub fn withdraw(&mut self, name: u16) -> Result<(), PlanFault>
        ensures says { told done result ≡ withdraw_says (held self.old.tables) name }
        ensures holds { held self.new.tables ≡ withdrawn (held self.old.tables) name }
        ensures bank { self.new.bank ≡ self.old.bank }
        ensures packed { WellPacked (held self.new.tables) }
    {
        let i = find_signal(&self.tables, name)?;
        self.tables.take_out(i);
        Ok(())
    }

    pub fn signal_count(&self) -> usize
        ensures { result ≡ length (held self.now.tables).signals }
    {
        self.tables.signal_count()
    }

    pub fn frame_count(&self) -> usize
        ensures { result ≡ (held self.now.tables).frames }
    {
        self.tables.frame_count()
    }

    // What all frames weigh together, in millionths.
    pub fn weight(&self) -> u64
        ensures { result ≡ packing_weight (B.cost self.now.bank) (held self.now.tables) }
    {
        plan_weight(&self.bank, &self.tables)
    }

    // Ends the draft.
    pub fn close(self) -> Closed<B>
        ensures holds { held result.tables ≡ held self.tables }
        ensures bank { result.bank ≡ self.bank }
        ensures stands { stands_of (held result.tables).frames result.standing ≡ nothing }
    {
        let Draft { bank, tables } = self;
        Closed {
            bank,
            tables,
            standing: Standing::Neither,
        }
    }
}
