// Calls one after another on a plan just created.
ghost use Rattle.std.specs.Prelude.{◌≡◌};
ghost use Rattle.packing.specs.Holds.{held};
ghost use Rattle.plan.specs.Banks.{bank_of};
ghost use Rattle.plan.specs.Holds.{stands_of};
ghost use Rattle.runs.specs.Books.{on_draft, on_closed, step};
ghost use Rattle.runs.specs.Holds.{plan_bank, plan_book};
ghost use Rattle.runs.specs.Replies.{told};
ghost use Rattle.runs.specs.Promise.{Ran};

use crate::call::{Answer, Call};
use crate::state::Plan;
use domains::domain::Domain;
use frames::row::Row;
use plan::closed::Closed;
use plan::draft::Draft;

// One call on a draft.
fn on_draft<B: Domain>(mut draft: Draft<B>, call: Call) -> (Plan<B>, Answer)
    ensures bank { plan_bank result.0 ≡ draft.bank }
    ensures book { plan_book result.0 ≡ (on_draft (bank_of (B.count draft.bank) (B.cost draft.bank) (B.response draft.bank)) (held draft.tables) call).after }
    ensures says { told result.1 ≡ (on_draft (bank_of (B.count draft.bank) (B.cost draft.bank) (B.response draft.bank)) (held draft.tables) call).reply }
{
    let answer = match call {
        Call::Close => return (Plan::Shut(draft.close()), Answer::Moved),
        Call::Enter(signal) => Answer::Changed(draft.enter(signal)),
        Call::Withdraw(name) => Answer::Changed(draft.withdraw(name)),
        Call::SignalCount => Answer::Count(draft.signal_count()),
        Call::FrameCount => Answer::Count(draft.frame_count()),
        Call::Weight => Answer::Weight(draft.weight()),
        Call::Reopen
        | Call::Order
        | Call::FrameOf(_)
        | Call::Record(_)
        | Call::Identifier(_)
        | Call::Response(_, _)
        | Call::Member(_) => Answer::NotAllowed,
    };
    (Plan::Open(draft), answer)
}

// One call on a closed plan.
fn on_closed<B: Domain>(mut closed: Closed<B>, call: Call) -> (Plan<B>, Answer)
    ensures bank { plan_bank result.0 ≡ closed.bank }
    ensures book { plan_book result.0 ≡ (on_closed (bank_of (B.count closed.bank) (B.cost closed.bank) (B.response closed.bank)) (held closed.tables) (stands_of (held closed.tables).frames closed.standing) call).after }
    ensures says { told result.1 ≡ (on_closed (bank_of (B.count closed.bank) (B.cost closed.bank) (B.response closed.bank)) (held closed.tables) (stands_of (held closed.tables).frames closed.standing) call).reply }
{
    let answer = match call {
        Call::Reopen => return (Plan::Open(closed.reopen()), Answer::Moved),
        Call::Order => Answer::Ordered(closed.order()),
        Call::FrameOf(name) => Answer::Frame(closed.frame_of(name)),
        Call::Record(n) => Answer::Record(closed.record(n).map(Row::from)),
        Call::Identifier(n) => Answer::Identifier(closed.identifier(n)),
        Call::Response(n, k) => Answer::Response(closed.response(n, k)),
        Call::Member(n) => Answer::Member(closed.in_conflict(n)),
        Call::SignalCount => Answer::Count(closed.signal_count()),
        Call::FrameCount => Answer::Count(closed.frame_count()),
        Call::Weight => Answer::Weight(closed.weight()),
        Call::Enter(_) | Call::Withdraw(_) | Call::Close => Answer::NotAllowed,
    };
    (Plan::Shut(closed), answer)
}

// One call on a plan in either state.
pub fn apply<B: Domain>(plan: Plan<B>, call: Call) -> (Plan<B>, Answer)
    ensures bank { plan_bank result.0 ≡ plan_bank plan }
    ensures book { plan_book result.0 ≡ (step (bank_of (B.count (plan_bank plan)) (B.cost (plan_bank plan)) (B.response (plan_bank plan))) (plan_book plan) call).after }
    ensures says { told result.1 ≡ (step (bank_of (B.count (plan_bank plan)) (B.cost (plan_bank plan)) (B.response (plan_bank plan))) (plan_book plan) call).reply }
{
    match plan {
        Plan::Open(draft) => on_draft(draft, call),
        Plan::Shut(closed) => on_closed(closed, call),
    }
}

// Runs the calls on a plan just created over the bank, and writes the answer of each. Where there is not room for all
// answers, nothing is called or written, and the bank is given back.
pub fn replay<B: Domain>(bank: B, calls: &[Call], answers: &mut [Answer]) -> Result<Plan<B>, B>
    ensures { Ran (bank_of (B.count bank) (B.cost bank) (B.response bank)) bank calls.now answers.old answers.new result }
{
    if answers.len() < calls.len() {
        return Err(bank);
    }
    let mut plan = Plan::Open(Draft::new(bank));
    // With `zip` over the answers lent for writing the proof did not close: after such a loop it has only their number.
    for (i, call) in calls.iter().enumerate() {
        let (next, answer) = apply(plan, *call);
        plan = next;
        answers[i] = answer;
    }
    Ok(plan)
}
