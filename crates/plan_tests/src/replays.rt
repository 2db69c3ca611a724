// Lists of calls, those that the state does not have among them.
use bus::bus::Bus;
use plan::fault::PlanFault;
use runs::call::{Answer, Call};
use runs::replay::replay;
use runs::state::Plan;
use signals::signal::Signal;
use std::test::Fail;

const HASTY: Signal = Signal {
    name: 1,
    sender: 1,
    size: 8,
    period: 1_000_000,
    deadline: 150_000,
    set: 1,
};

#[test]
fn calls_one_after_another(rt: HostRuntime) -> Result<(), Fail> {
    let calls = [
        Call::Enter(HASTY),
        Call::Order,
        Call::Close,
        Call::Enter(HASTY),
        Call::Order,
        Call::Response(0, 0),
        Call::Member(0),
        Call::Reopen,
    ];
    let mut answers = [Answer::NotAllowed; 8];
    let plan = replay(Bus::new(2_000, 500)?, &calls, &mut answers).map_err(|_bank| Fail::new(
        "no room for the answers",
    ))?;
    let Plan::Open(draft) = plan else {
        return Err(Fail::new("not a draft"));
    };
    assert_eq!(rt; draft.signal_count(), 1);
    assert_eq!(rt; answers[0], Answer::Changed(Ok(())));
    assert_eq!(rt; answers[1], Answer::NotAllowed, "a draft is not ordered");
    assert_eq!(rt;
        answers[3],
        Answer::NotAllowed,
        "a closed plan is not changed"
    );
    assert_eq!(rt; answers[5], Answer::Response(Ok(122_000)));
    assert_eq!(rt; answers[6], Answer::Member(Err(PlanFault::NoConflict)));
    Ok(())
}

#[test]
fn too_few_answers(rt: HostRuntime) -> Result<(), Fail> {
    let calls = [Call::Close, Call::Weight];
    let mut answers = [Answer::NotAllowed; 1];
    let replayed = replay(Bus::new(2_000, 500)?, &calls, &mut answers);
    assert!(rt; replayed.is_err(), "no calls were made");
    assert_eq!(rt; answers[0], Answer::NotAllowed, "nothing was written");
    Ok(())
}
