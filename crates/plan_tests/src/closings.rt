// From signals to identifiers and responses, to a conflict, and what the readings refuse.
use crate::samples::{bank, signal};
use bus::bus::Bus;
use gateway::gateway::Gateway;
use plan::closed::order::Counted;
use plan::draft::Draft;
use plan::fault::PlanFault;
use signals::signal::Signal;
use std::test::Fail;

#[test]
fn identifiers_and_responses(rt: HostRuntime) -> Result<(), Fail> {
    let mut draft = Draft::new(bank()?);
    draft.enter(signal(1, 1, 8, 10_000_000, 1))?;
    draft.enter(signal(2, 2, 2, 5_000_000, 3))?;
    draft.enter(signal(3, 1, 4, 10_000_000, 1))?;
    let mut closed = draft.close();
    assert_eq!(rt; closed.identifier(0), Err(PlanFault::NotOrdered));
    let two = Counted {
        frames: 2,
        examinations: 2,
    };
    assert_eq!(rt; closed.order(), Ok(two));
    assert_eq!(rt; closed.identifier(1), Ok(8));
    assert_eq!(rt; closed.identifier(0), Ok(16));
    assert_eq!(rt; closed.response(1, 0), Ok(234_000));
    assert_eq!(rt; closed.response(1, 1), Ok(92_000));
    assert_eq!(rt; closed.response(0, 0), Ok(234_000));
    Ok(())
}

// In a gateway only the frames above matter. The first in list order has to be above, so the last place takes two
// examinations.
#[test]
fn more_examinations_than_frames(rt: HostRuntime) -> Result<(), Fail> {
    let mut draft = Draft::new(Gateway::new(20_000, 100)?);
    draft.enter(Signal {
        deadline: 30_000,
        ..signal(1, 1, 8, 10_000_000, 1)
    })?;
    draft.enter(signal(2, 2, 8, 10_000_000, 1))?;
    let mut closed = draft.close();
    let counted = Counted {
        frames: 2,
        examinations: 3,
    };
    assert_eq!(rt; closed.order(), Ok(counted));
    assert_eq!(rt; closed.identifier(0), Ok(8));
    assert_eq!(rt; closed.response(0, 0), Ok(20_800));
    assert_eq!(rt; closed.response(1, 0), Ok(41_600));
    Ok(())
}

#[test]
fn readings_refused(rt: HostRuntime) -> Result<(), Fail> {
    let mut draft = Draft::new(bank()?);
    draft.enter(signal(1, 1, 8, 10_000_000, 1))?;
    let mut closed = draft.close();
    assert_eq!(rt;
        closed.response(1, 0),
        Err(PlanFault::FrameUnknown),
        "before NotOrdered"
    );
    assert_eq!(rt;
        closed.response(0, 1),
        Err(PlanFault::NotOrdered),
        "before NotCarried"
    );
    assert_eq!(rt; closed.in_conflict(1), Err(PlanFault::FrameUnknown));
    assert_eq!(rt; closed.frame_of(2), Err(PlanFault::NameUnknown));
    closed.order()?;
    assert_eq!(rt; closed.response(0, 1), Err(PlanFault::NotCarried));
    assert_eq!(rt; closed.response(0, 9), Err(PlanFault::NotCarried));
    assert_eq!(rt; closed.in_conflict(0), Err(PlanFault::NoConflict));
    Ok(())
}

// Any other frame on the bus makes a hasty one late, be it above or blocking from below. Of two hasty frames and a
// patient one, the first is left out of the conflict: the other two have no order without it.
#[test]
fn a_conflict_and_its_end(rt: HostRuntime) -> Result<(), Fail> {
    let mut draft = Draft::new(Bus::new(2_000, 500)?);
    let hasty = Signal {
        deadline: 150_000,
        ..signal(1, 1, 8, 1_000_000, 1)
    };
    draft.enter(hasty)?;
    draft.enter(signal(2, 2, 8, 100_000_000, 1))?;
    draft.enter(Signal {
        name: 3,
        sender: 3,
        ..hasty
    })?;
    let mut closed = draft.close();
    assert_eq!(rt; closed.order(), Err(PlanFault::NoOrder(2)));
    assert_eq!(rt; closed.in_conflict(0), Ok(false));
    assert_eq!(rt; closed.in_conflict(1), Ok(true));
    assert_eq!(rt; closed.in_conflict(2), Ok(true));
    assert_eq!(rt; closed.identifier(0), Err(PlanFault::NotOrdered));
    let mut draft = closed.reopen();
    draft.withdraw(3)?;
    draft.withdraw(2)?;
    let mut closed = draft.close();
    assert_eq!(rt;
        closed.in_conflict(0),
        Err(PlanFault::NoConflict),
        "neither stands"
    );
    closed.order()?;
    assert_eq!(rt; closed.response(0, 0), Ok(122_000), "alone");
    Ok(())
}

#[test]
fn no_signals(rt: HostRuntime) -> Result<(), Fail> {
    let mut closed = Draft::new(bank()?).close();
    let none = Counted {
        frames: 0,
        examinations: 0,
    };
    assert_eq!(rt; closed.order(), Ok(none));
    assert_eq!(rt; closed.weight(), 0);
    Ok(())
}
