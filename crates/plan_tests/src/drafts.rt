// Which frame a signal joins, what the frames and their weights then are, and what a withdrawal leaves.
use crate::samples::{bank, signal};
use frames::row::Row;
use gateway::gateway::Gateway;
use plan::draft::Draft;
use radio::radio::Radio;
use std::test::Fail;

// The three signals of the smallest truck: the first and the last ride together.
#[test]
fn three_signals(rt: HostRuntime) -> Result<(), Fail> {
    let mut draft = Draft::new(bank()?);
    draft.enter(signal(1, 1, 8, 10_000_000, 1))?;
    draft.enter(signal(2, 2, 2, 5_000_000, 3))?;
    assert_eq!(rt; draft.weight(), 49_000, "12,200 and twice 18,400");
    draft.enter(signal(3, 1, 4, 10_000_000, 1))?;
    assert_eq!(rt; draft.weight(), 51_000, "14,200 and twice 18,400");
    let joined = Row {
        sender: 1,
        fill: 12,
        period: 10_000_000,
        deadline: 10_000_000,
        set: 1,
    };
    assert_eq!(rt; Row::from(draft.close().record(0)?), joined);
    Ok(())
}

// Among frames that grow as much the earlier is taken, and an old frame before a new one.
#[test]
fn ties(rt: HostRuntime) -> Result<(), Fail> {
    // A frame costs 50,000 × (payload + 6).
    let mut draft = Draft::new(Radio::new(50_000)?);
    draft.enter(signal(1, 1, 63, 100_000_000, 1))?;
    draft.enter(signal(2, 1, 63, 100_000_000, 1))?;
    draft.enter(signal(3, 1, 1, 100_000_000, 1))?;
    draft.enter(signal(4, 2, 24, 100_000_000, 1))?;
    // A payload of 32 for one of 24 is as much as a new frame of 2.
    draft.enter(signal(5, 2, 2, 100_000_000, 1))?;
    assert_eq!(rt; draft.frame_count(), 3);
    assert_eq!(rt; draft.weight(), 89_000);
    let closed = draft.close();
    assert_eq!(rt;
        closed.frame_of(3)?,
        0,
        "the earlier of two that do not grow"
    );
    assert_eq!(rt; closed.frame_of(5)?, 2, "the old frame before a new one");
    Ok(())
}

// A withdrawal works the frame out again; the last signal of a frame takes it along.
#[test]
fn withdrawals(rt: HostRuntime) -> Result<(), Fail> {
    let mut draft = Draft::new(Gateway::new(20_000, 100)?);
    draft.enter(signal(1, 1, 4, 10_000_000, 1))?;
    draft.enter(signal(2, 2, 4, 10_000_000, 1))?;
    draft.enter(signal(3, 3, 4, 10_000_000, 1))?;
    draft.enter(signal(4, 1, 4, 5_000_000, 1))?;
    assert_eq!(rt; draft.frame_count(), 3);
    assert_eq!(rt; draft.weight(), 8_240, "4,160 and twice 2,040");
    draft.withdraw(2)?;
    draft.withdraw(4)?;
    let closed = draft.close();
    assert_eq!(rt; closed.frame_of(3)?, 1, "moved up");
    assert_eq!(rt; closed.record(0)?.period(), 10_000_000, "worked out again");
    let mut draft = closed.reopen();
    draft.withdraw(1)?;
    draft.withdraw(3)?;
    assert_eq!(rt; draft.frame_count(), 0);
    assert_eq!(rt; draft.weight(), 0);
    Ok(())
}
