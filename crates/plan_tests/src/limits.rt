// What enter and withdraw refuse, at both sides of each limit.
use crate::samples::bank;
use gateway::gateway::Gateway;
use plan::draft::Draft;
use plan::fault::PlanFault;
use signals::signal::Signal;
use std::test::Fail;

const FAIR: Signal = Signal {
    name: 7,
    sender: 15,
    size: 64,
    period: 10_000_000,
    deadline: 10_000_000,
    set: 1,
};

// The number with which the signal is refused by an empty draft over one domain, if it is.
fn refusal(signal: Signal) -> Result<Option<u8>, Fail> {
    let mut draft = Draft::new(Gateway::new(20_000, 100)?);
    let refused = draft.enter(signal).err();
    Ok(refused.map(|fault| fault.number()))
}

fn of_period(period: u64, deadline: u64) -> Signal {
    Signal {
        period,
        deadline,
        ..FAIR
    }
}

#[test]
fn limits_of_figures(rt: HostRuntime) -> Result<(), Fail> {
    assert_eq!(rt; refusal(FAIR)?, None);
    assert_eq!(rt; refusal(Signal { sender: 16, ..FAIR })?, Some(2));
    assert_eq!(rt; refusal(Signal { size: 0, ..FAIR })?, Some(3));
    assert_eq!(rt; refusal(Signal { size: 65, ..FAIR })?, Some(3));
    assert_eq!(rt; refusal(of_period(999_999, 1))?, Some(4));
    assert_eq!(rt; refusal(of_period(1_000_000, 1))?, None);
    assert_eq!(rt; refusal(of_period(2_000_000_000, 2_000_000_000))?, None);
    assert_eq!(rt; refusal(of_period(2_000_000_001, 1))?, Some(4));
    assert_eq!(rt; refusal(of_period(1_000_000, 0))?, Some(5));
    assert_eq!(rt; refusal(of_period(1_000_000, 1_000_001))?, Some(5));
    Ok(())
}

#[test]
fn questions_in_order(rt: HostRuntime) -> Result<(), Fail> {
    let all_wrong = Signal {
        sender: 16,
        size: 0,
        period: 0,
        deadline: 0,
        set: 0,
        ..FAIR
    };
    assert_eq!(rt; refusal(all_wrong)?, Some(2));
    assert_eq!(rt;
        refusal(Signal {
            sender: 0,
            ..all_wrong
        })?,
        Some(3)
    );
    assert_eq!(rt;
        refusal(Signal {
            size: 0,
            deadline: 0,
            ..FAIR
        })?,
        Some(3)
    );
    assert_eq!(rt; refusal(Signal { set: 0, ..FAIR })?, Some(6));
    assert_eq!(rt;
        refusal(Signal { set: 2, ..FAIR })?,
        Some(6),
        "outside a bank of one domain"
    );
    Ok(())
}

// Each set that a frame can have is within a bank of four domains.
#[test]
fn sets_of_four_domains(rt: HostRuntime) -> Result<(), Fail> {
    let mut draft = Draft::new(bank()?);
    draft.enter(Signal { set: 15, ..FAIR })?;
    let one_more = Signal {
        name: 8,
        set: 16,
        ..FAIR
    };
    assert_eq!(rt; draft.enter(one_more), Err(PlanFault::Set));
    assert_eq!(rt; draft.signal_count(), 1);
    Ok(())
}

#[test]
fn names_come_before_room(rt: HostRuntime) -> Result<(), Fail> {
    let mut draft = Draft::new(Gateway::new(20_000, 100)?);
    for name in 0..256u16 {
        draft.enter(Signal {
            name,
            size: 1,
            ..FAIR
        })?;
    }
    assert_eq!(rt; draft.signal_count(), 256);
    assert_eq!(rt; draft.frame_count(), 4, "64 bytes each");
    assert_eq!(rt; draft.enter(FAIR), Err(PlanFault::NameTaken));
    let one_more = Signal {
        name: 256,
        size: 1,
        ..FAIR
    };
    assert_eq!(rt; draft.enter(one_more), Err(PlanFault::SignalsFull));
    assert_eq!(rt; draft.withdraw(256), Err(PlanFault::NameUnknown));
    draft.withdraw(7)?;
    draft.enter(one_more)?;
    assert_eq!(rt; draft.signal_count(), 256);
    Ok(())
}

#[test]
fn ninety_six_full_frames(rt: HostRuntime) -> Result<(), Fail> {
    let mut draft = Draft::new(Gateway::new(20_000, 100)?);
    for name in 0..96u16 {
        draft.enter(Signal { name, ..FAIR })?;
    }
    assert_eq!(rt; draft.frame_count(), 96);
    let one_more = Signal { name: 96, ..FAIR };
    assert_eq!(rt; draft.enter(one_more), Err(PlanFault::FramesFull));
    assert_eq!(rt;
        draft.signal_count(),
        96,
        "a refusal leaves the draft as it was"
    );
    draft.withdraw(40)?;
    assert_eq!(rt; draft.frame_count(), 95);
    draft.enter(one_more)?;
    assert_eq!(rt; draft.frame_count(), 96);
    Ok(())
}
