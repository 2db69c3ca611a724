// Listings, byte for byte.
use crate::samples::{bank, signal};
use bus::bus::Bus;
use listing::list::{list_fault, list_plan};
use plan::closed::order::Counted;
use plan::draft::Draft;
use plan::fault::PlanFault;
use signals::signal::Signal;
use std::str;
use std::test::Fail;

#[test]
fn an_order_listed(rt: HostRuntime) -> Result<(), Fail> {
    let mut draft = Draft::new(bank()?);
    draft.enter(signal(1, 1, 8, 10_000_000, 1))?;
    draft.enter(signal(2, 2, 2, 5_000_000, 3))?;
    draft.enter(signal(3, 1, 4, 10_000_000, 1))?;
    let mut plan = draft.close();
    let (listing, answer) = list_plan(&mut plan);
    let two = Counted {
        frames: 2,
        examinations: 2,
    };
    assert_eq!(rt; answer, Ok(two));
    assert_eq!(rt;
        str::from_utf8(listing.as_slice())?,
        "008 2 02 004C4B40 004C4B40 3 00039210 00016760\n010 1 0C 00989680 00989680 1 00039210\n"
    );
    assert_eq!(rt; plan.identifier(1), Ok(8), "the order stands");
    Ok(())
}

// Of two hasty frames and a patient one on a bus, the first is left out of the conflict.
#[test]
fn a_conflict_listed(rt: HostRuntime) -> Result<(), Fail> {
    let mut draft = Draft::new(Bus::new(2_000, 500)?);
    let hasty = Signal {
        deadline: 150_000,
        ..signal(1, 1, 8, 1_000_000, 1)
    };
    draft.enter(hasty)?;
    draft.enter(signal(2, 2, 9, 100_000_000, 1))?;
    draft.enter(Signal {
        name: 3,
        sender: 3,
        ..hasty
    })?;
    let (listing, answer) = list_plan(&mut draft.close());
    assert_eq!(rt; answer, Err(PlanFault::NoOrder(2)));
    assert_eq!(rt;
        str::from_utf8(listing.as_slice())?,
        "FFF 2 0C 05F5E100 05F5E100 1\nFFF 3 08 000F4240 000249F0 1\n"
    );
    Ok(())
}

#[test]
fn no_frames_listed(rt: HostRuntime) -> Result<(), Fail> {
    let (listing, _answer) = list_plan(&mut Draft::new(bank()?).close());
    assert!(rt; listing.as_slice().is_empty());
    Ok(())
}

// The first is the fault of an empty sheet.
#[test]
fn faults_listed(rt: HostRuntime) -> Result<(), Fail> {
    let empty = list_fault(17, 1, 0);
    assert_eq!(rt; str::from_utf8(empty.as_slice())?, "EEE 11 0001 0\n");
    let last = list_fault(8, 65_535, 7);
    assert_eq!(rt; str::from_utf8(last.as_slice())?, "EEE 08 FFFF 7\n");
    Ok(())
}
