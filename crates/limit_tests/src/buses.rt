// Runs of banks with a bus: frames in order of priority, the last of three frames, and a bus that is never idle.
use crate::asking::about;
use bus::bus::Bus;
use domains::domain::Domain;
use domains::pair::Pair;
use domains::place::Place;
use frames::row::Row;
use gateway::gateway::Gateway;
use radio::radio::Radio;
use std::test::Fail;
use timing::carried::in_time;
use timing::ranked::response_at;

fn row(period: u64) -> Row {
    Row {
        sender: 1,
        fill: 8,
        period,
        deadline: 150_000,
        set: 15,
    }
}

// Three frames, the last of which is asked about, with the others above it.
fn three() -> [Row; 3] {
    [row(2_840_000), row(3_976_000), row(3_976_000)]
}

const TWO_ABOVE: [Place; 3] = [Place::Above, Place::Above, Place::Absent];

// The bank of the README: a bus, a gateway and a link. The second frame is not sent over the link.
#[test]
fn frames_in_order_of_priority(rt: HostRuntime) -> Result<(), Fail> {
    let bank = Pair::new(
        Bus::new(2_000, 500)?,
        Pair::new(Gateway::new(20_000, 100)?, Radio::new(50_000)?),
    );
    let rows = [
        row(1_000_000),
        Row {
            deadline: 244_000,
            set: 3,
            ..row(1_000_000)
        },
    ];
    let time: Option<u64> = response_at(&bank, 0, &rows, 1);
    assert_eq!(rt; time, Some(244_000));
    assert!(rt; in_time(time, rows[1].deadline), "at its deadline");
    assert!(rt;
        !in_time(response_at(&bank, 0, &rows, 0), rows[0].deadline),
        "blocked from below"
    );
    assert_eq!(rt; response_at(&bank, 1, &rows, 1), Some(41_600), "gateway");
    assert_eq!(rt;
        response_at(&bank, 2, &rows, 0),
        Some(700_000),
        "alone on the link"
    );
    assert_eq!(rt; response_at(&bank, 2, &rows, 1), None, "not on the link");
    assert!(rt; !in_time(None, 1_000_000));
    Ok(())
}

#[test]
fn three_frames_in_a_bank_of_four(rt: HostRuntime) -> Result<(), Fail> {
    let bus = Bus::new(8_000, 8_000)?;
    let bank = Pair::new(
        Pair::new(bus, bus),
        Pair::new(Gateway::new(20_000, 100)?, Radio::new(50_000)?),
    );
    let rows = three();
    let question = about(&rows, &TWO_ABOVE, 2);
    assert_eq!(rt; bank.count(), 4);
    assert_eq!(rt; bank.answer(0, &question), Some(3_976_000), "bus");
    assert_eq!(rt; bank.answer(1, &question), Some(3_976_000), "second bus");
    assert_eq!(rt; bank.answer(2, &question), Some(62_400), "gateway");
    assert_eq!(rt; bank.answer(3, &question), Some(2_100_000), "radio");
    assert_eq!(rt; bank.answer(4, &question), None, "outside");
    Ok(())
}

#[test]
fn instances_of_a_busy_period(rt: HostRuntime) -> Result<(), Fail> {
    let bus = Bus::new(8_000, 8_000)?;
    let rows = three();
    let question = about(&rows, &TWO_ABOVE, 2);
    assert_eq!(rt; bus.busy_period(&question), Some(7_952_000));
    assert_eq!(rt; bus.instance(&question, 0), Some(3_408_000));
    assert_eq!(rt; bus.instance(&question, 1), Some(3_976_000));
    assert_eq!(rt; bus.instance(&question, 2), None);
    assert_eq!(rt;
        bus.busy_period(&about(&rows, &TWO_ABOVE, 3)),
        None,
        "not in the list"
    );
    Ok(())
}

// Two frames of cost 1,136,000 each 1,000,000: the busy period has no end.
#[test]
fn never_idle(rt: HostRuntime) -> Result<(), Fail> {
    let bus = Bus::new(8_000, 8_000)?;
    let rows = [row(1_000_000), row(1_000_000)];
    let places = [Place::Above];
    let question = about(&rows, &places, 1);
    assert_eq!(rt; bus.answer(0, &question), None);
    assert_eq!(rt; bus.busy_period(&question), None);
    assert_eq!(rt; bus.instance(&question, 0), None);
    Ok(())
}

// Two frames of cost 122,000: each waits for the other, from above or from below.
#[test]
fn in_each_others_way(rt: HostRuntime) -> Result<(), Fail> {
    let bus = Bus::new(2_000, 500)?;
    let rows = [row(1_000_000), row(1_000_000)];
    let places = [Place::Above, Place::Below];
    assert_eq!(rt; bus.answer(0, &about(&rows, &places, 0)), Some(244_000));
    assert_eq!(rt; bus.answer(0, &about(&rows, &places, 1)), Some(244_000));
    assert_eq!(rt; bus.answer(0, &about(&rows, &[], 0)), Some(122_000));
    Ok(())
}
