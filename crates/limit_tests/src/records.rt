// The check of a row, at both sides of each limit.
use frames::fault::RowFault;
use frames::frame::Frame;
use frames::payload::payload_of;
use frames::row::Row;

const LAWFUL: Row = Row {
    sender: 15,
    fill: 8,
    period: 10_000_000,
    deadline: 10_000_000,
    set: 1,
};

fn passes(row: Row) -> bool {
    Frame::try_from(row).is_ok()
}

#[test]
fn limits_of_a_record(rt: HostRuntime) {
    for (fill, ok) in [(0, false), (1, true), (64, true), (65, false)] {
        assert_eq!(rt; passes(Row { fill, ..LAWFUL }), ok, "fill");
    }
    for (period, ok) in [
        (999_999, false),
        (1_000_000, true),
        (2_000_000_000, true),
        (2_000_000_001, false),
    ] {
        assert_eq!(rt;
            passes(Row {
                period,
                deadline: 1,
                ..LAWFUL
            }),
            ok,
            "period"
        );
    }
    for (deadline, ok) in [
        (0, false),
        (1, true),
        (10_000_000, true),
        (10_000_001, false),
    ] {
        assert_eq!(rt; passes(Row { deadline, ..LAWFUL }), ok, "deadline");
    }
    for (set, ok) in [(0, false), (1, true), (15, true), (16, false)] {
        assert_eq!(rt; passes(Row { set, ..LAWFUL }), ok, "set");
    }
}

// Where several limits are broken the first one is named.
#[test]
fn first_limit_that_a_row_breaks(rt: HostRuntime) {
    let set = Row { set: 0, ..LAWFUL };
    let deadline = Row { deadline: 0, ..set };
    let period = Row {
        period: 0,
        ..deadline
    };
    let fill = Row { fill: 0, ..period };
    for (row, fault) in [
        (fill, RowFault::Fill),
        (period, RowFault::Period),
        (deadline, RowFault::Deadline),
        (set, RowFault::Set),
    ] {
        assert_eq!(rt; Frame::try_from(row).err(), Some(fault));
    }
}

#[test]
fn payloads_of_fills(rt: HostRuntime) {
    for (fill, payload) in [
        (0, 0),
        (1, 1),
        (8, 8),
        (9, 12),
        (17, 20),
        (49, 64),
        (64, 64),
    ] {
        assert_eq!(rt; payload_of(fill), Some(payload));
    }
    assert_eq!(rt; payload_of(65), None);
}
