// Where faults stand, by number, line and field, and that the first of several is told.
use crate::samples::SHEET;
use listing::text::MAX_BYTES;
use plan::fault::PlanFault;
use sheet::fault::{Cause, SheetFault};
use sheet::run::run;
use std::test::Fail;

// The number, the line and the field of the refusal of a sheet.
fn refusal(sheet: &[u8]) -> Result<Option<(u8, u16, u8)>, Fail> {
    let mut out = [0; MAX_BYTES];
    match run(sheet, &mut out)?.outcome {
        Ok(_) => Ok(None),
        Err(fault) => Ok(Some((fault.cause.number(), fault.line, fault.field))),
    }
}

// Where the third and the sixth line of the sheet begin.
const GATEWAY: usize = 40;

const SIXTH: usize = 103;

#[test]
fn one_byte_changed(rt: HostRuntime) -> Result<(), Fail> {
    assert_eq!(rt; refusal(SHEET)?, None);
    let faults = [
        (GATEWAY, b'C', (17, 3, 0)),
        (SIXTH, b's', (17, 6, 0)),
        // A space, the lowest digit of the set, the line feed.
        (SIXTH + 1, b'0', (18, 6, 1)),
        (SIXTH + 30, b'a', (18, 6, 6)),
        (SIXTH + 31, b' ', (19, 6, 7)),
        // The first bus has an arbitration bit of 208, the second a data bit of 2,292.
        (7, b'0', (1, 1, 1)),
        (36, b'8', (1, 2, 2)),
        // Size 0, period 805,696, a deadline past the period, no domain, the name of the signal before.
        (SIXTH + 10, b'0', (3, 6, 3)),
        (SIXTH + 14, b'0', (4, 6, 4)),
        (SIXTH + 21, b'8', (5, 6, 5)),
        (SIXTH + 30, b'0', (6, 6, 6)),
        (SIXTH + 5, b'1', (7, 6, 1)),
    ];
    for (at, byte, told) in &faults {
        let mut sheet = *SHEET;
        *sheet.get_mut(*at).expect(&rt, "a byte of the sheet") = *byte;
        assert_eq!(rt; refusal(&sheet)?, Some(*told));
    }
    Ok(())
}

// A bank that ends before its radio link, and a line that ends before its line feed.
#[test]
fn cut_short(rt: HostRuntime) -> Result<(), Fail> {
    assert_eq!(rt; refusal(b"")?, Some((17, 1, 0)));
    assert_eq!(rt; refusal(&SHEET[..60])?, Some((17, 4, 0)));
    assert_eq!(rt; refusal(&SHEET[..SIXTH - 1])?, Some((19, 5, 7)));
    Ok(())
}

// A line's form comes before its signal, and an earlier line before a later one.
#[test]
fn first_fault(rt: HostRuntime) -> Result<(), Fail> {
    let mut sheet = *SHEET;
    sheet[SIXTH + 10] = b'0';
    assert_eq!(rt; refusal(&sheet[..SIXTH + 31])?, Some((19, 6, 7)));
    sheet[SIXTH + 32] = b'T';
    assert_eq!(rt; refusal(&sheet)?, Some((3, 6, 3)));
    Ok(())
}

// Two frames, each of which is in time alone: the fault holds how many are in each other's way.
#[test]
fn no_order(rt: HostRuntime) -> Result<(), Fail> {
    let hasty = b"S 0001 1 08 000F4240 000249F0 1\nS 0002 2 08 000F4240 000249F0 1\n";
    let mut sheet = *SHEET;
    sheet[71..135].copy_from_slice(hasty);
    let mut out = [0; MAX_BYTES];
    let report = run(&sheet[..135], &mut out)?;
    let both = SheetFault {
        cause: Cause::Plan(PlanFault::NoOrder(2)),
        line: 0,
        field: 0,
    };
    assert_eq!(rt; report.outcome, Err(both));
    assert_eq!(rt;
        &out[..report.written],
        b"FFF 1 08 000F4240 000249F0 1\nFFF 2 08 000F4240 000249F0 1\n".as_slice()
    );
    Ok(())
}
