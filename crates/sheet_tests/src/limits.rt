// The longest sheet and the shortest output that are taken, and the bytes past a listing.
use crate::samples::{LISTING, SHEET};
use listing::text::MAX_BYTES;
use plan::closed::order::Counted;
use sheet::fault::{Cause, SheetFault};
use sheet::run::{LONGEST_SHEET, Report, run};
use std::test::Fail;

// What no listing holds.
const MARK: u8 = b'~';

// No sheet of 16,384 bytes is free of faults, since it would have more signals than a plan may: the length is taken
// where it is not what is at fault.
#[test]
fn longest_sheet(rt: HostRuntime) -> Result<(), Fail> {
    let mut text = [b'\n'; LONGEST_SHEET + 1];
    text[..SHEET.len()].copy_from_slice(SHEET);
    let mut out = [MARK; MAX_BYTES];
    let eighth_line = SheetFault {
        cause: Cause::Letter,
        line: 8,
        field: 0,
    };
    let taken = run(&text[..LONGEST_SHEET], &mut out)?;
    assert_eq!(rt; taken.outcome, Err(eighth_line));
    let whole = SheetFault {
        cause: Cause::Length,
        line: 0,
        field: 0,
    };
    let refused = run(&text, &mut out)?;
    assert_eq!(rt; refused.outcome, Err(whole));
    assert_eq!(rt; &out[..refused.written], b"EEE 10 0000 0\n".as_slice());
    Ok(())
}

#[test]
fn shortest_output(rt: HostRuntime) -> Result<(), Fail> {
    let mut out = [MARK; MAX_BYTES];
    let short = SheetFault {
        cause: Cause::Output,
        line: 0,
        field: 0,
    };
    assert_eq!(rt; run(SHEET, &mut out[..MAX_BYTES - 1]), Err(short));
    assert_eq!(rt; short.cause.number(), 20);
    assert!(rt; out == [MARK; MAX_BYTES], "nothing is written");
    let two = Counted {
        frames: 2,
        examinations: 2,
    };
    let listed = Report {
        written: LISTING.len(),
        outcome: Ok(two),
    };
    assert_eq!(rt; run(SHEET, &mut out), Ok(listed));
    Ok(())
}

#[test]
fn bytes_past_the_listing_stay(rt: HostRuntime) -> Result<(), Fail> {
    let mut out = [MARK; MAX_BYTES + 60];
    let report = run(SHEET, &mut out)?;
    assert_eq!(rt; &out[..report.written], LISTING.as_slice());
    for byte in &out[report.written..] {
        assert_eq!(rt; *byte, MARK);
    }
    // A shorter listing leaves what is past it of the longer one.
    let report = run(b"", &mut out)?;
    assert_eq!(rt; &out[..report.written], b"EEE 11 0001 0\n".as_slice());
    let before = LISTING.as_slice();
    assert_eq!(rt;
        &out[report.written..LISTING.len()],
        &before[report.written..]
    );
    Ok(())
}
