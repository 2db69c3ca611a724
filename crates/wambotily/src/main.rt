// Plans the sheet on standard input and writes its listing to standard output. It ends with status 0 where the frames
// have an order, and with 1, after the listing, where they have none or the sheet is at fault.
#![tactic(auto)]

use listing::text::MAX_BYTES;
use sheet::run::{LONGEST_SHEET, run};
use std::io;
use std::io::{Read, Write};

// One byte more than a sheet may have, so that a longer one is known as such.
const READ_AT_MOST: u64 = LONGEST_SHEET as u64 + 1;

fn main(rt: HostRuntime) -> anyhow::Result<()> {
    let mut sheet = Vec::new(rt.alloc());
    rt.reader().take(READ_AT_MOST).read_to_end(&mut sheet)?;
    let mut out = [0; MAX_BYTES];
    let report = run(&sheet, &mut out)?;
    io::writer(&rt).write_all(&out[..report.written])?;
    report.outcome?;
    Ok(())
}
