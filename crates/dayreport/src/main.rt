// Reads a day file on standard input and prints its report.
#![tactic(auto)]

use report::whole::{REPORT_BYTES, day_text};
use std::io::{Read, Write};

// One byte more than a day file can have, so that a longer input is seen to be too long.
const INPUT_BYTES: u64 = 65537;

fn main(rt: HostRuntime) -> anyhow::Result<()> {
    let mut input = Vec::new(rt.alloc());
    rt.stdin().take(INPUT_BYTES).read_to_end(&mut input)?;
    let mut table = [0; REPORT_BYTES];
    let len = day_text(&input, &mut table)?;
    rt.stdout().write_all(&table[..len])?;
    Ok(())
}
