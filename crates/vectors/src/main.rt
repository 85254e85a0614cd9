// Prints what the crates below answer on cases whose answers are known from elsewhere. The file
// stdout is not this program's own output: tests/regenerate-vectors makes it.
#![tactic(auto)]

mod blocks;
mod cases;
mod hashes;
mod lengths;

use cases::CASES;
use std::io;

fn main(rt: HostRuntime) -> io::Result<()> {
    hashes::published(&rt)?;
    hashes::counted(&rt)?;
    lengths::numbers(&rt)?;
    lengths::forms(&rt)?;
    blocks::accepted(&rt)?;
    for rows in CASES {
        for row in rows {
            blocks::case(&rt, row)?;
        }
    }
    Ok(())
}
