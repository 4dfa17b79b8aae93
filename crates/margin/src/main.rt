//! Reads a file of deviations from standard input, and writes the line that answers it.
#![tactic(auto)]

use margin_file::{answer, most_bytes};
use std::io::{Read, Write};

fn main(rt: HostRuntime) -> anyhow::Result<()> {
    let mut file = Vec::new(rt.alloc());
    rt.stdin().take(most_bytes()).read_to_end(&mut file)?;
    // The line is complete before any of it is written.
    let line = answer(rt.alloc(), &file)?;
    rt.stdout().write_all(line.as_bytes())?;
    Ok(())
}
