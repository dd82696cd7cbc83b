//! Judges every line of a table that is piped in: read it, check its fields, and write the call back or the fault.
//! docs/LINETABLE.md has the table, with the reason of every answer.
#![tactic(auto)]

mod table;

use lines::records::INPUT_LIMIT;
use std::io::{Read, Write};
use table::judge_table;

// Read, answer, write: these steps are all that a program has of its own.
fn main(rt: HostRuntime) -> anyhow::Result<()> {
    let mut input = Vec::new(rt.alloc());
    rt.stdin()
        .take(INPUT_LIMIT as u64 + 1)
        .read_to_end(&mut input)?;
    let mut out = String::new(rt.alloc());
    judge_table(&mut out, input.as_slice())?;
    rt.stdout().write_all(out.as_bytes())?;
    Ok(())
}
