//! A morning of away quotes on standard input: after each quote, the best away bid and offer and the rungs next to them.
#![tactic(auto)]

use lines::records::INPUT_LIMIT;
use market::packed::BOARD_BYTES;
use morning::answers::put_morning;
use std::io::{Read, Write};

// Read, answer, write: these steps are all that a program has of its own.
fn main(rt: HostRuntime) -> anyhow::Result<()> {
    let mut input = Vec::new(rt.alloc());
    rt.stdin()
        .take(INPUT_LIMIT as u64 + 1)
        .read_to_end(&mut input)?;
    let mut memory = [0u8; BOARD_BYTES];
    let mut out = String::new(rt.alloc());
    put_morning(&mut out, input.as_slice(), &mut memory)?;
    rt.stdout().write_all(out.as_bytes())?;
    Ok(())
}
