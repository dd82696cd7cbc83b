//! A day of one series: each call's reports and then its slips, or its fault.
#![tactic(auto)]

use day::put_day;
use lines::records::INPUT_LIMIT;
use std::io::Write;
use tool::asked_input;

const HELP: &str = "runseries [FILE]

Reads a day of one series from FILE or from standard input, and writes each
call's reports and then its slips, or its fault.

  --help   prints this
";

fn main(rt: HostRuntime) -> anyhow::Result<()> {
    let Some(input) = asked_input(&rt, "runseries", HELP, INPUT_LIMIT as u64 + 1)? else {
        return Ok(());
    };
    let mut out = Vec::new(rt.alloc());
    put_day(&mut out, input.as_slice())?;
    rt.stdout().write_all(out.as_slice())?;
    Ok(())
}
