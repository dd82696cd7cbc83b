//! A day of one series in plain words: a line of text for each line of the input.
#![tactic(auto)]

use lines::records::INPUT_LIMIT;
use std::io::Write;
use telling::put_telling;
use tool::asked_input;

const HELP: &str = "explain [FILE]

Reads a day of one series, as runseries does, from FILE or from standard input,
and tells it in plain words: line n of the output tells line n of the input.

  --help   prints this
";

fn main(rt: HostRuntime) -> anyhow::Result<()> {
    let Some(input) = asked_input(&rt, "explain", HELP, INPUT_LIMIT as u64 + 1)? else {
        return Ok(());
    };
    let mut out = String::new(rt.alloc());
    put_telling(&mut out, input.as_slice())?;
    rt.stdout().write_all(out.as_bytes())?;
    Ok(())
}
