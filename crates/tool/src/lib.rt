//! How the programs are asked: by a file's name, by standard input, or for help.
//! Promises nothing about what is read: a run shows it. What a program makes of its input is promised elsewhere.
//! Knows no lines and no series.
#![tactic(auto)]

use anyhow::anyhow;
use std::fs::File;
use std::io::{Read, Write};
use std::{env, fmt, io};

// What the words after the program's name ask for.
#[derive(Drop)]
enum Request {
    Help,
    StandardInput,
    File(String),
}

// Why they ask for nothing that the program does.
#[derive(Debug, Drop)]
enum Misuse {
    UnknownFlag(String),
    TooMany,
}

impl fmt::Display for Misuse {
    fn fmt<W: fmt::Write>(&self, f: &mut fmt::Formatter<W>) -> fmt::Result {
        match self {
            Misuse::UnknownFlag(flag) => write!(f, "no flag {flag}"),
            Misuse::TooMany => write!(f, "one file at most"),
        }
    }
}

fn by_word(word: String) -> Result<Request, Misuse> {
    let text = word.as_str();
    if text == "--help" || text == "-h" {
        Ok(Request::Help)
    } else if text == "-" {
        Ok(Request::StandardInput)
    } else if text.starts_with('-') {
        Err(Misuse::UnknownFlag(word))
    } else {
        Ok(Request::File(word))
    }
}

fn asked(rt: &HostRuntime) -> io::Result<Result<Request, Misuse>> {
    let mut words = env::args(rt)?;
    let _program = words.next();
    let first = words.next();
    let more = words.next().is_some();
    Ok(match first {
        None => Ok(Request::StandardInput),
        Some(_) if more => Err(Misuse::TooMany),
        Some(word) => by_word(word),
    })
}

// All that the reader gives, `most` bytes of it at most.
fn read_all<R: Read + Drop>(rt: &HostRuntime, reader: R, most: u64) -> io::Result<Vec<u8>> {
    let mut input = Vec::new(rt.alloc());
    reader.take(most).read_to_end(&mut input)?;
    Ok(input)
}

fn read_file(rt: &HostRuntime, name: &str, most: u64) -> io::Result<Vec<u8>> {
    read_all(rt, File::open(rt, name)?, most)
}

// The bytes that the program is asked to take, `most` of them at most; none where it was asked for help, which is then
// printed. Where they cannot be had, the error says why, in words for `main` to print.
pub fn asked_input(
    rt: &HostRuntime,
    program: &str,
    help: &str,
    most: u64,
) -> anyhow::Result<Option<Vec<u8>>> {
    let request = asked(rt)?.map_err(|misuse| anyhow!(
        "{program}: {misuse}; try {program} --help"
    ))?;
    match request {
        Request::Help => {
            rt.stdout().write_all(help.as_bytes())?;
            Ok(None)
        }
        Request::StandardInput => {
            let input = read_all(rt, rt.stdin(), most).map_err(|error| anyhow!(
                "{program}: cannot read standard input: {error}"
            ))?;
            Ok(Some(input))
        }
        Request::File(name) => {
            let input = read_file(rt, name.as_str(), most).map_err(|error| anyhow!(
                "{program}: cannot read {name}: {error}"
            ))?;
            Ok(Some(input))
        }
    }
}
