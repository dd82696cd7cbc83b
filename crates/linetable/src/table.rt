// A table of lines: what reading each and checking its fields must answer. Nothing is carried out.
ghost use Rattle.std.specs.Prelude.{◌≡◌, ◌++◌, string_bytes, OnOk};
ghost use Rattle.lines.specs.Inputs.{lines_of};
ghost use Rattle.linetable.specs.Table.{is_mark, first_judged, later_judged, judged, told, table, answered};

use checks::calls::{check_call, check_header};
use lines::calls::{read_call, read_header};
use lines::records::{INPUT_LIMIT, Records};
use market::any::AnyLadder;
use std::alloc::AllocError;
use values::calls::{Call, Header};
use values::faults::{Fault, LineFault};
use values::writing::{put_fault, put_line};

// Where the table stands: before the first line of an input, behind a header, or behind a refused first line. No Option: it is
// one of three.
#[derive(Clone, Copy)]
pub enum Stage {
    First,
    Later(AnyLadder),
    Ended,
}

// What a line is answered with. No Result: a refusal is written like the rest, and a mark and nothing are answers too.
#[derive(Clone, Copy)]
pub enum Answer {
    // A line that is only '#' begins a new input.
    Mark,
    Header(Header),
    Call(Call),
    Refused(Fault),
    Nothing,
}

fn is_mark(line: &[u8]) -> bool
    ensures { result ≡ is_mark line.now }
{
    line.len() == 1 && line[0] == b'#'
}

fn judge_first(line: &[u8]) -> Result<(Header, AnyLadder), Fault>
    ensures { result ≡ first_judged line.now }
{
    let header = read_header(line)?;
    let settings = check_header(header)?;
    Ok((header, settings.ladder))
}

fn judge_later(ladder: AnyLadder, line: &[u8]) -> Result<Call, Fault>
    ensures { result ≡ later_judged ladder line.now }
{
    let call = read_call(line)?;
    check_call(&ladder, call)?;
    Ok(call)
}

fn judge(stage: Stage, line: &[u8]) -> (Answer, Stage)
    ensures { result ≡ judged stage line.now }
{
    if is_mark(line) {
        return (Answer::Mark, Stage::First);
    }
    match stage {
        Stage::First => match judge_first(line) {
            Ok((header, ladder)) => (Answer::Header(header), Stage::Later(ladder)),
            Err(fault) => (Answer::Refused(fault), Stage::Ended),
        },
        Stage::Later(ladder) => match judge_later(ladder, line) {
            Ok(call) => (Answer::Call(call), stage),
            Err(fault) => (Answer::Refused(fault), stage),
        },
        Stage::Ended => (Answer::Nothing, stage),
    }
}

fn tell(out: &mut String, answer: Answer) -> Result<(), AllocError>
    ensures { OnOk result (string_bytes out.new ≡ string_bytes out.old ++ told answer) }
{
    match answer {
        Answer::Mark => writeln!(out, "#"),
        Answer::Header(header) => put_line(out, header),
        Answer::Call(call) => put_line(out, call),
        Answer::Refused(fault) => put_fault(out, fault),
        Answer::Nothing => Ok(()),
    }
}

fn judge_all(out: &mut String, input: &[u8]) -> Result<(), AllocError>
    ensures { OnOk result (string_bytes out.new ≡ string_bytes out.old ++ table Stage.First (lines_of input.now)) }
{
    let mut stage = Stage::First;
    for line in (Records { rest: input }) {
        let (answer, next) = judge(stage, line);
        tell(out, answer)?;
        stage = next;
    }
    Ok(())
}

// Writes the answer to every line of a table, or that it is too long to be read.
pub fn judge_table(out: &mut String, input: &[u8]) -> Result<(), AllocError>
    ensures { OnOk result (string_bytes out.new ≡ string_bytes out.old ++ answered input.now) }
{
    if input.len() <= INPUT_LIMIT {
        judge_all(out, input)
    } else {
        tell(out, Answer::Refused(Fault::Line(LineFault::NoCall)))
    }
}
