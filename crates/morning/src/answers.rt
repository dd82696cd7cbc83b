// The whole answer to a morning's input.
ghost use Rattle.std.specs.Prelude.{◌≡◌, ℕ, true, List, ◌++◌, length, string_bytes, OnOk};
ghost use Rattle.market.specs.Any.{rungs_of};
ghost use Rattle.lines.specs.Inputs.{lines_of};
ghost use Rattle.morning.specs.Mornings.{taken, after};
ghost use Rattle.morning.specs.Answers.{Answer, Over, Morning};

use super::taking::{Taken, take};
use super::text::{put_bytes, put_passed_over, put_quote, put_tops};
use super::tops::top;
use lines::records::{INPUT_LIMIT, Records};
use market::any::AnyLadder;
use market::board::Board;
use market::ladder::Ladder;
use market::packed::PackedBoard;
use market::table::TableBoard;
use opening::start;
use std::alloc::AllocError;
use values::faults::{Fault, LineFault};
use values::texts::put_fault;

// A line's answer: the exchange's quote and the top of the away market, that it is passed over, or its fault.
// What it is given is not a struct: the boards are lent from two places, and the rest goes to the calls below one by one.
fn answer<L: Ladder, X: Board, Y: Board>(
    out: &mut String,
    ladder: &L,
    one: &mut X,
    other: &mut Y,
    line: &[u8],
) -> Result<(), AllocError>
    ensures value { OnOk result ((b : List ℕ) × (string_bytes out.new ≡ string_bytes out.old ++ b) × Answer (L.Ladder.rung ladder.now) (X.Board.quotes one.old) (taken (L.Ladder.rung ladder.now) line.now) b) }
    ensures one { X.Board.quotes one.new ≡ after (X.Board.quotes one.old) (taken (L.Ladder.rung ladder.now) line.now) }
    ensures other { Y.Board.quotes other.new ≡ after (Y.Board.quotes other.old) (taken (L.Ladder.rung ladder.now) line.now) }
{
    match take(ladder, one, other, line) {
        Ok(Taken::Told { exchange, .. }) => {
            put_quote(out, exchange, one.quote(exchange))?;
            put_tops(out, top(ladder, one))
        }
        Ok(Taken::PassedOver(call)) => put_passed_over(out, call),
        Err(refusal) => put_fault(out, refusal),
    }
}

// Boards agree where they hold the same quotes.
fn agree<X: Board, Y: Board>(one: &X, other: &Y) -> bool
    ensures same { X.Board.quotes one.now ≡ Y.Board.quotes other.now → result ≡ true }
    ensures only { result ≡ true → X.Board.quotes one.now ≡ Y.Board.quotes other.now }
{
    (1..16).all(|exchange| one.quote(exchange) == other.quote(exchange))
}

// The lines after the header, told to a board of its own and to one over the host's memory.
fn answer_all(
    out: &mut String,
    ladder: &AnyLadder,
    memory: &mut [u8],
    lines: Records,
) -> Result<(), AllocError>
    ensures value { OnOk result ((b : List ℕ) × (string_bytes out.new ≡ string_bytes out.old ++ b) × Over (length memory.old) (rungs_of ladder.now) (lines_of lines.entry.rest.now) b) }
{
    let mut table = TableBoard::new();
    match PackedBoard::new(memory) {
        Ok(mut packed) => {
            for line in lines {
                answer(out, ladder, &mut table, &mut packed, line)?;
            }
            let same = agree(&table, &packed);
            writeln!(out, "both boards agree: {same}")
        }
        Err(fault) => put_fault(out, Fault::Board(fault)),
    }
}

// Everything that is written for an input: nothing for none, one fault for too long a one or for a first line that is refused.
pub fn put_morning(out: &mut String, input: &[u8], memory: &mut [u8]) -> Result<(), AllocError>
    ensures { OnOk result ((b : List ℕ) × (string_bytes out.new ≡ string_bytes out.old ++ b) × Morning (length memory.old) input.now b) }
{
    if input.len() > INPUT_LIMIT {
        return put_fault(out, Fault::Line(LineFault::NoCall));
    }
    let mut lines = Records { rest: input };
    let Some(first) = lines.next() else {
        return Ok(());
    };
    match start(first) {
        Ok(settings) => {
            answer_all(out, &settings.ladder, memory, lines)?;
            put_bytes(out, memory)
        }
        Err(fault) => put_fault(out, fault),
    }
}
