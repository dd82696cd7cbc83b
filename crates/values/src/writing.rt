// Reports, slips and faults, each on a line of its own, into a string or into bytes.
// By the formatter of the library alone a day took 1.23 times the instructions of a plain program, and by bytes about 1.1 times.
// Among bytes a line is gathered from its end, since the last digit of a number is the first to be known, and then appended.
// It stands before place 64 and has at most 57 bytes: a letter, five numbers of ten digits with a tab before each, and
// byte 10.
ghost use Rattle.std.specs.Prelude.{◌≡◌, ℕ, ◌+◌, ◌<◌, ◌≤◌, List, [], ◌∷◌, ◌++◌, Some, OnOk, IfSome, string_bytes, refl};
ghost use Rattle.std.specs.List.{flat_map};
ghost use Rattle.values.specs.Texts.{number, numbered, report_text, slip_text, fault_text, ended, text_from};

use super::faults::{Code, Fault};
use super::reports::{Report, Slip};
use std::alloc::AllocError;
use std::fmt;
use std::mem::replace;

// The byte before the text that begins at `end`; where the text begins then.
fn put_byte(line: &mut [u8; 128], end: usize, byte: u8) -> usize
    requires { (0 < end) × (end ≤ 64) }
    ensures text { text_from result line.new ≡ byte ∷ text_from end line.old }
    ensures place { result + 1 ≡ end }
{
    line[end - 1] = byte;
    end - 1
}

// A tab and the number in base ten before the text that begins at `end`.
fn put_number(line: &mut [u8; 128], end: usize, n: u32) -> usize
    requires { (11 ≤ end) × (end ≤ 64) }
    ensures text { text_from result line.new ≡ number n (text_from end line.old) }
    ensures place { (end ≤ result + 11) × (result ≤ 64) }
{
    let mut at = end;
    let mut front = n;
    // By the number itself, a digit at a time: it has no length before it is written.
    while front >= 10 {
        at -= 1;
        line[at] = b'0' + (front % 10) as u8;
        front /= 10;
    }
    line[at - 1] = b'0' + front as u8;
    line[at - 2] = b'\t';
    at - 2
}

// A letter and numbers, gathered before the byte 10 at the end; where the line begins.
fn gather<const N: usize>(line: &mut [u8; 128], letter: u8, numbers: [u32; N]) -> usize
    requires end { text_from 63 line.old ≡ 10 ∷ [] }
    requires few { N ≤ 5 }
    ensures text { text_from result line.new ≡ (letter ∷ numbered numbers.entry []) ++ (10 ∷ []) }
    ensures place { result ≤ 64 }
{
    let mut at = 63;
    let mut left: &[u32] = &numbers;
    while let [front @ .., last] = left {
        at = put_number(line, at, *last);
        left = front;
    }
    put_byte(line, at, letter)
}

// What is written on a line of its own.
pub trait Line: fmt::Display + Copy {
    // Its bytes, without the byte 10 that ends the line.
    ghost text: { Self → List ℕ };

    // Gathered before the byte 10 at the end; where the line begins.
    fn gather(self, line: &mut [u8; 128]) -> usize
        requires { text_from 63 line.old ≡ 10 ∷ [] }
        ensures text { text_from result line.new ≡ ended text self }
        ensures place { result ≤ 64 };

    ghost displayed: { (x : Self) → Self.output x ≡ Some (text x) };
}

impl Line for Report {
    ghost text = { report_text };

    ghost displayed = { λ _. refl };

    fn gather(self, line: &mut [u8; 128]) -> usize {
        match self {
            Report::New { arrival, id } => gather(line, b'N', [arrival, id]),
            Report::Fill {
                taker,
                maker,
                price,
                size,
            } => gather(line, b'F', [taker, maker, price, size]),
            Report::Booked {
                arrival,
                booked,
                displayed,
                remaining,
            } => gather(line, b'B', [arrival, booked, displayed, remaining]),
            Report::Cancelled {
                arrival,
                size,
                cause,
            } => gather(line, b'C', [arrival, size, cause.number()]),
            Report::FilledAway {
                arrival,
                slip,
                size,
            } => gather(line, b'Y', [arrival, slip, size]),
        }
    }
}

impl Line for Slip {
    ghost text = { slip_text };

    ghost displayed = { λ _. refl };

    fn gather(self, line: &mut [u8; 128]) -> usize {
        let Slip {
            number,
            arrival,
            exchange,
            price,
            size,
        } = self;
        gather(line, b'S', [number, arrival, exchange, price, size])
    }
}

impl Line for Fault {
    ghost text = { fault_text };

    ghost displayed = { λ _. refl };

    fn gather(self, line: &mut [u8; 128]) -> usize {
        let Code {
            number,
            layer,
            place,
        } = self.code();
        let at = put_number(line, 63, place);
        let at = put_byte(line, at, layer.initial());
        let at = put_byte(line, at, b'\t');
        let at = put_number(line, at, number);
        put_byte(line, at, b'E')
    }
}

// The text that begins at `start`, after what is written already.
fn append_text(out: &mut Vec<u8>, line: &[u8; 128], start: usize) -> Result<(), AllocError>
    requires { start ≤ 64 }
    ensures { OnOk result (out.new.items ≡ out.old.items ++ text_from start line.now) }
{
    out.extend_from_slice(&line[start..64])
}

// The same by 64 bytes that are copied at once, and those after the text cut off again, which takes fewer steps than a byte
// at a time.
fn append_block(out: &mut Vec<u8>, line: &[u8; 128], start: usize) -> Result<(), AllocError>
    requires { start ≤ 64 }
    ensures { OnOk result (out.new.items ≡ out.old.items ++ text_from start line.now) }
{
    out.extend_from_slice(&line[start..start + 64])?;
    out.truncate(out.len() - start);
    Ok(())
}

// The same a byte at a time, so that memory grows from eight bytes to powers of two, and not to multiples of a line.
fn append_bytes(out: &mut Vec<u8>, line: &[u8; 128], start: usize) -> Result<(), AllocError>
    requires { start ≤ 64 }
    ensures { OnOk result (out.new.items ≡ out.old.items ++ text_from start line.now) }
{
    for byte in &line[start..64] {
        out.push(*byte)?;
    }
    Ok(())
}

// By the block where there is room for it, so that the vector never grows for bytes that are cut off again.
fn append_within(out: &mut Vec<u8>, line: &[u8; 128], start: usize) -> Result<(), AllocError>
    requires { start ≤ 64 }
    ensures { OnOk result (out.new.items ≡ out.old.items ++ text_from start line.now) }
{
    if out.capacity() < 64 {
        append_bytes(out, line, start)
    } else if out.capacity() - out.len() < 64 {
        append_text(out, line, start)
    } else {
        append_block(out, line, start)
    }
}

// The same, in a vector of this function's own: bytes that are written to it cannot change its length, so that the
// compiler copies many at a time.
fn append(out: &mut Vec<u8>, line: &[u8; 128], start: usize) -> Result<(), AllocError>
    requires { start ≤ 64 }
    ensures { OnOk result (out.new.items ≡ out.old.items ++ text_from start line.now) }
{
    let heap = *out.allocator();
    let mut all = replace(out, Vec::new(heap));
    let done = append_within(&mut all, line, start);
    *out = all;
    done
}

// What lines are written to, each after what is written already.
pub trait Sink {
    ghost bytes: { Self → List ℕ };

    fn put<L: Line>(&mut self, line: L) -> Result<(), AllocError>
        ensures { OnOk result (bytes self.new ≡ bytes self.old ++ ended L.Line.text line) };
}

impl Sink for String {
    ghost bytes = { string_bytes };

    fn put<L: Line>(&mut self, line: L) -> Result<(), AllocError> {
        writeln!(self, "{line}")
    }
}

impl Sink for Vec<u8> {
    ghost bytes = { λ v. v.items };

    fn put<L: Line>(&mut self, line: L) -> Result<(), AllocError> {
        let mut memory = [b'\n'; 128];
        let start = line.gather(&mut memory);
        append(self, &memory, start)
    }
}

pub fn put_lines<S: Sink, L: Line>(out: &mut S, lines: &[L]) -> Result<(), AllocError>
    ensures { OnOk result (S.Sink.bytes out.new ≡ S.Sink.bytes out.old ++ flat_map (ended L.Line.text) lines.now) }
{
    for line in lines {
        out.put(*line)?;
    }
    Ok(())
}

// A fault alone; a name of its own, since what refuses is said most often.
pub fn put_fault<S: Sink>(out: &mut S, fault: Fault) -> Result<(), AllocError>
    ensures { OnOk result (S.Sink.bytes out.new ≡ S.Sink.bytes out.old ++ ended fault_text fault) }
{
    out.put(fault)
}

// Anything else that is displayed, on a line of its own.
pub fn put_line<D: fmt::Display + Copy>(out: &mut String, line: D) -> Result<(), AllocError>
    ensures { OnOk result (IfSome (D.Display.output line) (λ text. string_bytes out.new ≡ string_bytes out.old ++ text ++ 10 ∷ [])) }
{
    writeln!(out, "{line}")
}
