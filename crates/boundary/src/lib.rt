//! The model inside another program: a day's text in, its answer into memory that the caller lends.
//! Promises: the answer is that of `day`, byte for byte, and its length is told; where it does not fit nothing is written.
//! Knows numbers and byte slices only, and of the model the day alone.
#![tactic(auto)]

ghost use Rattle.std.specs.Prelude.{◌≡◌, ℕ, ◌<◌, ◌≤◌, List, ◌++◌, length, IfOk};
ghost use Rattle.day.specs.Days.{Writes};
ghost use Rattle.boundary.specs.declared.Refusal.TheVariants.{OutOfMemory};
ghost use Rattle.boundary.specs.Handing.{Hands, Placed, number_of};

use day::put_day;
use lines::records::INPUT_LIMIT;
use std::alloc::{AllocError, Global};

// What the number that comes back says; the C interface has numbers and no enums of ours.
pub const DONE: u32 = 0;

pub const INPUT_TOO_LONG: u32 = 1;

pub const BUFFER_TOO_SMALL: u32 = 2;

pub const OUT_OF_MEMORY: u32 = 3;

// Why a day's answer is not handed over.
#[derive(Clone, Copy, PartialEq, Eq, Debug)]
enum Refusal {
    InputTooLong,
    BufferTooSmall,
    OutOfMemory,
}

impl From<AllocError> for Refusal {
    ghost from_gives = { λ _ r. r ≡ OutOfMemory };

    fn from(_error: AllocError) -> Refusal {
        Refusal::OutOfMemory
    }
}

// The C interface knows numbers alone.
fn number(handed: Result<(), Refusal>) -> u32
    ensures { result ≡ number_of handed }
{
    match handed {
        Ok(()) => DONE,
        Err(Refusal::InputTooLong) => INPUT_TOO_LONG,
        Err(Refusal::BufferTooSmall) => BUFFER_TOO_SMALL,
        Err(Refusal::OutOfMemory) => OUT_OF_MEMORY,
    }
}

// The day's answer, in memory of its own.
fn answered(heap: Global, input: &[u8]) -> Result<Vec<u8>, AllocError>
    ensures { IfOk result (λ v. Writes input.now v.items) }
{
    let mut out = Vec::new(heap);
    put_day(&mut out, input)?;
    Ok(out)
}

// The bytes at the front of the buffer, where they fit; whether they do is tested before any is written.
fn place(bytes: &[u8], buffer: &mut [u8]) -> Result<(), Refusal>
    ensures { Placed result bytes.now buffer.old buffer.new }
{
    if buffer.len() < bytes.len() {
        return Err(Refusal::BufferTooSmall);
    }
    buffer[0..bytes.len()].copy_from_slice(bytes);
    Ok(())
}

fn hand_over(
    heap: Global,
    input: &[u8],
    buffer: &mut [u8],
    written: &mut usize,
) -> Result<(), Refusal>
    ensures { Hands (number_of result) input.now buffer.old buffer.new written.new }
{
    *written = 0;
    if INPUT_LIMIT < input.len() {
        return Err(Refusal::InputTooLong);
    }
    let answer = answered(heap, input)?;
    let bytes = answer.as_slice();
    *written = bytes.len();
    place(bytes, buffer)
}

// Runs a day's text. The number that comes back says what became of it, and `written` how long the answer is.
#[unsafe(no_mangle)]
pub extern "C" fn wetlandspice_run_day(
    heap: Global,
    input: &[u8],
    buffer: &mut [u8],
    written: &mut usize,
) -> u32
    ensures { Hands result input.now buffer.old buffer.new written.new }
{
    number(hand_over(heap, input, buffer, written))
}
