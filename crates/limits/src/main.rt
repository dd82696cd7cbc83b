//! The refusals that no day of lines can show: too little room in the lists, an order after the last
//! arrival number, and memory of another length than a board's.
#![tactic(auto)]

use market::any::AnyLadder;
use market::board::{Board, Quote};
use market::ladder::Ladder;
use market::packed::PackedBoard;
use market::table::TableBoard;
use records::AppendList;
use series::Series;
use std::alloc::AllocError;
use std::io::Write;
use values::calls::{Call, OrderFields};
use values::faults::Fault;
use values::reports::{Report, Slip};
use values::terms::Letter;
use values::writing::{put_fault, put_lines};

// A customer's limit buy of one contract at 100.
fn buy(id: u32) -> Call {
    Call::Order(OrderFields {
        id,
        firm: 1,
        side: Letter::B,
        origin: Letter::C,
        kind: Letter::L,
        mark: Letter::R,
        limit: 100,
        size: 1,
        protection: 0,
    })
}

// How many places the lists of a call have.
#[derive(Clone, Copy)]
struct Room {
    reports: usize,
    slips: usize,
}

const FULL: Room = Room {
    reports: 128,
    slips: 15,
};

// One call with this room, at most 128 and 15 places, and its answer.
fn ask<L: Ladder + Drop, B: Board + Drop>(
    out: &mut String,
    series: &mut Series<L, B>,
    call: Call,
    room: Room,
) -> Result<(), AllocError> {
    let places = room.reports.min(128);
    let slip_places = room.slips.min(15);
    writeln!(out, "{call} with room for {places} and {slip_places}")?;
    let mut reports = [Report::BLANK; 128];
    let mut slips = [Slip::BLANK; 15];
    let mut reported = AppendList::new(&mut reports[0..places]);
    let mut sent = AppendList::new(&mut slips[0..slip_places]);
    match series.call(call, &mut reported, &mut sent) {
        Ok(()) => {
            put_lines(out, reported.as_slice())?;
            put_lines(out, sent.as_slice())
        }
        Err(fault) => put_fault(out, fault),
    }
}

// Each call but the opening wants 128 places for reports, and an order 15 for slips.
fn put_rooms(out: &mut String) -> Result<(), AllocError> {
    let mut series = Series::new(AnyLadder::Cents, TableBoard::new(), false);
    let quote = Quote {
        bid: 99,
        bid_size: 1,
        offer: 101,
        offer_size: 1,
    };
    let away = Call::Away { exchange: 1, quote };
    let none = Room {
        reports: 0,
        slips: 0,
    };
    let few = Room {
        reports: 127,
        slips: 14,
    };
    ask(out, &mut series, Call::Open, none)?;
    ask(out, &mut series, away, few)?;
    ask(out, &mut series, buy(7), few)?;
    ask(out, &mut series, buy(7), Room { slips: 14, ..FULL })?;
    ask(out, &mut series, Call::Cancel { id: 7 }, few)?;
    ask(out, &mut series, Call::Reply { slip: 1, filled: 0 }, few)?;
    ask(out, &mut series, away, Room { slips: 0, ..FULL })?;
    ask(out, &mut series, buy(7), FULL)
}

// One call with all the room that it may want, whose answer is not written.
// Lists of its own, as `ask` has: what a function for both filled would end with it, and `ask` reads it after the call.
fn carry_out<L: Ladder + Drop, B: Board + Drop>(
    series: &mut Series<L, B>,
    call: Call,
) -> Result<(), Fault> {
    let mut reports = [Report::BLANK; 128];
    let mut slips = [Slip::BLANK; 15];
    let mut reported = AppendList::new(&mut reports);
    let mut sent = AppendList::new(&mut slips);
    series.call(call, &mut reported, &mut sent)
}

fn enter_and_cancel<L: Ladder + Drop, B: Board + Drop>(
    series: &mut Series<L, B>,
) -> Result<(), Fault> {
    carry_out(series, buy(7))?;
    carry_out(series, Call::Cancel { id: 7 })
}

// The millionth order is accepted, and no later one.
fn put_arrivals(out: &mut String) -> Result<(), AllocError> {
    let mut series = Series::new(AnyLadder::Cents, TableBoard::new(), false);
    ask(out, &mut series, Call::Open, FULL)?;
    let accepted = (0..999_999)
        .filter(|_| enter_and_cancel(&mut series).is_ok())
        .count();
    writeln!(out, "accepted {accepted}")?;
    ask(out, &mut series, buy(7), FULL)?;
    ask(out, &mut series, buy(8), FULL)
}

fn put_board(out: &mut String, memory: &mut [u8]) -> Result<(), AllocError> {
    match PackedBoard::new(memory) {
        Ok(_) => Ok(()),
        Err(fault) => put_fault(out, Fault::Board(fault)),
    }
}

// So many bytes, at most 300, offered as a board's memory, and how many of them were written.
// An array, as a host without a heap lends one.
fn put_memory(out: &mut String, length: usize) -> Result<(), AllocError> {
    let mut memory = [7u8; 300];
    let end = length.min(300);
    put_board(out, &mut memory[0..end])?;
    let written = memory.iter().filter(|b| **b != 7).count();
    writeln!(out, "of {end} bytes {written} are written")
}

fn main(rt: HostRuntime) -> anyhow::Result<()> {
    let mut out = String::new(rt.alloc());
    put_rooms(&mut out)?;
    put_arrivals(&mut out)?;
    put_memory(&mut out, 239)?;
    put_memory(&mut out, 240)?;
    put_memory(&mut out, 241)?;
    rt.stdout().write_all(out.as_bytes())?;
    Ok(())
}
