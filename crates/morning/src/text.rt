// A morning in words, for a person to read.
ghost use Rattle.std.specs.Prelude.{◌≡◌, ◌<◌, ◌++◌, Some, string_bytes, OnOk};
ghost use Rattle.morning.specs.Words.{side_text, rung_text, quote_line, top_line, passed_line, hex_digit, byte_text, dump_from};

use super::tops::Tops;
use market::board::Quote;
use std::alloc::AllocError;
use std::fmt;
use values::calls::Call;
use values::terms::Side;

// One side of a quote, a buy's being the bid: its price and size, or that there is none, a price of 0 as in the quote.
#[derive(Clone, Copy)]
struct Shown {
    side: Side,
    price: u32,
    size: u64,
}

impl fmt::Display for Shown {
    ghost output = { λ s. Some (side_text s.side s.price s.size) };

    fn fmt<W: fmt::Write>(&self, f: &mut fmt::Formatter<W>) -> fmt::Result {
        let Shown { side, price, size } = *self;
        match (side, price) {
            (Side::Buy, 0) => write!(f, "no bid"),
            (Side::Buy, _) => write!(f, "bid {price} x {size}"),
            (Side::Sell, 0) => write!(f, "no offer"),
            (Side::Sell, _) => write!(f, "offer {price} x {size}"),
        }
    }
}

// The rung next to the best of a side, where there is one.
#[derive(Clone, Copy)]
struct Next {
    side: Side,
    rung: Option<u32>,
}

impl fmt::Display for Next {
    ghost output = { λ n. Some (rung_text n.side n.rung) };

    fn fmt<W: fmt::Write>(&self, f: &mut fmt::Formatter<W>) -> fmt::Result {
        match (self.side, self.rung) {
            (_, None) => write!(f, ""),
            (Side::Buy, Some(price)) => write!(f, ", rung above {price}"),
            (Side::Sell, Some(price)) => write!(f, ", rung below {price}"),
        }
    }
}

// What an exchange quotes.
pub fn put_quote(out: &mut String, exchange: u32, quote: Quote) -> Result<(), AllocError>
    ensures { OnOk result (string_bytes out.new ≡ string_bytes out.old ++ quote_line exchange quote) }
{
    let bid = Shown {
        side: Side::Buy,
        price: quote.bid,
        size: u64::from(quote.bid_size),
    };
    let offer = Shown {
        side: Side::Sell,
        price: quote.offer,
        size: u64::from(quote.offer_size),
    };
    writeln!(out, "exchange {exchange}: {bid}, {offer}")
}

// The best of each side with its size and the rung next to it.
pub fn put_tops(out: &mut String, tops: Tops) -> Result<(), AllocError>
    ensures { OnOk result (string_bytes out.new ≡ string_bytes out.old ++ top_line tops) }
{
    let bid = Shown {
        side: Side::Buy,
        price: tops.bid,
        size: tops.bid_size,
    };
    let above = Next {
        side: Side::Buy,
        rung: tops.above_bid,
    };
    let offer = Shown {
        side: Side::Sell,
        price: tops.offer,
        size: tops.offer_size,
    };
    let below = Next {
        side: Side::Sell,
        rung: tops.below_offer,
    };
    writeln!(out, "  best: {bid}{above}; {offer}{below}")
}

fn hex_digit(n: u8) -> char
    requires { n < 16 }
    ensures { result ≡ hex_digit n }
{
    if n < 10 {
        char::from(b'0' + n)
    } else {
        char::from(b'a' + (n - 10))
    }
}

// A byte as two digits, and a blank or, after sixteen bytes, the end of the line.
fn put_byte(out: &mut String, place: usize, byte: u8) -> Result<(), AllocError>
    ensures { OnOk result (string_bytes out.new ≡ string_bytes out.old ++ byte_text place byte) }
{
    let high = hex_digit(byte / 16);
    let low = hex_digit(byte % 16);
    if place % 16 == 15 {
        writeln!(out, "{high}{low}")
    } else {
        write!(out, "{high}{low} ")
    }
}

// Sixteen bytes to a line.
pub fn put_bytes(out: &mut String, bytes: &[u8]) -> Result<(), AllocError>
    ensures { OnOk result (string_bytes out.new ≡ string_bytes out.old ++ dump_from 0 bytes.now) }
{
    for (i, byte) in bytes.iter().enumerate() {
        put_byte(out, i, *byte)?;
    }
    Ok(())
}

// A call that says nothing of the away market. It is one line of one value, but its words stand where the others do.
pub fn put_passed_over(out: &mut String, call: Call) -> Result<(), AllocError>
    ensures { OnOk result (string_bytes out.new ≡ string_bytes out.old ++ passed_line call) }
{
    writeln!(out, "passed over: {call}")
}
