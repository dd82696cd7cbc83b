// How everything is written: a letter, then the fields, each after a tab.
ghost use Rattle.std.specs.Prelude.{◌≡◌, Some};
ghost use Rattle.values.specs.Codes.{number_of};
ghost use Rattle.values.specs.Texts.{capital, letter_text, letters_text, initial, layer_text, report_text, slip_text, fault_text, header_text, order_text, call_text};

use super::calls::{Call, Header, OrderFields};
use super::faults::{Code, Fault, Layer};
use super::reports::{Cause, Report, Slip};
use super::terms::Letter;
pub use super::writing::{put_fault, put_line, put_lines};
use market::board::Quote;
use std::fmt;

impl Letter {
    // The character of a letter field. A method, as the two below are: `char::from(letter)` would not say which character.
    pub fn capital(self) -> char
        ensures { result ≡ capital self }
    {
        match self {
            Letter::P => 'P',
            Letter::M => 'M',
            Letter::N => 'N',
            Letter::B => 'B',
            Letter::S => 'S',
            Letter::C => 'C',
            Letter::L => 'L',
            Letter::I => 'I',
            Letter::K => 'K',
            Letter::R => 'R',
            Letter::D => 'D',
            Letter::Unlisted(c) => c,
        }
    }
}

impl fmt::Display for Letter {
    ghost output = { λ l. Some (letter_text l) };

    fn fmt<W: fmt::Write>(&self, f: &mut fmt::Formatter<W>) -> fmt::Result {
        let capital = self.capital();
        write!(f, "{capital}")
    }
}

impl Layer {
    // The character of a layer, a byte.
    pub fn initial(self) -> u8
        ensures { result ≡ initial self }
    {
        match self {
            Layer::Line => b'L',
            Layer::Check => b'K',
            Layer::Series => b'S',
            Layer::Monitor => b'M',
            Layer::Board => b'B',
        }
    }
}

impl fmt::Display for Layer {
    ghost output = { λ l. Some (layer_text l) };

    fn fmt<W: fmt::Write>(&self, f: &mut fmt::Formatter<W>) -> fmt::Result {
        let initial = self.initial() as char;
        write!(f, "{initial}")
    }
}

impl Cause {
    pub fn number(self) -> u32
        ensures { result ≡ number_of self }
    {
        match self {
            Cause::Asked => 1,
            Cause::Protection => 2,
            Cause::NoPrice => 3,
            Cause::Unfilled => 4,
        }
    }
}

impl fmt::Display for Report {
    ghost output = { λ r. Some (report_text r) };

    fn fmt<W: fmt::Write>(&self, f: &mut fmt::Formatter<W>) -> fmt::Result {
        match *self {
            Report::New { arrival, id } => write!(f, "N\t{arrival}\t{id}"),
            Report::Fill {
                taker,
                maker,
                price,
                size,
            } => write!(f, "F\t{taker}\t{maker}\t{price}\t{size}"),
            Report::Booked {
                arrival,
                booked,
                displayed,
                remaining,
            } => write!(f, "B\t{arrival}\t{booked}\t{displayed}\t{remaining}"),
            Report::Cancelled {
                arrival,
                size,
                cause,
            } => {
                let number = cause.number();
                write!(f, "C\t{arrival}\t{size}\t{number}")
            }
            Report::FilledAway {
                arrival,
                slip,
                size,
            } => write!(f, "Y\t{arrival}\t{slip}\t{size}"),
        }
    }
}

impl fmt::Display for Slip {
    ghost output = { λ s. Some (slip_text s) };

    fn fmt<W: fmt::Write>(&self, f: &mut fmt::Formatter<W>) -> fmt::Result {
        let Slip {
            number,
            arrival,
            exchange,
            price,
            size,
        } = *self;
        write!(f, "S\t{number}\t{arrival}\t{exchange}\t{price}\t{size}")
    }
}

impl fmt::Display for Fault {
    ghost output = { λ r. Some (fault_text r) };

    fn fmt<W: fmt::Write>(&self, f: &mut fmt::Formatter<W>) -> fmt::Result {
        let Code {
            number,
            layer,
            place,
        } = self.code();
        write!(f, "E\t{number}\t{layer}\t{place}")
    }
}

impl fmt::Display for Header {
    ghost output = { λ h. Some (header_text h) };

    fn fmt<W: fmt::Write>(&self, f: &mut fmt::Formatter<W>) -> fmt::Result {
        let Header { ladder, width } = *self;
        write!(f, "H\t{ladder}\t{width}")
    }
}

// The letter fields of an order, which stand side by side. A format has at most twelve pieces.
#[derive(Clone, Copy)]
struct Letters {
    side: Letter,
    origin: Letter,
    kind: Letter,
    mark: Letter,
}

impl fmt::Display for Letters {
    ghost output = { λ l. Some (letters_text l.side l.origin l.kind l.mark) };

    fn fmt<W: fmt::Write>(&self, f: &mut fmt::Formatter<W>) -> fmt::Result {
        let Letters {
            side,
            origin,
            kind,
            mark,
        } = *self;
        write!(f, "{side}\t{origin}\t{kind}\t{mark}")
    }
}

impl fmt::Display for OrderFields {
    ghost output = { λ o. Some (order_text o) };

    fn fmt<W: fmt::Write>(&self, f: &mut fmt::Formatter<W>) -> fmt::Result {
        let OrderFields {
            id,
            firm,
            side,
            origin,
            kind,
            mark,
            limit,
            size,
            protection,
        } = *self;
        let letters = Letters {
            side,
            origin,
            kind,
            mark,
        };
        write!(
            f,
            "O\t{id}\t{firm}\t{letters}\t{limit}\t{size}\t{protection}"
        )
    }
}

impl fmt::Display for Call {
    ghost output = { λ c. Some (call_text c) };

    fn fmt<W: fmt::Write>(&self, f: &mut fmt::Formatter<W>) -> fmt::Result {
        match *self {
            Call::Open => write!(f, "G"),
            Call::Away { exchange, quote } => {
                let Quote {
                    bid,
                    bid_size,
                    offer,
                    offer_size,
                } = quote;
                write!(f, "A\t{exchange}\t{bid}\t{bid_size}\t{offer}\t{offer_size}")
            }
            Call::Order(order) => write!(f, "{order}"),
            Call::Cancel { id } => write!(f, "X\t{id}"),
            Call::Reply { slip, filled } => write!(f, "R\t{slip}\t{filled}"),
        }
    }
}
