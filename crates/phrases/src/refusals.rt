// Why a line was refused, by the cause of its fault.
ghost use Rattle.std.specs.Prelude.{Some};
ghost use Rattle.phrases.specs.Refusals.{line_words, check_words, series_words, monitor_words, fault_words};

use std::fmt;
use values::faults::{CheckFault, Fault, LineFault, MonitorFault, SeriesFault};

// Each type of fault has a wrapper here: what the faults themselves display as is their code.
#[derive(Clone, Copy)]
struct OfLine(LineFault);

impl fmt::Display for OfLine {
    ghost output = { λ w. Some (line_words w.0) };

    #[tactic(auto, unfolding(crate::specs::Refusals::line_words))]
    fn fmt<W: fmt::Write>(&self, f: &mut fmt::Formatter<W>) -> fmt::Result {
        match self.0 {
            LineFault::NoCall => write!(
                f,
                "the line is empty, is over 80 bytes, is of no known kind, or is a header out of place"
            ),
            LineFault::FieldCount { found } => {
                write!(f, "a line of this kind does not have {found} fields")
            }
            LineFault::Unreadable { .. } => write!(
                f,
                "it is not the plain number or the one capital that belongs there"
            ),
        }
    }
}

#[derive(Clone, Copy)]
struct OfCheck(CheckFault);

impl fmt::Display for OfCheck {
    ghost output = { λ w. Some (check_words w.0) };

    #[tactic(auto, unfolding(crate::specs::Refusals::check_words))]
    fn fmt<W: fmt::Write>(&self, f: &mut fmt::Formatter<W>) -> fmt::Result {
        match self.0 {
            CheckFault::OutOfRange { .. } => {
                write!(f, "it is none of the values that this field takes here")
            }
            CheckFault::OffLadder { .. } => write!(f, "it is no price of the day's ladder"),
            CheckFault::KindNotHandled => write!(f, "orders of this kind are not handled"),
        }
    }
}

#[derive(Clone, Copy)]
struct OfSeries(SeriesFault);

impl fmt::Display for OfSeries {
    ghost output = { λ w. Some (series_words w.0) };

    #[tactic(auto, unfolding(crate::specs::Refusals::series_words))]
    fn fmt<W: fmt::Write>(&self, f: &mut fmt::Formatter<W>) -> fmt::Result {
        match self.0 {
            SeriesFault::NotOpen => write!(f, "the series is not open yet"),
            SeriesFault::AlreadyOpen => write!(f, "the series is open already"),
            SeriesFault::NoRoomForReports => {
                write!(f, "fewer than 128 places for reports are free")
            }
            SeriesFault::NoRoomForSlips => write!(f, "fewer than 15 places for slips are free"),
            SeriesFault::IdInUse => write!(f, "an order with this id rests or is out on a slip"),
            SeriesFault::BookFull => write!(f, "64 orders rest, and there is no place for another"),
            SeriesFault::AllArrivalsUsed => write!(f, "1,000,000 orders have been accepted"),
            SeriesFault::TooFewSlipsFree => write!(
                f,
                "it may be routed, and fewer than 15 of the 64 slips are free"
            ),
            SeriesFault::NotResting => write!(f, "no order with this id rests"),
            SeriesFault::SlipNotOut => write!(f, "this slip is not out"),
            SeriesFault::FilledAboveSize => write!(f, "this is more than the size of the slip"),
        }
    }
}

#[derive(Clone, Copy)]
struct OfMonitor(MonitorFault);

impl fmt::Display for OfMonitor {
    ghost output = { λ w. Some (monitor_words w.0) };

    #[tactic(auto, unfolding(crate::specs::Refusals::monitor_words))]
    fn fmt<W: fmt::Write>(&self, f: &mut fmt::Formatter<W>) -> fmt::Result {
        match self.0 {
            MonitorFault::WideMarket => write!(
                f,
                "the best offer is $5.00 or more above the best bid, too wide for a market order"
            ),
            MonitorFault::NoBid => {
                write!(f, "there is no bid, and the best offer is above $0.10")
            }
            MonitorFault::BuyTooHigh => { write!(f, "the limit is too far above the best offer") }
            MonitorFault::SellTooLow => write!(f, "the limit is too far below the best bid"),
        }
    }
}

// What a fault means.
#[derive(Clone, Copy)]
pub struct Meaning(pub Fault);

impl fmt::Display for Meaning {
    ghost output = { λ w. Some (fault_words w.0) };

    #[tactic(auto, unfolding(crate::specs::Refusals::fault_words))]
    fn fmt<W: fmt::Write>(&self, f: &mut fmt::Formatter<W>) -> fmt::Result {
        match self.0 {
            Fault::Line(fault) => {
                let words = OfLine(fault);
                write!(f, "{words}")
            }
            Fault::Check(fault) => {
                let words = OfCheck(fault);
                write!(f, "{words}")
            }
            Fault::Series(fault) => {
                let words = OfSeries(fault);
                write!(f, "{words}")
            }
            Fault::Monitor(fault) => {
                let words = OfMonitor(fault);
                write!(f, "{words}")
            }
            Fault::Board(_) => write!(f, "the memory lent to the board is not 240 bytes long"),
        }
    }
}
