// Why a line, a field, a call or a board's memory is refused.
ghost use Rattle.std.specs.Prelude.{◌≡◌, ℕ};
ghost use Rattle.values.specs.Codes.{code, of_line, of_check, of_series, of_monitor, of_board};

use market::packed::BoardFault;

#[derive(Clone, Copy, PartialEq, Eq, Debug)]
pub enum Layer {
    Line,
    Check,
    Series,
    Monitor,
    Board,
}

// What is wrong with a line as text.
#[derive(Clone, Copy, PartialEq, Eq, Debug)]
pub enum LineFault {
    // Empty, over 80 bytes, of no known kind, a first line that is no header, or a later header.
    NoCall,
    // So many fields were found, and the kind has another number.
    FieldCount { found: u32 },
    // This field is unreadable, or a letter for a number or the reverse.
    Unreadable { field: u32 },
}

// What is wrong with a field of a call, by its number in the line.
#[derive(Clone, Copy, PartialEq, Eq, Debug)]
pub enum CheckFault {
    OutOfRange { field: u32 },
    OffLadder { field: u32 },
    // Immediate and all-or-none orders are not handled.
    KindNotHandled,
}

// Why the series as it stands cannot carry a call out.
#[derive(Clone, Copy, PartialEq, Eq, Debug)]
pub enum SeriesFault {
    NotOpen,
    AlreadyOpen,
    NoRoomForReports,
    NoRoomForSlips,
    IdInUse,
    BookFull,
    AllArrivalsUsed,
    TooFewSlipsFree,
    NotResting,
    SlipNotOut,
    FilledAboveSize,
}

// Why the monitor keeps an order from trading.
#[derive(Clone, Copy, PartialEq, Eq, Debug)]
pub enum MonitorFault {
    WideMarket,
    NoBid,
    BuyTooHigh,
    SellTooLow,
}

// A fault by its cause, which tells the layer that found it.
#[derive(Clone, Copy, PartialEq, Eq, Debug)]
pub enum Fault {
    Line(LineFault),
    Check(CheckFault),
    Series(SeriesFault),
    Monitor(MonitorFault),
    Board(BoardFault),
}

// A fault as it is reported: numbers, as its line writes them; a place of 0 is none.
#[derive(Clone, Copy, PartialEq, Eq, Debug)]
pub struct Code {
    pub number: u32,
    pub layer: Layer,
    pub place: u32,
}

impl Fault {
    // Number, layer and place of every case.
    pub fn code(self) -> Code
        ensures { result ≡ code self }
    {
        match self {
            Fault::Line(fault) => line_code(fault),
            Fault::Check(fault) => check_code(fault),
            Fault::Series(fault) => series_code(fault),
            Fault::Monitor(fault) => monitor_code(fault),
            Fault::Board(BoardFault::Length { .. }) => coded(21, Layer::Board, 0),
        }
    }
}

fn coded(number: u32, layer: Layer, place: u32) -> Code
    ensures { result ≡ record { number = number; layer = layer; place = place } }
{
    Code {
        number,
        layer,
        place,
    }
}

fn line_code(fault: LineFault) -> Code
    ensures { result ≡ code (of_line fault) }
{
    match fault {
        LineFault::NoCall => coded(1, Layer::Line, 1),
        LineFault::FieldCount { found } => coded(2, Layer::Line, found),
        LineFault::Unreadable { field } => coded(3, Layer::Line, field),
    }
}

fn check_code(fault: CheckFault) -> Code
    ensures { result ≡ code (of_check fault) }
{
    match fault {
        CheckFault::OutOfRange { field } => coded(4, Layer::Check, field),
        CheckFault::OffLadder { field } => coded(5, Layer::Check, field),
        CheckFault::KindNotHandled => coded(6, Layer::Check, 6),
    }
}

fn series_code(fault: SeriesFault) -> Code
    ensures { result ≡ code (of_series fault) }
{
    match fault {
        SeriesFault::NotOpen => coded(7, Layer::Series, 0),
        SeriesFault::AlreadyOpen => coded(8, Layer::Series, 0),
        SeriesFault::NoRoomForReports => coded(9, Layer::Series, 1),
        SeriesFault::NoRoomForSlips => coded(9, Layer::Series, 2),
        SeriesFault::IdInUse => coded(10, Layer::Series, 0),
        SeriesFault::BookFull => coded(11, Layer::Series, 0),
        SeriesFault::AllArrivalsUsed => coded(12, Layer::Series, 0),
        SeriesFault::TooFewSlipsFree => coded(13, Layer::Series, 0),
        SeriesFault::NotResting => coded(18, Layer::Series, 0),
        SeriesFault::SlipNotOut => coded(19, Layer::Series, 0),
        SeriesFault::FilledAboveSize => coded(20, Layer::Series, 0),
    }
}

fn monitor_code(fault: MonitorFault) -> Code
    ensures { result ≡ code (of_monitor fault) }
{
    match fault {
        MonitorFault::WideMarket => coded(14, Layer::Monitor, 0),
        MonitorFault::NoBid => coded(15, Layer::Monitor, 0),
        MonitorFault::BuyTooHigh => coded(16, Layer::Monitor, 0),
        MonitorFault::SellTooLow => coded(17, Layer::Monitor, 0),
    }
}

// By hand, these five: a derived `From` promises nothing, and clauses above name the fault that a `?` makes.
impl From<LineFault> for Fault {
    ghost from_gives = { λ f r. r ≡ of_line f };

    fn from(fault: LineFault) -> Fault {
        Fault::Line(fault)
    }
}

impl From<CheckFault> for Fault {
    ghost from_gives = { λ f r. r ≡ of_check f };

    fn from(fault: CheckFault) -> Fault {
        Fault::Check(fault)
    }
}

impl From<SeriesFault> for Fault {
    ghost from_gives = { λ f r. r ≡ of_series f };

    fn from(fault: SeriesFault) -> Fault {
        Fault::Series(fault)
    }
}

impl From<MonitorFault> for Fault {
    ghost from_gives = { λ f r. r ≡ of_monitor f };

    fn from(fault: MonitorFault) -> Fault {
        Fault::Monitor(fault)
    }
}

impl From<BoardFault> for Fault {
    ghost from_gives = { λ f r. r ≡ of_board f };

    fn from(fault: BoardFault) -> Fault {
        Fault::Board(fault)
    }
}
