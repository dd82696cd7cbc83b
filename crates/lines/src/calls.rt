// The header or the call that a line writes.
ghost use Rattle.std.specs.Prelude.{◌≡◌, ℕ, ◌+◌, Option, length, option_map};
ghost use Rattle.lines.specs.Handing.{left_of, Short};
ghost use Rattle.lines.specs.Calls.{Form, sorts_of, header_sorts, call_of, header_of, read_all, read_line, by_form, form_of, the_header, call_form, header_form, read_header_of, read_call_of};
ghost use Rattle.lines.specs.Laws.{width};

use super::fields::Fields;
use market::board::Quote;
use values::calls::{Call, Header, OrderFields};
use values::faults::LineFault;
use values::terms::Letter;

// The bytes of the longest line that is read.
pub const LINE_LIMIT: usize = 80;

// The kinds of lines that one reader knows, and what it makes of the fields of each.
trait Kind: Copy {
    type Made;

    ghost form: { Self → Form Self.Made };

    ghost forms: { ℕ → Option (Form Self.Made) };

    // None, and no error of its own: to name no kind is a fault of the line, which the reader gives.
    fn named(letter: char) -> Option<Self>
        ensures { forms letter ≡ option_map form result };

    // How many fields a line of the kind has, the kind among them: a count, no code for the kind.
    fn width(self) -> u32
        ensures { result ≡ width (form self) };

    fn read(self, fields: Fields) -> Result<Self::Made, LineFault>
        ensures { result ≡ read_all (form self).sorts (left_of fields.entry.rest) fields.entry.place (form self).make };
}

// The first line of a day is a header.
#[derive(Clone, Copy)]
pub(crate) struct HeaderKind;

impl Kind for HeaderKind {
    type Made = Header;

    ghost form = { λ _. the_header };

    ghost forms = { header_form };

    fn named(letter: char) -> Option<HeaderKind> {
        (letter == 'H').then_some(HeaderKind)
    }

    fn width(self) -> u32 {
        3
    }

    fn read(self, mut fields: Fields) -> Result<Header, LineFault> {
        let ladder = fields.read::<char>()?;
        let width = fields.read()?;
        Ok(Header {
            ladder: Letter::from(ladder),
            width,
        })
    }
}

// What a line after the first asks for.
#[derive(Clone, Copy)]
pub(crate) enum CallKind {
    Open,
    Away,
    Order,
    Cancel,
    Reply,
}

fn away_in(mut fields: Fields) -> Result<Call, LineFault>
    ensures { result ≡ read_all (sorts_of CallKind.Away) (left_of fields.entry.rest) fields.entry.place (call_of CallKind.Away) }
{
    let exchange = fields.read()?;
    let bid = fields.read()?;
    let bid_size = fields.read()?;
    let offer = fields.read()?;
    let offer_size = fields.read()?;
    let quote = Quote {
        bid,
        bid_size,
        offer,
        offer_size,
    };
    Ok(Call::Away { exchange, quote })
}

fn order_in(mut fields: Fields) -> Result<Call, LineFault>
    ensures { result ≡ read_all (sorts_of CallKind.Order) (left_of fields.entry.rest) fields.entry.place (call_of CallKind.Order) }
{
    let id = fields.read()?;
    let firm = fields.read()?;
    let side = fields.read::<char>()?;
    let origin = fields.read::<char>()?;
    let kind = fields.read::<char>()?;
    let mark = fields.read::<char>()?;
    let limit = fields.read()?;
    let size = fields.read()?;
    let protection = fields.read()?;
    Ok(Call::Order(OrderFields {
        id,
        firm,
        side: Letter::from(side),
        origin: Letter::from(origin),
        kind: Letter::from(kind),
        mark: Letter::from(mark),
        limit,
        size,
        protection,
    }))
}

fn cancel_in(mut fields: Fields) -> Result<Call, LineFault>
    ensures { result ≡ read_all (sorts_of CallKind.Cancel) (left_of fields.entry.rest) fields.entry.place (call_of CallKind.Cancel) }
{
    let id = fields.read()?;
    Ok(Call::Cancel { id })
}

fn reply_in(mut fields: Fields) -> Result<Call, LineFault>
    ensures { result ≡ read_all (sorts_of CallKind.Reply) (left_of fields.entry.rest) fields.entry.place (call_of CallKind.Reply) }
{
    let slip = fields.read()?;
    let filled = fields.read()?;
    Ok(Call::Reply { slip, filled })
}

impl Kind for CallKind {
    type Made = Call;

    ghost form = { form_of };

    ghost forms = { call_form };

    fn named(letter: char) -> Option<CallKind> {
        match letter {
            'G' => Some(CallKind::Open),
            'A' => Some(CallKind::Away),
            'O' => Some(CallKind::Order),
            'X' => Some(CallKind::Cancel),
            'R' => Some(CallKind::Reply),
            _ => None,
        }
    }

    fn width(self) -> u32 {
        match self {
            CallKind::Open => 1,
            CallKind::Away => 6,
            CallKind::Order => 10,
            CallKind::Cancel => 2,
            CallKind::Reply => 3,
        }
    }

    fn read(self, fields: Fields) -> Result<Call, LineFault> {
        match self {
            CallKind::Open => Ok(Call::Open),
            CallKind::Away => away_in(fields),
            CallKind::Order => order_in(fields),
            CallKind::Cancel => cancel_in(fields),
            CallKind::Reply => reply_in(fields),
        }
    }
}

// The fields behind a line's kind, read as the kind has them.
fn read_by<K: Kind>(letter: u8, rest: Option<&[u8]>) -> Result<K::Made, LineFault>
    requires { Short rest }
    ensures { result ≡ by_form (K.forms letter) (left_of rest.entry) }
{
    let kind = K::named(char::from(letter)).ok_or(LineFault::NoCall)?;
    let fields = Fields::after_kind(rest);
    let found = fields.width();
    if found != kind.width() {
        return Err(LineFault::FieldCount { found });
    }
    kind.read(fields)
}

fn read_line<K: Kind>(line: &[u8]) -> Result<K::Made, LineFault>
    ensures { result ≡ read_line K.forms line.now }
{
    if line.len() > LINE_LIMIT {
        return Err(LineFault::NoCall);
    }
    match line {
        [kind] => read_by::<K>(*kind, None),
        [kind, b'\t', rest @ ..] => read_by::<K>(*kind, Some(rest)),
        _ => Err(LineFault::NoCall),
    }
}

// The first line of a day. Anything that is no header is no call here.
pub fn read_header(line: &[u8]) -> Result<Header, LineFault>
    ensures { result ≡ read_header_of line.now }
{
    read_line::<HeaderKind>(line)
}

// Every later line. A header is no call here.
pub fn read_call(line: &[u8]) -> Result<Call, LineFault>
    ensures { result ≡ read_call_of line.now }
{
    read_line::<CallKind>(line)
}
