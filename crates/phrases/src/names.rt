// The names of a line's fields.
ghost use Rattle.std.specs.Prelude.{◌≡◌, ℕ, Some};
ghost use Rattle.phrases.specs.Names.{field_named, name_words};

use std::fmt;

#[derive(Clone, Copy)]
pub enum FieldName {
    Kind,
    Ladder,
    WidthMark,
    Exchange,
    BidPrice,
    BidSize,
    OfferPrice,
    OfferSize,
    Id,
    Firm,
    Side,
    Origin,
    OrderKind,
    Mark,
    Limit,
    Size,
    Protection,
    Slip,
    Filled,
}

impl fmt::Display for FieldName {
    ghost output = { λ n. Some (name_words n) };

    #[tactic(auto, unfolding(crate::specs::Names::name_words))]
    fn fmt<W: fmt::Write>(&self, f: &mut fmt::Formatter<W>) -> fmt::Result {
        match *self {
            FieldName::Kind => write!(f, "kind of line"),
            FieldName::Ladder => write!(f, "ladder"),
            FieldName::WidthMark => write!(f, "width mark"),
            FieldName::Exchange => write!(f, "exchange"),
            FieldName::BidPrice => write!(f, "bid price"),
            FieldName::BidSize => write!(f, "bid size"),
            FieldName::OfferPrice => write!(f, "offer price"),
            FieldName::OfferSize => write!(f, "offer size"),
            FieldName::Id => write!(f, "id"),
            FieldName::Firm => write!(f, "firm"),
            FieldName::Side => write!(f, "side"),
            FieldName::Origin => write!(f, "origin"),
            FieldName::OrderKind => write!(f, "kind"),
            FieldName::Mark => write!(f, "mark"),
            FieldName::Limit => write!(f, "limit"),
            FieldName::Size => write!(f, "size"),
            FieldName::Protection => write!(f, "protection"),
            FieldName::Slip => write!(f, "slip"),
            FieldName::Filled => write!(f, "filled"),
        }
    }
}

// The name of the field at this place, counted from 1, of a line of this kind. The kind is a byte and no enum: it is
// the first of a line that may be of no kind.
pub fn field_named(kind: u8, place: u32) -> FieldName
    ensures { result ≡ field_named kind place }
{
    match (kind, place) {
        (_, 1) => FieldName::Kind,
        (b'H', 2) => FieldName::Ladder,
        (b'H', _) => FieldName::WidthMark,
        (b'A', 2) => FieldName::Exchange,
        (b'A', 3) => FieldName::BidPrice,
        (b'A', 4) => FieldName::BidSize,
        (b'A', 5) => FieldName::OfferPrice,
        (b'A', _) => FieldName::OfferSize,
        (b'O', 2) => FieldName::Id,
        (b'O', 3) => FieldName::Firm,
        (b'O', 4) => FieldName::Side,
        (b'O', 5) => FieldName::Origin,
        (b'O', 6) => FieldName::OrderKind,
        (b'O', 7) => FieldName::Mark,
        (b'O', 8) => FieldName::Limit,
        (b'O', 9) => FieldName::Size,
        (b'O', _) => FieldName::Protection,
        (b'R', 2) => FieldName::Slip,
        (b'R', _) => FieldName::Filled,
        _ => FieldName::Id,
    }
}
