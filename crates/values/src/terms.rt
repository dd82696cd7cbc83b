// The closed lists of an order's terms, and the letters that a call can carry.
ghost use Rattle.std.specs.Prelude.{◌≡◌};
ghost use Rattle.std.specs.Option.{ok_or};
ghost use Rattle.values.specs.Terms.{letter_of, ladder_by, side_by, origin_by, kind_by, mark_by};

use market::any::AnyLadder;

#[derive(Clone, Copy, PartialEq, Eq, Debug)]
pub enum Side {
    Buy,
    Sell,
}

// Limit and market orders are handled; the other two are known, and refused by the field check.
#[derive(Clone, Copy, PartialEq, Eq, Debug)]
pub enum Kind {
    Limit,
    Market,
    Immediate,
    AllOrNone,
}

// A public customer's order, or anyone else's.
#[derive(Clone, Copy, PartialEq, Eq, Debug)]
pub enum Origin {
    Customer,
    Other,
}

#[derive(Clone, Copy, PartialEq, Eq, Debug)]
pub enum Mark {
    Route,
    DoNotRoute,
}

// A letter field: a letter that some field knows, or another capital, kept as it came.
#[derive(Clone, Copy, PartialEq, Eq, Debug)]
pub enum Letter {
    P,
    M,
    N,
    B,
    S,
    C,
    L,
    I,
    K,
    R,
    D,
    Unlisted(char),
}

impl From<char> for Letter {
    ghost from_gives = { λ c l. l ≡ letter_of c };

    fn from(capital: char) -> Letter {
        match capital {
            'P' => Letter::P,
            'M' => Letter::M,
            'N' => Letter::N,
            'B' => Letter::B,
            'S' => Letter::S,
            'C' => Letter::C,
            'L' => Letter::L,
            'I' => Letter::I,
            'K' => Letter::K,
            'R' => Letter::R,
            'D' => Letter::D,
            _ => Letter::Unlisted(capital),
        }
    }
}

// The letter is none of those of the field.
#[derive(Clone, Copy, PartialEq, Eq, Debug)]
pub struct NotListed;

// By the letters, and not by `by_letter` of the capital, which would take `Unlisted('P')` for a ladder.
impl TryFrom<Letter> for AnyLadder {
    type Error = NotListed;

    ghost try_from_gives = { λ l r. r ≡ ok_or (ladder_by l) (record {}) };

    fn try_from(letter: Letter) -> Result<AnyLadder, NotListed> {
        match letter {
            Letter::P => Ok(AnyLadder::Cents),
            Letter::M => Ok(AnyLadder::CentsThenFives),
            Letter::N => Ok(AnyLadder::FivesThenTens),
            _ => Err(NotListed),
        }
    }
}

impl TryFrom<Letter> for Side {
    type Error = NotListed;

    ghost try_from_gives = { λ l r. r ≡ ok_or (side_by l) (record {}) };

    fn try_from(letter: Letter) -> Result<Side, NotListed> {
        match letter {
            Letter::B => Ok(Side::Buy),
            Letter::S => Ok(Side::Sell),
            _ => Err(NotListed),
        }
    }
}

impl TryFrom<Letter> for Origin {
    type Error = NotListed;

    ghost try_from_gives = { λ l r. r ≡ ok_or (origin_by l) (record {}) };

    fn try_from(letter: Letter) -> Result<Origin, NotListed> {
        match letter {
            Letter::C => Ok(Origin::Customer),
            Letter::N => Ok(Origin::Other),
            _ => Err(NotListed),
        }
    }
}

impl TryFrom<Letter> for Kind {
    type Error = NotListed;

    ghost try_from_gives = { λ l r. r ≡ ok_or (kind_by l) (record {}) };

    fn try_from(letter: Letter) -> Result<Kind, NotListed> {
        match letter {
            Letter::L => Ok(Kind::Limit),
            Letter::M => Ok(Kind::Market),
            Letter::I => Ok(Kind::Immediate),
            Letter::K => Ok(Kind::AllOrNone),
            _ => Err(NotListed),
        }
    }
}

impl TryFrom<Letter> for Mark {
    type Error = NotListed;

    ghost try_from_gives = { λ l r. r ≡ ok_or (mark_by l) (record {}) };

    fn try_from(letter: Letter) -> Result<Mark, NotListed> {
        match letter {
            Letter::R => Ok(Mark::Route),
            Letter::D => Ok(Mark::DoNotRoute),
            _ => Err(NotListed),
        }
    }
}
