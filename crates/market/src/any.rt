// Any of the three ladders, chosen at run time, so that one series type serves them all.
ghost use Rattle.std.specs.Prelude.{◌≡◌, ℕ, ◌+◌, ◌<◌, ◌≤◌};
ghost use Rattle.market.specs.Any.{rungs_of, by_letter};
ghost use Rattle.std.proofs.Common.{rules};

use super::ladder::{Cents, CentsThenFives, FivesThenTens, Ladder};

#[derive(Clone, Copy, PartialEq, Eq, Debug)]
pub enum AnyLadder {
    Cents,
    CentsThenFives,
    FivesThenTens,
}

impl AnyLadder {
    // P has every cent, M cents and then fives, N fives and then tens; no other letter names a ladder.
    // An Option: to be no ladder's letter is no error here.
    pub fn by_letter(letter: char) -> Option<AnyLadder>
        ensures { result ≡ by_letter letter }
    {
        match letter {
            'P' => Some(AnyLadder::Cents),
            'M' => Some(AnyLadder::CentsThenFives),
            'N' => Some(AnyLadder::FivesThenTens),
            _ => None,
        }
    }
}

// Each method asks the ladder that it is. Four matches, not one that gives the two spacings: as numbers chosen at run time they
// would carry their laws beside them, and each step would divide by a variable.
impl Ladder for AnyLadder {
    ghost rung = { rungs_of };

    ghost top = { Prim.search rules };

    ghost none = { Prim.search rules };

    ghost most = { Prim.search rules };

    fn is_rung(&self, price: u32) -> bool {
        match self {
            AnyLadder::Cents => Cents.is_rung(price),
            AnyLadder::CentsThenFives => CentsThenFives.is_rung(price),
            AnyLadder::FivesThenTens => FivesThenTens.is_rung(price),
        }
    }

    fn lowest(&self) -> u32 {
        match self {
            AnyLadder::Cents => Cents.lowest(),
            AnyLadder::CentsThenFives => CentsThenFives.lowest(),
            AnyLadder::FivesThenTens => FivesThenTens.lowest(),
        }
    }

    fn above(&self, price: u32) -> Option<u32> {
        match self {
            AnyLadder::Cents => Cents.above(price),
            AnyLadder::CentsThenFives => CentsThenFives.above(price),
            AnyLadder::FivesThenTens => FivesThenTens.above(price),
        }
    }

    fn below(&self, price: u32) -> Option<u32> {
        match self {
            AnyLadder::Cents => Cents.below(price),
            AnyLadder::CentsThenFives => CentsThenFives.below(price),
            AnyLadder::FivesThenTens => FivesThenTens.below(price),
        }
    }
}
