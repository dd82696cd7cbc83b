// Prices for a person to read.
ghost use Rattle.std.specs.Prelude.{Some};
ghost use Rattle.words.specs.Money.{dollars};

use std::fmt;

// So many cents, as dollars and two digits of cents.
#[derive(Clone, Copy)]
pub struct Dollars(pub u32);

impl fmt::Display for Dollars {
    ghost output = { λ d. Some (dollars d.0) };

    #[tactic(auto, unfolding(crate::specs::Money::dollars))]
    fn fmt<W: fmt::Write>(&self, f: &mut fmt::Formatter<W>) -> fmt::Result {
        let whole = self.0 / 100;
        let tens = self.0 / 10 % 10;
        let units = self.0 % 10;
        write!(f, "${whole}.{tens}{units}")
    }
}
