// Ladders of prices in cents: the interface, and three sets of rungs.
ghost use Rattle.std.specs.Prelude.{◌≡◌, ℕ, ◌+◌, ◌-◌, ◌*◌, ◌%◌, ◌<◌, ◌≤◌, Bool, true, false};
ghost use Rattle.market.specs.Rungs.{Lowest, Above, Beneath, cents, cents_then_fives, fives_then_tens, step_up, climbed, last_below, descended};
ghost use Rattle.market.specs.Spacings.{IsSpaced, top_rung, no_rung, most_rungs, cents_spaced, cents_then_fives_spaced, fives_then_tens_spaced};

// The highest price there is, a rung of every ladder.
pub const TOP: u32 = 100_000;

pub trait Ladder {
    // Which prices are rungs.
    ghost rung: { Self → ℕ → Bool };

    fn is_rung(&self, price: u32) -> bool
        ensures { result ≡ rung self.now price };

    fn lowest(&self) -> u32
        ensures { Lowest (rung self.now) result };

    // The least rung that is greater, for any price.
    fn above(&self, price: u32) -> Option<u32>
        ensures { Above (rung self.now) price result };

    // The greatest rung that is smaller, for any price.
    fn below(&self, price: u32) -> Option<u32>
        ensures { Beneath (rung self.now) price result };

    ghost top: { (s : Self) → rung s 100000 ≡ true };

    ghost none: { (s : Self) → rung s 0 ≡ false };

    ghost most: { (s : Self) (p : ℕ) → rung s p ≡ true → p ≤ 100000 };
}

// A ladder whose rungs are the multiples of one spacing below 300 and of another from 300 on.
pub trait Spaced {
    // The spacing below 300.
    const NEAR: u32;

    // The spacing from 300 on.
    const FAR: u32;

    ghost NEAR: { ℕ };

    ghost FAR: { ℕ };

    ghost rungs: { ℕ → Bool };

    ghost spaced: { IsSpaced rungs NEAR FAR };
}

impl<S: Spaced> Ladder for S {
    ghost rung = { λ _. S.rungs };

    ghost top = { λ _. top_rung S.rungs S.NEAR S.FAR S.spaced };

    ghost none = { λ _. no_rung S.rungs S.NEAR S.FAR S.spaced };

    ghost most = { λ _. most_rungs S.rungs S.NEAR S.FAR S.spaced };

    fn is_rung(&self, price: u32) -> bool {
        0 < price
            && price <= TOP
            && (if price < 300 {
                price % S::NEAR == 0
            } else {
                price % S::FAR == 0
            })
    }

    fn lowest(&self) -> u32 {
        S::NEAR
    }

    fn above(&self, price: u32) -> Option<u32> {
        if price >= TOP {
            None
        } else if price < 300 {
            Some(price - price % S::NEAR + S::NEAR)
        } else {
            Some(price - price % S::FAR + S::FAR)
        }
    }

    fn below(&self, price: u32) -> Option<u32> {
        if price > TOP {
            Some(TOP)
        } else if price > 300 {
            Some(price - 1 - (price - 1) % S::FAR)
        } else if price > S::NEAR {
            Some(price - 1 - (price - 1) % S::NEAR)
        } else {
            None
        }
    }
}

// Every cent.
#[derive(Clone, Copy)]
pub struct Cents;

impl Spaced for Cents {
    const NEAR: u32 = 1;

    const FAR: u32 = 1;

    ghost NEAR = { 1 };

    ghost FAR = { 1 };

    ghost rungs = { cents };

    ghost spaced = { cents_spaced };
}

// Every cent below 300, multiples of 5 from 300.
#[derive(Clone, Copy)]
pub struct CentsThenFives;

impl Spaced for CentsThenFives {
    const NEAR: u32 = 1;

    const FAR: u32 = 5;

    ghost NEAR = { 1 };

    ghost FAR = { 5 };

    ghost rungs = { cents_then_fives };

    ghost spaced = { cents_then_fives_spaced };
}

// Multiples of 5 below 300, multiples of 10 from 300.
#[derive(Clone, Copy)]
pub struct FivesThenTens;

impl Spaced for FivesThenTens {
    const NEAR: u32 = 5;

    const FAR: u32 = 10;

    ghost NEAR = { 5 };

    ghost FAR = { 10 };

    ghost rungs = { fives_then_tens };

    ghost spaced = { fives_then_tens_spaced };
}

// `n` rungs up, staying at the top once there. Two folds, up and down: one for both would take the step as a closure, and its
// promise as a relation.
pub fn up<L: Ladder>(ladder: &L, from: u32, n: u32) -> u32
    ensures { result ≡ climbed (L.Ladder.rung ladder.now) n from }
{
    (0..n).fold(from, |at, _| next_up(ladder, at))
}

// `n` rungs down, staying at the lowest rung once there.
pub fn down<L: Ladder>(ladder: &L, from: u32, n: u32) -> u32
    ensures { result ≡ descended (L.Ladder.rung ladder.now) n from }
{
    // Asked once: a ladder may have to look for its lowest rung.
    let lowest = ladder.lowest();
    (0..n).fold(from, |at, _| next_down(ladder, lowest, at))
}

fn next_up<L: Ladder>(ladder: &L, at: u32) -> u32
    ensures { result ≡ step_up (L.Ladder.rung ladder.now) at }
{
    ladder.above(at).unwrap_or(TOP)
}

fn next_down<L: Ladder>(ladder: &L, lowest: u32, at: u32) -> u32
    requires { Lowest (L.Ladder.rung ladder.now) lowest }
    ensures { result ≡ last_below (L.Ladder.rung ladder.now) at }
{
    ladder.below(at).unwrap_or(lowest)
}
