// Reports and slips, a sentence each.
ghost use Rattle.std.specs.Prelude.{◌≡◌, Some};
ghost use Rattle.words.specs.Answers.{cause_words, standing_of, standing_words, report_words, slip_words};

use super::money::Dollars;
use std::fmt;
use values::reports::{Cause, Report, Slip};

#[derive(Clone, Copy)]
struct Because(Cause);

impl fmt::Display for Because {
    ghost output = { λ b. Some (cause_words b.0) };

    #[tactic(auto, unfolding(crate::specs::Answers::cause_words))]
    fn fmt<W: fmt::Write>(&self, f: &mut fmt::Formatter<W>) -> fmt::Result {
        match self.0 {
            Cause::Asked => write!(f, "the desk asked for it"),
            Cause::Protection => write!(f, "no price to rest at within its protection limit"),
            Cause::NoPrice => write!(
                f,
                "a market order without a protection limit, and no price to rest at"
            ),
            Cause::Unfilled => write!(f, "left unfilled by the away exchange"),
        }
    }
}

// Where an order rests, by its two prices.
#[derive(Clone, Copy)]
enum Standing {
    AtOne { price: u32 },
    // An away offer stands where a buy is booked, and the buy is displayed below it.
    UnderOffer { booked: u32, displayed: u32 },
    // An away bid stands where a sell is booked, and the sell is displayed above it.
    OverBid { booked: u32, displayed: u32 },
    // The away market stands where the order is booked, and there is no price behind it.
    Unseen { booked: u32 },
}

fn stands(booked: u32, displayed: u32) -> Standing
    ensures { result ≡ standing_of booked displayed }
{
    if displayed == booked {
        Standing::AtOne { price: booked }
    } else if displayed == 0 {
        Standing::Unseen { booked }
    } else if displayed < booked {
        Standing::UnderOffer { booked, displayed }
    } else {
        Standing::OverBid { booked, displayed }
    }
}

impl fmt::Display for Standing {
    ghost output = { λ s. Some (standing_words s) };

    #[tactic(auto, unfolding(crate::specs::Answers::standing_words))]
    fn fmt<W: fmt::Write>(&self, f: &mut fmt::Formatter<W>) -> fmt::Result {
        match *self {
            Standing::UnderOffer { booked, displayed } => {
                let booked = Dollars(booked);
                let displayed = Dollars(displayed);
                write!(
                    f,
                    "booked at {booked}, displayed at {displayed}. Two prices, both right: an away offer stands at {booked}, and a bid displayed there would lock it, so other markets see {displayed}; the order would trade at {booked}."
                )
            }
            Standing::OverBid { booked, displayed } => {
                let booked = Dollars(booked);
                let displayed = Dollars(displayed);
                write!(
                    f,
                    "booked at {booked}, displayed at {displayed}. Two prices, both right: an away bid stands at {booked}, and an offer displayed there would lock it, so other markets see {displayed}; the order would trade at {booked}."
                )
            }
            Standing::Unseen { booked } => {
                let booked = Dollars(booked);
                write!(
                    f,
                    "booked at {booked}, not displayed. The away market stands at {booked}, and no price behind it is left to display."
                )
            }
            Standing::AtOne { price } => {
                let price = Dollars(price);
                write!(f, "booked and displayed at {price}.")
            }
        }
    }
}

// A report as a sentence.
#[derive(Clone, Copy)]
pub struct Reported(pub Report);

impl fmt::Display for Reported {
    ghost output = { λ r. Some (report_words r.0) };

    #[tactic(auto, unfolding(crate::specs::Answers::report_words))]
    fn fmt<W: fmt::Write>(&self, f: &mut fmt::Formatter<W>) -> fmt::Result {
        match self.0 {
            Report::New { arrival, id } => write!(f, " Order {id} is accepted as No. {arrival}."),
            Report::Fill {
                taker,
                maker,
                price,
                size,
            } => {
                let at = Dollars(price);
                write!(
                    f,
                    " No. {taker} trades {size} here with No. {maker} at {at}."
                )
            }
            Report::Booked {
                arrival,
                booked,
                displayed,
                remaining,
            } => {
                let standing = stands(booked, displayed);
                write!(f, " No. {arrival} rests: {remaining} {standing}")
            }
            Report::Cancelled {
                arrival,
                size,
                cause,
            } => {
                let because = Because(cause);
                write!(f, " {size} of No. {arrival} cancelled: {because}.")
            }
            Report::FilledAway {
                arrival,
                slip,
                size,
            } => write!(f, " {size} of No. {arrival} filled away by slip {slip}."),
        }
    }
}

// A slip as a sentence.
#[derive(Clone, Copy)]
pub struct SentAway(pub Slip);

impl fmt::Display for SentAway {
    ghost output = { λ s. Some (slip_words s.0) };

    #[tactic(auto, unfolding(crate::specs::Answers::slip_words))]
    fn fmt<W: fmt::Write>(&self, f: &mut fmt::Formatter<W>) -> fmt::Result {
        let Slip {
            number,
            arrival,
            exchange,
            price,
            size,
        } = self.0;
        let price = Dollars(price);
        write!(
            f,
            " {size} of No. {arrival} sent to exchange {exchange} at {price}, slip {number}."
        )
    }
}
