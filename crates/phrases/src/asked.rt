// What a call asks, a sentence that says nothing of its outcome.
ghost use Rattle.std.specs.Prelude.{◌≡◌, Some};
ghost use Rattle.phrases.specs.Asked.{side_term, origin_term, mark_term, price_term, protection_term, bid_term, offer_term, term_words, terms_words, order_words, quote_words, asked_words};

use market::board::Quote;
use std::fmt;
use values::calls::{Call, OrderFields};
use values::terms::Letter;
use words::money::Dollars;

// One term of an order or of a quote. `NoBid`, `NoOffer` and `Unlisted` are sentences like the others, and no Option.
#[derive(Clone, Copy)]
enum Term {
    Buy,
    Sell,
    Customer,
    NotCustomer,
    Routed,
    NotRouted,
    Limit { price: u32 },
    Market,
    Immediate,
    AllOrNone,
    Protected { rungs: u32 },
    Unprotected,
    Bid { price: u32, size: u32 },
    NoBid,
    Offer { price: u32, size: u32 },
    NoOffer,
    // A letter that the field does not know.
    Unlisted { letter: Letter },
}

// By the capital, and not by `Side::try_from`: no type forbids `Letter::Unlisted('B')`, which is told as the letter B and
// which the conversion does not list. Four matches, not one table: each stands as the format lists its letters.
fn side_term(letter: Letter) -> Term
    ensures { result ≡ side_term letter }
{
    match letter.capital() {
        'B' => Term::Buy,
        'S' => Term::Sell,
        _ => Term::Unlisted { letter },
    }
}

fn origin_term(letter: Letter) -> Term
    ensures { result ≡ origin_term letter }
{
    match letter.capital() {
        'C' => Term::Customer,
        'N' => Term::NotCustomer,
        _ => Term::Unlisted { letter },
    }
}

fn mark_term(letter: Letter) -> Term
    ensures { result ≡ mark_term letter }
{
    match letter.capital() {
        'R' => Term::Routed,
        'D' => Term::NotRouted,
        _ => Term::Unlisted { letter },
    }
}

fn price_term(kind: Letter, price: u32) -> Term
    ensures { result ≡ price_term kind price }
{
    match kind.capital() {
        'L' => Term::Limit { price },
        'M' => Term::Market,
        'I' => Term::Immediate,
        'K' => Term::AllOrNone,
        _ => Term::Unlisted { letter: kind },
    }
}

fn protection_term(rungs: u32) -> Term
    ensures { result ≡ protection_term rungs }
{
    if rungs == 0 {
        Term::Unprotected
    } else {
        Term::Protected { rungs }
    }
}

// Two functions, one for each side: one for both would take the two terms as closures.
fn bid_term(price: u32, size: u32) -> Term
    ensures { result ≡ bid_term price size }
{
    if price == 0 && size == 0 {
        Term::NoBid
    } else {
        Term::Bid { price, size }
    }
}

fn offer_term(price: u32, size: u32) -> Term
    ensures { result ≡ offer_term price size }
{
    if price == 0 && size == 0 {
        Term::NoOffer
    } else {
        Term::Offer { price, size }
    }
}

impl fmt::Display for Term {
    ghost output = { λ t. Some (term_words t) };

    #[tactic(auto, unfolding(crate::specs::Asked::term_words))]
    fn fmt<W: fmt::Write>(&self, f: &mut fmt::Formatter<W>) -> fmt::Result {
        match *self {
            Term::Buy => write!(f, "buy"),
            Term::Sell => write!(f, "sell"),
            Term::Customer => write!(f, "customer"),
            Term::NotCustomer => write!(f, "not a customer"),
            Term::Routed => write!(f, "may be routed"),
            Term::NotRouted => write!(f, "do not route"),
            Term::Limit { price } => {
                let price = Dollars(price);
                write!(f, "limit {price}")
            }
            Term::Market => write!(f, "at the market"),
            Term::Immediate => write!(f, "immediate"),
            Term::AllOrNone => write!(f, "all or none"),
            Term::Protected { rungs } => write!(f, "price protection {rungs}"),
            Term::Unprotected => write!(f, "no price protection"),
            Term::Bid { price, size } => {
                let price = Dollars(price);
                write!(f, "bid {price} for {size}")
            }
            Term::NoBid => write!(f, "no bid"),
            Term::Offer { price, size } => {
                let price = Dollars(price);
                write!(f, "offer {price} for {size}")
            }
            Term::NoOffer => write!(f, "no offer"),
            Term::Unlisted { letter } => write!(f, "unlisted letter {letter}"),
        }
    }
}

// What an order asks besides its side and size.
#[derive(Clone, Copy)]
struct Terms(OrderFields);

impl fmt::Display for Terms {
    ghost output = { λ t. Some (terms_words t.0) };

    #[tactic(auto, unfolding(crate::specs::Asked::terms_words))]
    fn fmt<W: fmt::Write>(&self, f: &mut fmt::Formatter<W>) -> fmt::Result {
        let price = price_term(self.0.kind, self.0.limit);
        let origin = origin_term(self.0.origin);
        let mark = mark_term(self.0.mark);
        let protection = protection_term(self.0.protection);
        write!(f, "{price}, {origin}, {mark}, {protection}")
    }
}

#[derive(Clone, Copy)]
struct Entered(OrderFields);

impl fmt::Display for Entered {
    ghost output = { λ o. Some (order_words o.0) };

    #[tactic(auto, unfolding(crate::specs::Asked::order_words))]
    fn fmt<W: fmt::Write>(&self, f: &mut fmt::Formatter<W>) -> fmt::Result {
        let id = self.0.id;
        let firm = self.0.firm;
        let side = side_term(self.0.side);
        let size = self.0.size;
        let terms = Terms(self.0);
        write!(f, "Order {id} of firm {firm}: {side} {size}, {terms}.")
    }
}

// Both sides of a quote.
#[derive(Clone, Copy)]
struct Quoted(Quote);

impl fmt::Display for Quoted {
    ghost output = { λ q. Some (quote_words q.0) };

    #[tactic(auto, unfolding(crate::specs::Asked::quote_words))]
    fn fmt<W: fmt::Write>(&self, f: &mut fmt::Formatter<W>) -> fmt::Result {
        let bid = bid_term(self.0.bid, self.0.bid_size);
        let offer = offer_term(self.0.offer, self.0.offer_size);
        write!(f, "{bid}, {offer}")
    }
}

// A call as a sentence.
#[derive(Clone, Copy)]
pub struct Asked(pub Call);

impl fmt::Display for Asked {
    ghost output = { λ a. Some (asked_words a.0) };

    #[tactic(auto, unfolding(crate::specs::Asked::asked_words))]
    fn fmt<W: fmt::Write>(&self, f: &mut fmt::Formatter<W>) -> fmt::Result {
        match self.0 {
            Call::Away { exchange, quote } => {
                let quote = Quoted(quote);
                write!(f, "Exchange {exchange} quotes {quote}.")
            }
            Call::Order(order) => {
                let order = Entered(order);
                write!(f, "{order}")
            }
            Call::Cancel { id } => write!(f, "Cancel order {id}."),
            Call::Reply { slip, filled } => write!(f, "Reply to slip {slip}: {filled} filled."),
            Call::Open => write!(f, "Open the series."),
        }
    }
}
