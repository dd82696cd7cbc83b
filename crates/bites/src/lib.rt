//! The law bites: wrong histories, each one change away from a run, and each proved not to be lawful.
//! Promises both halves of every pair. Nothing here carries a call out.
#![tactic(auto)]

ghost use Rattle.bites.specs.Wrong.{ThroughTheOffer, UnderTheBid, PastTheMakersProtection, TwoBuysTrade, OfNothing, Locks, RestsUnbooked, RestMisstated, WrittenPastTheRoom, OnlyTheOldest, InventedSize, SettledTwice, SettledInPart, AwayUnasked, CancelsAnother, QuoteForgotten, BookedPastItsProtection, NumberSkipped};

// A fill above the best away offer.
pub fn a_fill_through_the_offer_is_caught()
    ensures { ThroughTheOffer }
{}

// A fill below the best away bid.
pub fn a_fill_under_the_bid_is_caught()
    ensures { UnderTheBid }
{}

// A fill past the protection limit that its maker got at its own entry.
pub fn a_fill_past_the_makers_protection_is_caught()
    ensures { PastTheMakersProtection }
{}

// A fill of a buy with a buy.
pub fn a_fill_between_two_buys_is_caught()
    ensures { TwoBuysTrade }
{}

// A fill of no contracts.
pub fn a_fill_of_nothing_is_caught()
    ensures { OfNothing }
{}

// An order displayed at the best away offer.
pub fn a_displayed_price_that_locks_is_caught()
    ensures { Locks }
{}

// An order that rests, and whose booking is not reported.
pub fn an_order_that_rests_unbooked_is_caught()
    ensures { RestsUnbooked }
{}

// A booking that states another size than rests.
pub fn a_booking_of_another_size_is_caught()
    ensures { RestMisstated }
{}

// An order carried out where its reports have no room.
pub fn a_report_past_the_room_is_caught()
    ensures { WrittenPastTheRoom }
{}

// A quote that takes only the oldest order through step three.
pub fn a_pair_left_tradable_is_caught()
    ensures { OnlyTheOldest }
{}

// A fill of more contracts than were entered.
pub fn an_invented_size_is_caught()
    ensures { InventedSize }
{}

// A second reply to a slip, taken like the first.
pub fn a_slip_settled_twice_is_caught()
    ensures { SettledTwice }
{}

// A reply that accounts for a part of its slip only.
pub fn a_slip_settled_in_part_is_caught()
    ensures { SettledInPart }
{}

// An order told filled away, with no slip out.
pub fn a_fill_away_without_a_slip_is_caught()
    ensures { AwayUnasked }
{}

// A reply that cancels a part of an order that is on no slip.
pub fn a_reply_that_cancels_another_order_is_caught()
    ensures { CancelsAnother }
{}

// A quote that is told, and then not looked at.
pub fn a_quote_forgotten_is_caught()
    ensures { QuoteForgotten }
{}

// A booking past the protection limit that the order got at its own entry.
pub fn a_booking_past_its_protection_is_caught()
    ensures { BookedPastItsProtection }
{}

// An arrival number left out.
pub fn a_number_skipped_is_caught()
    ensures { NumberSkipped }
{}
