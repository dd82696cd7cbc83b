//! What trading does to a whole book, proved over the rulebook: one order's turn, and the turns that an away quote gives.
//! A book that is in order stays so, no buy meets a sell, every contract is accounted for, and prices are the reported ones.
//! Knows one book and the reports and slips of one call; histories, faults and the slips out are left to the law above.
#![tactic(auto)]

ghost use Rattle.trading_laws.specs.Turns.{BookLaws};

// A turn and a quote keep a book in order and account for every contract.
pub fn book_laws_stand()
    ensures { BookLaws }
{}
