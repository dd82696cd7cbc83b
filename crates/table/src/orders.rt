ghost use Rattle.std.specs.Prelude.{◌≡◌, ◌≤◌, length};
ghost use Rattle.table.specs.Places.{Clean, FreeFrom};

use rules::Order;

// The resting orders. A place that holds none holds nothing of an earlier one; every place from `extent` on holds none,
// so that a search can stop there. An array with its extent, and no Vec: a call takes nothing from the heap.
// A place is a plain number below 64: each search is compared with a definition over numbers (`pick`, `spot`, `hit`), so that
// a type of its own would be unwrapped in every contract.
#[derive(Drop)]
pub struct Orders {
    places: [Order; 64],
    extent: usize,
    ghost full: { length places ≡ 64 },
    ghost clean: { Clean places },
    ghost inside: { extent ≤ 64 },
    ghost beyond: { FreeFrom extent places },
}

mod edits;
pub mod place;
mod scans;
mod search;
