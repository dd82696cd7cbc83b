ghost use Rattle.std.specs.Prelude.{◌≡◌, ◌≤◌, length};
ghost use Rattle.table.specs.Places.{NoneOutFrom};

use rules::Sent;

// The slips that are out, each with the id of its order. None is out in a place from `extent` on.
// A table of its own beside `Orders`: a generic struct cannot hold an array of its type parameter.
#[derive(Drop)]
pub struct SlipsOut {
    places: [Sent; 64],
    extent: usize,
    ghost full: { length places ≡ 64 },
    ghost inside: { extent ≤ 64 },
    ghost beyond: { NoneOutFrom extent places },
}

mod desk;
