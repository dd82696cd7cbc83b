ghost use Rattle.std.specs.Prelude.{◌≤◌, length};

// The records are the first `len` of the slots. A length beside them, and no Vec: the memory is the lender's, and a call takes
// nothing from the heap.
#[derive(Drop)]
pub struct AppendList<'a, T> {
    slots: &'a mut [T],
    len: usize,
    ghost within: { len ≤ length slots.now },
}

pub mod methods;
