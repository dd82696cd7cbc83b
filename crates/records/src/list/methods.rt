ghost use Rattle.std.specs.Prelude.{◌≡◌, ℕ, ◌+◌, ◌-◌, ◌<◌, ◌≤◌, [], ◌∷◌, ◌++◌, length};
ghost use Rattle.records.specs.Contents.{contents, used, capacity, Grown, Offered};

use super::AppendList;

// Every slot holds a record.
#[derive(Clone, Copy, PartialEq, Eq, Debug)]
pub struct Full;

impl<'a, T: Copy> AppendList<'a, T> {
    // An empty list over memory that stays the lender's.
    pub fn new(slots: &'a mut [T]) -> AppendList<'a, T>
        ensures place { result.slots.ghost_name ≡ slots.entry.ghost_name }
        ensures slots { result.slots.now ≡ slots.old }
        ensures empty { contents result ≡ [] }
        ensures used { used result ≡ 0 }
        ensures room { capacity result ≡ length slots.old }
    {
        AppendList { slots, len: 0 }
    }

    // How many records stand in it.
    pub fn used(&self) -> usize
        ensures { result ≡ used self.now }
    {
        self.len
    }

    // How many more it can take.
    pub fn room(&self) -> usize
        ensures { result + used self.now ≡ capacity self.now }
    {
        self.slots.len() - self.len
    }

    // Callers that have asked for the room once need no answer at each record. The room is no invariant: each record changes it.
    pub fn push(&mut self, x: T)
        requires { used self.old < capacity self.old }
        ensures { Grown self.old (x ∷ []) self.new }
    {
        self.slots[self.len] = x;
        self.len += 1;
    }

    // Adds the record, or refuses it where the list is full and leaves the list as it was.
    pub fn offer(&mut self, x: T) -> Result<(), Full>
        ensures { Offered result self.old x self.new }
    {
        if self.room() == 0 {
            return Err(Full);
        }
        self.push(x);
        Ok(())
    }

    pub fn as_slice(&self) -> &[T]
        ensures { result.now ≡ contents self.now }
    {
        &self.slots[..self.len]
    }
}
