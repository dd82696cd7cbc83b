// A line's fields as the sorts that are asked for.
ghost use Rattle.std.specs.Prelude.{◌≡◌, ℕ, ◌+◌, ◌≤◌, Result, OnOk};
ghost use Rattle.values.specs.declared.faults.LineFault.{LineFault};
ghost use Rattle.lines.specs.Words.{Word};
ghost use Rattle.lines.specs.Handing.{word_in, left_of};
ghost use Rattle.lines.specs.Calls.{number_by, letter_by, first_by, rest_of};

use super::fields::{Field, Fields};
use values::faults::LineFault;

// What a field can be asked for: a number, or a capital.
pub(crate) trait Asked: Sized {
    // The value of a field that says this word, and stands at this place.
    ghost read_by: { Word → ℕ → Result Self LineFault };

    fn from_field(field: Field, place: u32) -> Result<Self, LineFault>
        ensures { result ≡ read_by (word_in field.entry) place };
}

impl Asked for u32 {
    ghost read_by = { number_by };

    fn from_field(field: Field, place: u32) -> Result<u32, LineFault> {
        match field {
            Field::Number(n, _) => Ok(n),
            _ => Err(LineFault::Unreadable { field: place }),
        }
    }
}

impl Asked for char {
    ghost read_by = { letter_by };

    fn from_field(field: Field, place: u32) -> Result<char, LineFault> {
        match field {
            Field::Letter(c, _) => Ok(c),
            _ => Err(LineFault::Unreadable { field: place }),
        }
    }
}

impl Fields<'_> {
    // The next field; a field that is missing is unreadable at its place.
    pub(crate) fn read<T: Asked>(&mut self) -> Result<T, LineFault>
        ensures value { result ≡ first_by T.read_by (left_of self.old.rest) self.old.place }
        ensures left { left_of self.new.rest ≡ rest_of (left_of self.old.rest) }
        ensures place { OnOk result (self.new.place ≡ self.old.place + 1) }
        ensures near { self.new.place ≤ self.old.place + 1 }
    {
        let missing = self.place + 1;
        let (field, place) = self.next().ok_or(LineFault::Unreadable { field: missing })?;
        T::from_field(field, place)
    }
}
