// What a letter says in its field; a letter that is not listed there is row 4.
ghost use Rattle.std.specs.Prelude.{◌≡◌, Result};
ghost use Rattle.values.specs.declared.terms.NotListed.{NotListed};
ghost use Rattle.checks.specs.Fields.{or_range};

use values::faults::CheckFault;
use values::terms::{Letter, NotListed};

pub(crate) fn listed<T: TryFrom<Letter, Error = NotListed>>(
    field: u32,
    letter: Letter,
) -> Result<T, CheckFault>
    ensures { (r : Result T NotListed) × T.try_from_gives letter r × (result ≡ or_range field r) }
{
    T::try_from(letter).map_err(|_| CheckFault::OutOfRange { field })
}
