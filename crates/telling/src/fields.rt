// The field that a fault speaks of, as it stood in the line.
ghost use Rattle.std.specs.Prelude.{◌≡◌, [], take, slice_index_or};
ghost use Rattle.lines.specs.Words.{fields};
ghost use Rattle.telling.specs.Fields.{field_of};

use lines::parts::split_at_first;
use values::faults::{CheckFault, Fault, LineFault};

// The field after so many tabs; nothing where there are fewer. By recursion, as the fields of a line are defined.
pub fn field_after(line: &[u8], tabs: u32) -> &[u8]
    ensures { result.now ≡ slice_index_or (fields line.now) tabs [] }
{
    let (field, rest) = split_at_first(b'\t', line);
    if tabs == 0 {
        return field;
    }
    match rest {
        Some(rest) => field_after(rest, tabs - 1),
        None => &[],
    }
}

// The place of the field that a fault speaks of. A match and no conversion: it is no type of its own but one question.
pub fn field_of(fault: Fault) -> Option<u32>
    ensures { result ≡ field_of fault }
{
    match fault {
        Fault::Line(LineFault::Unreadable { field }) => Some(field),
        Fault::Line(_) => Some(1),
        Fault::Check(CheckFault::OutOfRange { field }) => Some(field),
        Fault::Check(CheckFault::OffLadder { field }) => Some(field),
        Fault::Check(CheckFault::KindNotHandled) => Some(6),
        _ => None,
    }
}

// The first eighty bytes, which is as long as a line may be.
pub fn shown(bytes: &[u8]) -> &[u8]
    ensures { result.now ≡ take 80 bytes.now }
{
    if bytes.len() <= 80 {
        return bytes;
    }
    &bytes[0..80]
}
