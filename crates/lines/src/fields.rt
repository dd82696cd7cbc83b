// The fields of a line, handed out one at a time with their places.
ghost use Rattle.std.specs.Prelude.{◌≡◌, ◌+◌, ◌≤◌, length, sum_by};
ghost use Rattle.std.specs.Iterator.{at_most};
ghost use Rattle.lines.specs.Words.{word_of, fields, tab_of};
ghost use Rattle.lines.specs.Handing.{word_in, bytes_in, left_of, room, Pulled, Short};

use super::digits::numeral;
use super::parts::split_at_first;

// What a field says, with its bytes. No Result: what is unreadable keeps its bytes too.
#[derive(Clone, Copy)]
pub enum Field<'a> {
    Number(u32, &'a [u8]),
    Letter(char, &'a [u8]),
    Unreadable(&'a [u8]),
}

pub fn read_field(bytes: &[u8]) -> Field<'_>
    ensures says { word_in result ≡ word_of bytes.now }
    ensures part { bytes_in result ≡ bytes.now }
{
    match bytes {
        [capital @ b'A'..=b'Z'] => Field::Letter(char::from(*capital), bytes),
        [digit @ b'0'..=b'9'] => Field::Number(u32::from(*digit - b'0'), bytes),
        [_] => Field::Unreadable(bytes),
        _ => match numeral(bytes) {
            Some(n) => Field::Number(n, bytes),
            None => Field::Unreadable(bytes),
        },
    }
}

fn tab(byte: u8) -> u8
    ensures value { result ≡ tab_of byte }
    ensures bound { result ≤ 1 }
{
    if byte == b'\t' { 1 } else { 0 }
}

// A sum of bytes, of which the compiler adds many at a time.
fn tabs(line: &[u8]) -> u8
    requires { length line.now ≤ 81 }
    ensures { result ≡ sum_by tab_of line.now }
{
    line.iter().map(|b| tab(*b)).sum()
}

// How many fields stand in the bytes, one more than tabs.
fn field_count(line: &[u8]) -> u8
    requires { length line.now ≤ 81 }
    ensures { result ≡ length (fields line.now) }
{
    tabs(line) + 1
}

// What is left of a line, and how many of its fields were handed out. A line that ends in a tab has an empty last field,
// so nothing left is another case than nothing in the field.
#[derive(Drop)]
pub struct Fields<'a> {
    pub(crate) rest: Option<&'a [u8]>,
    pub(crate) place: u32,
    ghost few: { room rest + place ≤ 82 },
}

impl<'a> Fields<'a> {
    // The fields behind a line's kind.
    pub(crate) fn after_kind(rest: Option<&'a [u8]>) -> Self
        requires { Short rest }
        ensures left { left_of result.rest ≡ left_of rest.entry }
        ensures place { result.place ≡ 1 }
    {
        Fields { rest, place: 1 }
    }

    // How many fields the line has, the kind among them.
    pub(crate) fn width(&self) -> u32
        ensures { result ≡ length (left_of self.now.rest) + self.now.place }
    {
        match self.rest {
            Some(bytes) => u32::from(field_count(bytes)) + self.place,
            None => self.place,
        }
    }
}

impl<'a> Iterator for Fields<'a> {
    type Item = (Field<'a>, u32);

    ghost next_gives = { λ s r t. Pulled (left_of s.rest) s.place r (left_of t.rest) t.place };

    ghost remaining = { λ s. at_most (room s.rest) };

    // The next field with its place.
    fn next(&mut self) -> Option<(Field<'a>, u32)> {
        let (field, rest) = split_at_first(b'\t', self.rest?);
        self.place += 1;
        self.rest = rest;
        Some((read_field(field), self.place))
    }
}
