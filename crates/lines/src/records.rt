// The lines of an input.
ghost use Rattle.std.specs.Prelude.{length};
ghost use Rattle.std.specs.Iterator.{YieldsFirstRef, at_most};
ghost use Rattle.lines.specs.Inputs.{lines_of};

use super::parts::split_at_first;

// A longer input is refused whole.
pub const INPUT_LIMIT: usize = 65_536;

// What is left of an input. Each line is ended by byte 10, which the last may lack; empty input is no line.
#[derive(Drop)]
pub struct Records<'a> {
    pub rest: &'a [u8],
}

impl<'a> Iterator for Records<'a> {
    type Item = &'a [u8];

    ghost next_gives = { YieldsFirstRef (λ s. lines_of s.rest.now) };

    ghost remaining = { λ s. at_most (length s.rest.now) };

    fn next(&mut self) -> Option<&'a [u8]> {
        if self.rest.is_empty() {
            return None;
        }
        let (line, after) = split_at_first(b'\n', self.rest);
        self.rest = after.unwrap_or_default();
        Some(line)
    }
}
