// Reports, slips and the bytes of a field, each after what is written already.
ghost use Rattle.std.specs.Prelude.{◌≡◌, ℕ, List, ◌++◌, string_bytes, OnOk};
ghost use Rattle.std.specs.List.{flat_map};
ghost use Rattle.words.specs.Answers.{report_words, slip_words};
ghost use Rattle.telling.specs.Fields.{visible};

use std::alloc::AllocError;
use values::reports::{Report, Slip};
use words::answers::{Reported, SentAway};

// What is told one after the other. A report and a slip have an impl each: their sentences are of two types, and what
// they display as is their code.
pub trait Told: Copy {
    ghost words: { Self → List ℕ };

    fn put(self, out: &mut String) -> Result<(), AllocError>
        ensures { OnOk result (string_bytes out.new ≡ string_bytes out.old ++ words self) };
}

impl Told for Report {
    ghost words = { report_words };

    fn put(self, out: &mut String) -> Result<(), AllocError> {
        let reported = Reported(self);
        write!(out, "{reported}")
    }
}

impl Told for Slip {
    ghost words = { slip_words };

    fn put(self, out: &mut String) -> Result<(), AllocError> {
        let sent = SentAway(self);
        write!(out, "{sent}")
    }
}

// A byte that can be printed as it is, any other as its number.
impl Told for u8 {
    ghost words = { visible };

    #[tactic(auto, unfolding(crate::specs::Fields::visible))]
    fn put(self, out: &mut String) -> Result<(), AllocError> {
        if b' ' <= self && self <= b'~' {
            let printed = char::from(self);
            write!(out, "{printed}")
        } else {
            write!(out, "<{self}>")
        }
    }
}

pub fn put_each<T: Told>(out: &mut String, all: &[T]) -> Result<(), AllocError>
    ensures { OnOk result (string_bytes out.new ≡ string_bytes out.old ++ flat_map T.Told.words all.now) }
{
    for one in all {
        one.put(out)?;
    }
    Ok(())
}
