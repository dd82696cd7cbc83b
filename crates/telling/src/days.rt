// A day told in words.
ghost use Rattle.std.specs.Prelude.{◌≡◌, ℕ, List, ◌++◌, string_bytes, OnOk};
ghost use Rattle.telling.specs.Tellings.{in_words, Tells};

use super::paragraphs::{put_done, put_refused, put_settled};
use checks::checked::Settings;
use day::{Voice, say_day};
use phrases::asked::Asked;
use std::alloc::AllocError;
use values::calls::Call;
use values::faults::{Fault, LineFault};
use values::reports::{Report, Slip};

struct InWords;

impl Voice<String> for InWords {
    ghost words = { in_words };

    fn settled(out: &mut String, settings: Settings) -> Result<(), AllocError> {
        put_settled(out, settings)
    }

    #[tactic(auto, unfolding(crate::specs::Paragraphs::unsettled))]
    fn unsettled(out: &mut String, line: &[u8], fault: Fault) -> Result<(), AllocError> {
        put_refused(out, "The day cannot begin.", line, fault)
    }

    fn too_long(out: &mut String) -> Result<(), AllocError> {
        writeln!(
            out,
            "Refused, fault 1: the input is over 65,536 bytes, and none of it is read."
        )
    }

    fn unread(out: &mut String, line: &[u8], fault: LineFault) -> Result<(), AllocError> {
        put_refused(out, "This line cannot be read.", line, Fault::Line(fault))
    }

    fn done(
        out: &mut String,
        _line: &[u8],
        call: Call,
        reports: &[Report],
        slips: &[Slip],
    ) -> Result<(), AllocError> {
        put_done(out, call, reports, slips)
    }

    fn refused(out: &mut String, line: &[u8], call: Call, fault: Fault) -> Result<(), AllocError> {
        put_refused(out, Asked(call), line, fault)
    }
}

// Everything that is told of an input: a line of text for each of its lines, or that it is too long.
pub fn put_telling(out: &mut String, input: &[u8]) -> Result<(), AllocError>
    ensures { OnOk result ((b : List ℕ) × (string_bytes out.new ≡ string_bytes out.old ++ b) × Tells input.now b) }
{
    say_day::<InWords, String>(out, input)
}
