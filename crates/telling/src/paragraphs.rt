// One line of text for each line of the input.
ghost use Rattle.std.specs.Prelude.{◌≡◌, ◌++◌, string_bytes, OnOk, IfSome};
ghost use Rattle.telling.specs.Fields.{at_field};
ghost use Rattle.telling.specs.Paragraphs.{done, refusal, ladder_words, width_words, settled};

use super::fields::{field_after, field_of, shown};
use super::told::put_each;
use checks::checked::Settings;
use market::any::AnyLadder;
use phrases::asked::Asked;
use phrases::names::field_named;
use phrases::refusals::Meaning;
use std::alloc::AllocError;
use std::fmt;
use values::calls::Call;
use values::faults::Fault;
use values::reports::{Report, Slip};

// A call that was carried out.
pub fn put_done(
    out: &mut String,
    call: Call,
    reports: &[Report],
    slips: &[Slip],
) -> Result<(), AllocError>
    ensures { OnOk result (string_bytes out.new ≡ string_bytes out.old ++ done call reports.now slips.now) }
{
    let asked = Asked(call);
    write!(out, "{asked}")?;
    put_each(out, reports)?;
    put_each(out, slips)?;
    if reports.is_empty() {
        writeln!(out, " No order changes.")
    } else {
        writeln!(out)
    }
}

// The field at this place: its name and what stood there.
fn put_at_field(out: &mut String, line: &[u8], place: u32) -> Result<(), AllocError>
    ensures { OnOk result (string_bytes out.new ≡ string_bytes out.old ++ at_field line.now place) }
{
    // An empty line is of no kind, as one that begins with the byte 0.
    let kind = line.first().copied().unwrap_or(0);
    let name = field_named(kind, place);
    write!(out, "field {place}, {name}, is \"")?;
    put_each(out, shown(field_after(line, place.saturating_sub(1))))?;
    write!(out, "\": ")
}

// The number of the fault, the field at fault if there is one, and what the fault means.
fn put_refusal(out: &mut String, line: &[u8], fault: Fault) -> Result<(), AllocError>
    ensures { OnOk result (string_bytes out.new ≡ string_bytes out.old ++ refusal line.now fault) }
{
    let number = fault.code().number;
    write!(out, " Refused, fault {number}: ")?;
    if let Some(place) = field_of(fault) {
        put_at_field(out, line, place)?;
    }
    let meaning = Meaning(fault);
    writeln!(out, "{meaning}.")
}

// What was refused, and why.
pub fn put_refused<D: fmt::Display + Copy>(
    out: &mut String,
    what: D,
    line: &[u8],
    fault: Fault,
) -> Result<(), AllocError>
    ensures { OnOk result (IfSome (D.Display.output what) (λ text. string_bytes out.new ≡ string_bytes out.old ++ (text ++ refusal line.now fault))) }
{
    write!(out, "{what}")?;
    put_refusal(out, line, fault)
}

#[tactic(auto, unfolding(crate::specs::Paragraphs::ladder_words))]
fn ladder_words(ladder: AnyLadder) -> &'static str
    ensures { result.now ≡ ladder_words ladder }
{
    match ladder {
        AnyLadder::Cents => "every cent",
        AnyLadder::CentsThenFives => "every cent below $3.00, then every five cents",
        AnyLadder::FivesThenTens => "every five cents below $3.00, then every ten cents",
    }
}

#[tactic(auto, unfolding(crate::specs::Paragraphs::width_words))]
fn width_words(wide: bool) -> &'static str
    ensures { result.now ≡ width_words wide }
{
    if wide {
        "let through however wide the market is"
    } else {
        "refused while the market is $5.00 wide or wider"
    }
}

// A first line that begins a day.
pub fn put_settled(out: &mut String, settings: Settings) -> Result<(), AllocError>
    ensures { OnOk result (string_bytes out.new ≡ string_bytes out.old ++ settled settings) }
{
    let prices = ladder_words(settings.ladder);
    let wide = width_words(settings.wide);
    writeln!(
        out,
        "A new day. Prices: {prices}. Market orders are {wide}."
    )
}
