// How what came of each line is said.
ghost use Rattle.std.specs.Prelude.{◌≡◌, ◌++◌, OnOk};
ghost use Rattle.rules.specs.declared.Room.{Room};
ghost use Rattle.rules.specs.Steps.Event.{did, refused};
ghost use Rattle.day.specs.Days.Outcome.{unread, came};
ghost use Rattle.day.specs.Voices.{Words, plain};

use checks::checked::Settings;
use std::alloc::AllocError;
use values::calls::Call;
use values::faults::{Fault, LineFault};
use values::reports::{Report, Slip};
use values::writing::{Sink, put_fault, put_lines};

// Each writes its words after what is written already.
pub trait Voice<S: Sink> {
    ghost words: { Words };

    // A first line that begins a day.
    fn settled(out: &mut S, settings: Settings) -> Result<(), AllocError>
        ensures { OnOk result (S.Sink.bytes out.new ≡ S.Sink.bytes out.old ++ words.settled settings) };

    // A first line that begins none.
    fn unsettled(out: &mut S, line: &[u8], fault: Fault) -> Result<(), AllocError>
        ensures { OnOk result (S.Sink.bytes out.new ≡ S.Sink.bytes out.old ++ words.unsettled line.now fault) };

    // An input of which nothing is read.
    fn too_long(out: &mut S) -> Result<(), AllocError>
        ensures { OnOk result (S.Sink.bytes out.new ≡ S.Sink.bytes out.old ++ words.too_long) };

    // A later line that is no call.
    fn unread(out: &mut S, line: &[u8], fault: LineFault) -> Result<(), AllocError>
        ensures { OnOk result (S.Sink.bytes out.new ≡ S.Sink.bytes out.old ++ words.say line.now (unread fault)) };

    // A call that is carried out.
    fn done(
        out: &mut S,
        line: &[u8],
        call: Call,
        reports: &[Report],
        slips: &[Slip],
    ) -> Result<(), AllocError>
        ensures { OnOk result ((m : Room) → S.Sink.bytes out.new ≡ S.Sink.bytes out.old ++ words.say line.now (came (did call m reports.now slips.now))) };

    // A call that is refused.
    fn refused(out: &mut S, line: &[u8], call: Call, fault: Fault) -> Result<(), AllocError>
        ensures { OnOk result ((m : Room) → S.Sink.bytes out.new ≡ S.Sink.bytes out.old ++ words.say line.now (came (refused call m fault))) };
}

// The answer itself: nothing for a header, a fault for what is refused, the reports and then the slips of a call.
pub struct Plain;

impl<S: Sink> Voice<S> for Plain {
    ghost words = { plain };

    fn settled(_out: &mut S, _settings: Settings) -> Result<(), AllocError> {
        Ok(())
    }

    fn unsettled(out: &mut S, _line: &[u8], fault: Fault) -> Result<(), AllocError> {
        put_fault(out, fault)
    }

    fn too_long(out: &mut S) -> Result<(), AllocError> {
        put_fault(out, Fault::Line(LineFault::NoCall))
    }

    fn unread(out: &mut S, _line: &[u8], fault: LineFault) -> Result<(), AllocError> {
        put_fault(out, Fault::Line(fault))
    }

    fn done(
        out: &mut S,
        _line: &[u8],
        _call: Call,
        reports: &[Report],
        slips: &[Slip],
    ) -> Result<(), AllocError> {
        put_lines(out, reports)?;
        put_lines(out, slips)
    }

    fn refused(out: &mut S, _line: &[u8], _call: Call, fault: Fault) -> Result<(), AllocError> {
        put_fault(out, fault)
    }
}
