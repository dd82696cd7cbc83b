// The lines of a day, one at a time, said in any voice.
ghost use Rattle.std.specs.Prelude.{◌≡◌, ℕ, List, ◌++◌, OnOk};
ghost use Rattle.day.specs.Days.{Fits, Moves, Outcome, Writes};
ghost use Rattle.day.specs.Voices.{Said, SaysDay, SaysFrom, Says};
ghost use Rattle.market.specs.Any.{rungs_of};
ghost use Rattle.series.specs.Calls.{stands};
ghost use Rattle.lines.specs.Inputs.{lines_of};

use super::voice::{Plain, Voice};
use checks::checked::Settings;
use lines::calls::read_call;
use lines::records::{INPUT_LIMIT, Records};
use market::board::Board;
use market::ladder::Ladder;
use market::table::TableBoard;
use opening::start;
use records::AppendList;
use series::Series;
use std::alloc::AllocError;
use values::reports::{Report, Slip};
use values::writing::Sink;

// A line after the first. The memory is that of one call's reports and slips.
fn say_line<V: Voice<S>, S: Sink, L: Ladder + Drop, B: Board + Drop>(
    out: &mut S,
    series: &mut Series<L, B>,
    reports: &mut [Report; 128],
    slips: &mut [Slip; 15],
    line: &[u8],
) -> Result<(), AllocError>
    ensures value { OnOk result ((o : Outcome) × Fits line.now o × (S.Sink.bytes out.new ≡ S.Sink.bytes out.old ++ V.Voice.words.say line.now o) × Moves (L.Ladder.rung series.old.ladder) (stands B.Board.quotes series.old) o (stands B.Board.quotes series.new)) }
    ensures ladder { series.new.ladder ≡ series.old.ladder }
{
    // A match: the fault is said, and not handed up.
    let call = match read_call(line) {
        Ok(call) => call,
        Err(fault) => return V::unread(out, line, fault),
    };
    let mut reported = AppendList::new(reports);
    let mut sent = AppendList::new(slips);
    match series.call(call, &mut reported, &mut sent) {
        Ok(()) => V::done(out, line, call, reported.as_slice(), sent.as_slice()),
        Err(fault) => V::refused(out, line, call, fault),
    }
}

// All the lines after the first, in memory that is lent to one call after the other.
fn say_all<V: Voice<S>, S: Sink, L: Ladder + Drop, B: Board + Drop>(
    out: &mut S,
    series: &mut Series<L, B>,
    lines: Records,
) -> Result<(), AllocError>
    ensures value { OnOk result ((b : List ℕ) × (S.Sink.bytes out.new ≡ S.Sink.bytes out.old ++ b) × Said V.Voice.words.say (L.Ladder.rung series.old.ladder) (stands B.Board.quotes series.old) (lines_of lines.entry.rest.now) b (stands B.Board.quotes series.new)) }
    ensures ladder { series.new.ladder ≡ series.old.ladder }
{
    let mut reports = [Report::BLANK; 128];
    let mut slips = [Slip::BLANK; 15];
    for line in lines {
        say_line::<V, S, L, B>(out, series, &mut reports, &mut slips, line)?;
    }
    Ok(())
}

// A new series takes the calls of the day.
fn say_calls<V: Voice<S>, S: Sink>(
    out: &mut S,
    settings: Settings,
    lines: Records,
) -> Result<(), AllocError>
    ensures { OnOk result ((b : List ℕ) × (S.Sink.bytes out.new ≡ S.Sink.bytes out.old ++ b) × SaysDay V.Voice.words.say (rungs_of settings.ladder) settings.wide (lines_of lines.entry.rest.now) b) }
{
    let mut series = Series::new(settings.ladder, TableBoard::new(), settings.wide);
    say_all::<V, S, _, _>(out, &mut series, lines)
}

// Everything that is said of an input: nothing for none, and one word for too long a one or for a first line that is refused.
pub fn say_day<V: Voice<S>, S: Sink>(out: &mut S, input: &[u8]) -> Result<(), AllocError>
    ensures { OnOk result ((b : List ℕ) × (S.Sink.bytes out.new ≡ S.Sink.bytes out.old ++ b) × Says V.Voice.words input.now b) }
{
    if input.len() > INPUT_LIMIT {
        return V::too_long(out);
    }
    let mut lines = Records { rest: input };
    let Some(first) = lines.next() else {
        return Ok(());
    };
    match start(first) {
        Ok(settings) => {
            V::settled(out, settings)?;
            say_calls::<V, S>(out, settings, lines)
        }
        Err(fault) => V::unsettled(out, first, fault),
    }
}

// Everything that is answered to an input: nothing for none, one fault for too long a one or for a first line that is refused.
pub fn put_day<S: Sink>(out: &mut S, input: &[u8]) -> Result<(), AllocError>
    ensures { OnOk result ((b : List ℕ) × (S.Sink.bytes out.new ≡ S.Sink.bytes out.old ++ b) × Writes input.now b) }
{
    say_day::<Plain, S>(out, input)
}
