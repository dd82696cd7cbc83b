// The rows of the fault table that ask how the series stands.
ghost use Rattle.std.specs.Prelude.{◌≡◌, ℕ, ◌<◌, ◌≤◌, [], IfOk};
ghost use Rattle.rules.specs.Slips.{sent_at};
ghost use Rattle.table.specs.Tables.{slips_in};
ghost use Rattle.series.specs.States.{state};
ghost use Rattle.series.specs.Rows.{open_row, away_row, cancel_row, reply_row};

use super::Ledger;
use values::faults::SeriesFault;

// What every call but the opening asks of its report list.
pub fn report_row(room: usize) -> Result<(), SeriesFault>
    ensures { result ≡ away_row room }
{
    if room < 128 {
        return Err(SeriesFault::NoRoomForReports);
    }
    Ok(())
}

impl Ledger {
    pub fn open_row(&self) -> Result<(), SeriesFault>
        ensures { result ≡ open_row (state [] self.now) }
    {
        if self.opened {
            return Err(SeriesFault::AlreadyOpen);
        }
        Ok(())
    }

    // The place of the order that a cancel names.
    pub fn cancel_row(&self, id: u32, room: usize) -> Result<usize, SeriesFault>
        ensures row { result ≡ cancel_row (state [] self.now) id room }
        ensures fits { IfOk result (λ i. (i < 64) × (128 ≤ room)) }
    {
        if !self.opened {
            return Err(SeriesFault::NotOpen);
        }
        report_row(room)?;
        self.book.find(id).ok_or(SeriesFault::NotResting)
    }

    // The place of the slip that a reply names.
    pub fn reply_row(&self, slip: u32, filled: u32, room: usize) -> Result<usize, SeriesFault>
        ensures row { result ≡ reply_row (state [] self.now) slip filled room }
        ensures fits { IfOk result (λ i. (i < 64) × (128 ≤ room) × (filled ≤ (sent_at (slips_in self.now.sent) i).slip.size)) }
    {
        if !self.opened {
            return Err(SeriesFault::NotOpen);
        }
        report_row(room)?;
        let i = self.sent.find(slip).ok_or(SeriesFault::SlipNotOut)?;
        if self.sent.slip(i).size < filled {
            return Err(SeriesFault::FilledAboveSize);
        }
        Ok(i)
    }
}
