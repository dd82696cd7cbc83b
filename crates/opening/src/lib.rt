//! The first line of a day or of a morning: the settings that its header gives.
//! Promises: the settings, or the line's fault, or the fault of the leftmost field of the topmost row that does not fit.
//! Knows lines and their checks alone.
#![tactic(auto)]

ghost use Rattle.std.specs.Prelude.{◌≡◌};
ghost use Rattle.opening.specs.Opening.{started};

use checks::calls::check_header;
use checks::checked::Settings;
use lines::calls::read_header;
use values::faults::Fault;

// The first line: a header, whose fields fit.
pub fn start(line: &[u8]) -> Result<Settings, Fault>
    ensures { result ≡ started line.now }
{
    let header = read_header(line)?;
    Ok(check_header(header)?)
}
