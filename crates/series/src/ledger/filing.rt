// The slips that an entry added to the caller's list go out.
ghost use Rattle.std.specs.Prelude.{◌≡◌, ◌+◌, ◌≤◌, drop};
ghost use Rattle.rules.specs.Slips.{filed};
ghost use Rattle.records.specs.Contents.{contents, used};
ghost use Rattle.table.specs.Tables.{slips_in};

use records::AppendList;
use table::slips::SlipsOut;
use values::reports::Slip;

// Files the slips from this one on; how many there are.
pub fn file_from(sent: &mut SlipsOut, id: u32, slips: &AppendList<'_, Slip>, first: usize) -> u32
    requires { (first ≤ used slips.now) × (used slips.now ≤ first + 15) }
    ensures filed { slips_in sent.new ≡ filed id (drop first (contents slips.now)) (slips_in sent.old) }
    ensures count { result + first ≡ used slips.now }
{
    let all = slips.as_slice();
    sent.file_all(id, &all[first..]);
    (slips.used() - first) as u32
}
