// A morning's lines, one at a time, told to two boards.
ghost use Rattle.std.specs.Prelude.{◌≡◌};
ghost use Rattle.morning.specs.Mornings.{taken, after};

use super::boards::tell_both;
use checks::calls::check_away;
use lines::calls::read_call;
use market::board::{Board, Quote};
use market::ladder::Ladder;
pub use opening::start;
use values::calls::Call;
use values::faults::Fault;

#[derive(Clone, Copy)]
pub enum Taken {
    Told { exchange: u32, quote: Quote },
    // A well-formed call of another kind.
    PassedOver(Call),
}

// Every later line; both boards change only by a quote that is read and fits.
// Two boards, not a struct of both, which would ask of callers that they hold them in one place.
pub fn take<L: Ladder, X: Board, Y: Board>(
    ladder: &L,
    one: &mut X,
    other: &mut Y,
    line: &[u8],
) -> Result<Taken, Fault>
    ensures value { result ≡ taken (L.Ladder.rung ladder.now) line.now }
    ensures one { X.Board.quotes one.new ≡ after (X.Board.quotes one.old) result }
    ensures other { Y.Board.quotes other.new ≡ after (Y.Board.quotes other.old) result }
{
    let judged = judge(ladder, line)?;
    if let Taken::Told { exchange, quote } = judged {
        tell_both(one, other, exchange, quote);
    }
    Ok(judged)
}

fn judge<L: Ladder>(ladder: &L, line: &[u8]) -> Result<Taken, Fault>
    ensures { result ≡ taken (L.Ladder.rung ladder.now) line.now }
{
    let call = read_call(line)?;
    match call {
        Call::Away { exchange, quote } => {
            check_away(ladder, exchange, quote)?;
            Ok(Taken::Told { exchange, quote })
        }
        _ => Ok(Taken::PassedOver(call)),
    }
}
