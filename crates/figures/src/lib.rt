// The figures of a plan: for each k the least number of arrivals over all cut lists of at most k pairs (document 02, [2]). `figure` and
// `figures` take anything and ask nothing; `figures_good` takes a row that is known to be good. Each game begins with the figure for one
// pair less, which is the least that is known then. They lean on `plan` for refusals 1 to 10, on `board` for the board of a row and on `game`
// for the least.

#![tactic(auto)]

ghost use Rattle.std.specs.Prelude.{◌≡◌, length};
ghost use Rattle.scope.specs.Outcome.{outcome_of};
ghost use Rattle.scope.specs.Plan.{plan_of};
ghost use Rattle.scope.specs.Questions.{figure_of};
ghost use Rattle.figures.specs.Figures.{FiguresAll, Filled, MayFill};

use board::Board;
use plan::Good;
use scope::limits::CUTS;
use scope::{Refusal, refuse};

// All figures of a good row up to k, one after another, into a list with room for them.
fn fill(row: &[u16], k: usize, out: &mut [u16])
    requires { MayFill row.now k (length out.old) }
    ensures { Filled (plan_of row.now) k out.old out.new }
{
    let mut board = Board::EMPTY;
    board.fill(row);
    let mut least = board.sizes.messages;
    for j in 0..k + 1 {
        least = game::play(row, &board, j, least);
        out[j] = least as u16;
    }
}

// All figures of a good row up to k: refusals 11 and 13, or how many there are.
pub fn figures_good(good: Good<'_>, k: usize, out: &mut [u16]) -> Result<usize, Refusal>
    ensures { FiguresAll good.entry.row.now k out.old out.new result }
{
    let row = good.row;
    if CUTS < k {
        return refuse(11, 0);
    }
    if out.len() < k + 1 {
        return refuse(13, k + 1);
    }
    fill(row, k, out);
    Ok(k + 1)
}

// All figures of a row up to k: a refusal, or how many stand at the front of `out`, those for 0 to k.
pub fn figures(row: &[u16], k: usize, out: &mut [u16]) -> Result<usize, Refusal>
    ensures { FiguresAll row.now k out.old out.new result }
{
    let good = plan::judged(row)?;
    figures_good(good, k, out)
}

// The figure of a row for k: a refusal, or the least number of arrivals.
pub fn figure(row: &[u16], k: usize) -> Result<usize, Refusal>
    ensures { outcome_of result ≡ figure_of row.now k }
{
    let mut out = [0u16; CUTS + 1];
    figures(row, k, &mut out)?;
    Ok(rows::number(&out, k))
}
