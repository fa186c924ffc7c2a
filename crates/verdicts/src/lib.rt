// The verdict: whether every cut list of at most k pairs leaves at least l arrivals, and if not, the first list that does not.
// `verdict` takes anything and asks nothing; `verdict_good` takes a row that is known to be good. It leans on `plan` for refusals 1 to
// 10, on `board` for the board of a row, and on `search` for the search.

#![tactic(auto)]

ghost use Rattle.search.specs.Hunt.{Hunts};
ghost use Rattle.verdicts.specs.Asking.{MayAskOn};
ghost use Rattle.verdicts.specs.Verdict.{Answered, MayAsk};

use board::Board;
use plan::Good;
use scope::limits::CUTS;
use scope::{Refusal, refusal_at};
use search::{Asked, Found};

// The first failing list for l, where lists of fewer than `low` pairs are known to leave l arrivals.
pub fn ask(row: &[u16], board: &Board, l: usize, low: usize, k: usize) -> Option<Found>
    requires { MayAskOn row.now board.now l low k }
    ensures { Hunts row.now l k result }
{
    if l == 0 {
        return None;
    }
    let a = Asked {
        least: l,
        need: bound::need(board.sizes.messages, l),
    };
    search::first_list(row, board, a, low, k)
}

// The first failing list of a row that may be asked about.
fn decide(row: &[u16], k: usize, l: usize) -> Option<Found>
    requires { MayAsk row.now k l }
    ensures { Hunts row.now l k result }
{
    let mut board = Board::EMPTY;
    board.fill(row);
    ask(row, &board, l, 0, k)
}

// The verdict on a good row: refusals 11 and 13, or the answer.
pub fn verdict_good(
    good: Good<'_>,
    k: usize,
    l: usize,
    list: &mut [u16],
) -> Result<Option<usize>, Refusal>
    ensures { Answered good.entry.row.now k l list.old list.new result }
{
    let row = good.row;
    if CUTS < k {
        return Err(refusal_at(11, 0));
    }
    if rows::messages(row) < l {
        return Err(refusal_at(11, 0));
    }
    if list.len() < 2 * k {
        return Err(refusal_at(13, 2 * k));
    }
    let hunted = decide(row, k, l);
    if let Some(found) = hunted {
        let pairs = found.pairs;
        let numbers = found.numbers;
        rows::copy(&numbers[..2 * pairs], list);
        Ok(Some(pairs))
    } else {
        Ok(None)
    }
}

// The verdict on a row for k and l: resistant, or the number of pairs of the first failing list, which stands at the front of `list`.
pub fn verdict(row: &[u16], k: usize, l: usize, list: &mut [u16]) -> Result<Option<usize>, Refusal>
    ensures { Answered row.now k l list.old list.new result }
{
    let good = plan::judged(row)?;
    verdict_good(good, k, l, list)
}
