// Which cuts explain a capture: the first cut list of at most k pairs whose replay has exactly the crossings of the capture, or that there is
// none. `explain` takes anything and asks nothing; `explain_good` takes a row that is known to be good, and what was kept of a capture. It
// leans on `plan` for a row's refusals, on `capture` for 23 and for the table of crossings, and on `explaining` for the walk over cut lists;
// that a list matches the table exactly if it explains the capture is proved here.

#![tactic(auto)]

ghost use Rattle.std.specs.Prelude.{◌≡◌, length};
ghost use Rattle.scope.specs.Limits.{crossed_size};
ghost use Rattle.explaining.specs.Walk.{Hunts};
ghost use Rattle.explanations.specs.Explained.{Answered, AnsweredFor, MayDecide};

use capture::Kept;
use explaining::Hunted;
use picks::Sizes;
use plan::Good;
use scope::limits::{CROSSED, CUTS, TABLE};
use scope::{Refusal, refusal_at};

// The first list of at most k pairs that matches a table of crossings.
fn decide(row: &[u16], k: usize, crossed: &[u8]) -> Option<Hunted>
    requires { MayDecide row.now k crossed.now }
    ensures { Hunts row.now crossed.now k result }
{
    let mut table = [0u8; TABLE];
    table::fill_table(row, &mut table);
    let messages = rows::messages(row);
    let ps = cycle::start_all(row, messages);
    let z = Sizes {
        timeout: rows::timeout(row),
        links: rows::links(row),
        messages,
        others: cables::other_ways(row),
    };
    explaining::first_list(row, &table, crossed, z, ps, k)
}

// The explanation of a capture of which this is kept, in a good row: refusals 11, 23 and 13, or the answer. No list explains a capture in
// which a message crosses two links in one slot.
pub fn explain_good(
    good: Good<'_>,
    k: usize,
    kept: Kept,
    crossed: &[u8],
    list: &mut [u16],
) -> Result<Option<usize>, Refusal>
    requires { length crossed.now ≡ crossed_size }
    ensures { AnsweredFor good.entry.row.now k kept crossed.now list.old list.new result }
{
    let row = good.row;
    if CUTS < k {
        return Err(refusal_at(11, 0));
    }
    if kept.bad {
        return Err(refusal_at(23, kept.count));
    }
    if list.len() < 2 * k {
        return Err(refusal_at(13, 2 * k));
    }
    if kept.twice {
        return Ok(None);
    }
    if let Some(hunted) = decide(row, k, crossed) {
        let pairs = hunted.pairs;
        let numbers = hunted.numbers;
        rows::copy(&numbers[..2 * pairs], list);
        Ok(Some(pairs))
    } else {
        Ok(None)
    }
}

// The explanation in a good row, of a capture as numbers.
fn explain_row(
    good: Good<'_>,
    k: usize,
    capture: &[u16],
    list: &mut [u16],
) -> Result<Option<usize>, Refusal>
    ensures { Answered good.entry.row.now k capture.now list.old list.new result }
{
    let mut crossed = [0u8; CROSSED];
    let kept = capture::keep(good.row, capture, &mut crossed);
    explain_good(good, k, kept, &crossed, list)
}

// Which cuts explain a capture, a row of triples slot, link, message: the number of pairs of the first list of at most k that has exactly
// these crossings, which stands at the front of `list`; or that it is unexplained.
pub fn explain(
    row: &[u16],
    k: usize,
    capture: &[u16],
    list: &mut [u16],
) -> Result<Option<usize>, Refusal>
    ensures { Answered row.now k capture.now list.old list.new result }
{
    let good = plan::judged(row)?;
    explain_row(good, k, capture, list)
}
