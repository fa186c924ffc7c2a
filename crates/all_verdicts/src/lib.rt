// All answers of a plan for one k at once, one for each l: document 01's refusals 1 to 11 and 13, or seven numbers for each l.
// `all_answers` takes anything and asks nothing; `answers_good` takes a row that is known to be good. The first failing list for l is that for
// every lower l down to one more than its arrivals, so there is one search for each distinct list. It leans on `plan` for refusals 1 to
// 10, on `board` for the board of a row and on `verdicts` for what is asked of it.

#![tactic(auto)]

ghost use Rattle.std.specs.Prelude.{◌+◌, ◌*◌, ◌≤◌, ◌<◌, ◌≡◌, ◌++◌, ◌∷◌, length, drop};
ghost use Rattle.scope.specs.Limits.{most_messages};
ghost use Rattle.scope.specs.Plan.{plan_of};
ghost use Rattle.all_verdicts.specs.Answers.{answer_size, AllSaid, AnswersAll};
ghost use Rattle.all_verdicts.specs.Filling.{Filled, MayFill};

use board::Board;
use plan::Good;
use scope::limits::{CUT_NUMBERS, CUTS};
use scope::{Refusal, refuse};

// The numbers of one answer: its head, and those of its list.
pub const ANSWER: usize = 1 + CUT_NUMBERS;

// One answer at the front of a list.
fn put_answer(out: &mut [u16], head: u16, numbers: [u16; CUT_NUMBERS])
    requires { answer_size ≤ length out.old }
    ensures { out.new ≡ (head ∷ numbers) ++ drop answer_size out.old }
{
    out[0] = head;
    rows::copy(&numbers, &mut out[1..]);
}

// The same answer for each l from `from` on, below `to`.
fn put_answers(out: &mut [u16], from: usize, to: usize, head: u16, numbers: [u16; CUT_NUMBERS])
    requires { (from ≤ to) × (to ≤ most_messages + 1) × (answer_size * to ≤ length out.old) }
    ensures { Filled from to head numbers out.old out.new }
{
    for l in from..to {
        let at = ANSWER * l;
        put_answer(&mut out[at..], head, numbers);
    }
}

// All answers of a good row for k, from the highest l down, into a list with room for them.
fn fill(row: &[u16], k: usize, out: &mut [u16])
    requires { MayFill row.now k (length out.old) }
    ensures { AllSaid (plan_of row.now) k out.old out.new }
{
    let mut board = Board::EMPTY;
    board.fill(row);
    let mut l = board.sizes.messages;
    let mut low = 0;
    while let Some(found) = verdicts::ask(row, &board, l, low, k) {
        let head = (found.pairs + 1) as u16;
        let numbers = found.numbers;
        put_answers(out, found.arrivals + 1, l + 1, head, numbers);
        l = found.arrivals;
        low = found.pairs;
    }
    let zeros = [0u16; CUT_NUMBERS];
    put_answers(out, 0, l + 1, 0, zeros);
}

// All answers of a good row: refusals 11 and 13, or how many numbers they are.
pub fn answers_good(good: Good<'_>, k: usize, out: &mut [u16]) -> Result<usize, Refusal>
    ensures { AnswersAll good.entry.row.now k out.old out.new result }
{
    let row = good.row;
    if CUTS < k {
        return refuse(11, 0);
    }
    let needed = ANSWER * (rows::messages(row) + 1);
    if out.len() < needed {
        return refuse(13, needed);
    }
    fill(row, k, out);
    Ok(needed)
}

// All answers of a row for k: a refusal, or how many numbers stand at the front of `out`, seven for each l from 0 to M.
pub fn all_answers(row: &[u16], k: usize, out: &mut [u16]) -> Result<usize, Refusal>
    ensures { AnswersAll row.now k out.old out.new result }
{
    let good = plan::judged(row)?;
    answers_good(good, k, out)
}
