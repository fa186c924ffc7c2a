// The lines of the programs `verdict` and `deep`, laid into lent bytes from an index on: document 01, "Programs". `lines_under` lays the lines
// under one k and `slack_lines` those of the spare slots; each gives the index after them. They lean on `all_verdicts` and `spare` for what the
// lines say, and on `verdict_lines` for one line. That the lines under every k and then the slack lines are the whole text, that every text has
// room in `ROOM` bytes, and that a file has one text, is in proofs/. `whole_verdict` composes them, and tells between two k how far it is.

#![tactic(auto)]

ghost use Rattle.std.specs.Prelude.{◌+◌, ◌*◌, ◌≤◌, ◌<◌, ◌^◌, ◌≡◌, length, get_or};
ghost use Rattle.scope.specs.Plan.{plan_of, path_of, message_count};
ghost use Rattle.scope.specs.Lines.{message_slacks, slack_lines};
ghost use Rattle.text.specs.Text.{Puts, Told};
ghost use Rattle.verdict_text.specs.Layout.{line_of, lines_of, slack_at, Sevens, Lays, LinesUnder};
ghost use Rattle.verdict_text.specs.Texts.{highest_or};

use plan::Good;
use scope::limits;
use verdict_lines::{failing_line, resistant_line, slack_line};

// Seven numbers for each l from 0 to 32.
const ANSWERS: usize = 7 * (limits::MESSAGES + 1);

// Bytes enough for every text (proofs/Theorems, `text-room`).
pub const ROOM: usize = 34700;

// The line of a verdict from its seven numbers.
fn line(out: &mut [u8], at: usize, k: usize, l: usize, numbers: &[u16]) -> usize
    requires { (2 * get_or numbers.now 0 0 ≤ length numbers.now + 1) × Told at (line_of k l numbers.now) }
    ensures { Puts (line_of k l numbers.now) out.old out.new at result }
{
    let pairs = rows::number(numbers, 0);
    if pairs == 0 {
        return resistant_line(out, at, k, l);
    }
    let end = 2 * pairs - 1;
    failing_line(out, at, k, l, &numbers[1..end])
}

// The lines of so many l.
fn lines(out: &mut [u8], at: usize, k: usize, all: &[u16], count: usize) -> usize
    requires { Sevens all.now count × Told at (lines_of k all.now 0 count) }
    ensures { Puts (lines_of k all.now 0 count) out.old out.new at result }
{
    let mut next = at;
    for l in 0..count {
        let i = 7 * l;
        next = line(out, next, k, l, &all[i..i + 7]);
    }
    next
}

// The lines under k for every l. Nothing is refused of a good row and such a k, so the answer is not looked at.
pub fn lines_under(good: Good<'_>, k: usize, out: &mut [u8], at: usize) -> usize
    requires { (k ≤ 3) × (at < 2 ^ 32) }
    ensures { Lays (LinesUnder (plan_of good.entry.row.now) k) 4323 out.old out.new at result }
{
    let row = good.row;
    let mut all = [0u16; ANSWERS];
    let _ = all_verdicts::answers_good(good, k, &mut all);
    lines(out, at, k, &all, rows::messages(row) + 1)
}

// The slack line of a place, if it has a second path.
fn place_slack(good: Good<'_>, m: usize, p: usize, out: &mut [u8], at: usize) -> usize
    requires { Told at (slack_at (plan_of good.row.now) m p) }
    ensures { Puts (slack_at (plan_of good.entry.row.now) m p) out.old out.new at result }
{
    match spare::slack_of_good(good, m, p) {
        Ok(slots) => slack_line(out, at, m, p, slots),
        Err(_) => at,
    }
}

// Those of a message.
fn message_slacks(good: Good<'_>, m: usize, out: &mut [u8], at: usize) -> usize
    requires { (m < message_count good.row.now) ×
        Told at (message_slacks (plan_of good.row.now) m 0 (path_of (plan_of good.row.now) m)) }
    ensures { Puts (message_slacks (plan_of good.entry.row.now) m 0 (path_of (plan_of good.entry.row.now) m)) out.old
        out.new at result }
{
    let row = good.row;
    let count = rows::place_count(row, rows::message_index(row, m));
    let mut next = at;
    for p in 0..count {
        next = place_slack(good, m, p, out, next);
    }
    next
}

// Those of all messages.
pub fn slack_lines(good: Good<'_>, out: &mut [u8], at: usize) -> usize
    requires { at < 2 ^ 32 }
    ensures { Puts (slack_lines (plan_of good.entry.row.now) 0 (plan_of good.entry.row.now).messages) out.old
        out.new at result }
{
    let count = rows::messages(good.row);
    let mut next = at;
    for m in 0..count {
        next = message_slacks(good, m, out, next);
    }
    next
}

// "it goes up to k 3 if E × t is at most 64", else to `large`, which is 1 for the verdict program
pub fn highest(row: &[u16], large: usize) -> usize
    ensures { result ≡ highest_or large (plan_of row.now) }
{
    if rows::links(row) * rows::timeout(row) <= 64 {
        3
    } else {
        large
    }
}
