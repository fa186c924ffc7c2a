// One cycle: every slot, from the first positions to the timeout. What is promised is an equation with `events` and `positions` of
// document 01 (specs/Cycle of `scope`), over the table that is lent and the links below the limit that the cut list takes down with the
// other ways that are lent, whatever they are: proofs/Agree has when they are the plan's and the list's. All that `play` asks is that
// there are at most 32 messages, that they end below index 65536 of the row, and that there is room for the events. It leans on `step`
// for one slot and on `cuts` for what is down in it.

#![tactic(auto)]

ghost use Rattle.std.specs.Prelude.{ℕ, ◌≤◌, ◌≡◌, List, map, length};
ghost use Rattle.scope.specs.Limits.{most_messages};
ghost use Rattle.scope.specs.Plan.{messages_at, first_message};
ghost use Rattle.scope.specs.Slot.{on_first};
ghost use Rattle.scope.specs.Cycle.{arrived};
ghost use Rattle.step.specs.Stand.{positions_of, Become};
ghost use Rattle.step.specs.Slot.{MayTell};
ghost use Rattle.cycle.specs.Play.{do_in, ends_with, tells, MayStart, Begins, Done, MayRun, Ran, MayPlay, Played};

use scope::limits::MESSAGES;
use step::{Position, Slot, Standing};

// How many of the first n messages are at their targets.
pub fn count_home(standing: Standing, n: usize) -> usize
    requires { n ≤ most_messages }
    ensures { (row : List ℕ) → result ≡ arrived (positions_of row n standing.positions) }
{
    standing.positions()[..n]
        .iter()
        .filter(|p| p.is_home())
        .count()
}

// The first records of n messages.
fn first_records(row: &[u16], n: usize) -> [Position; MESSAGES]
    requires { MayStart row.now n }
    ensures { Become row.now n (map on_first (messages_at row.now (first_message row.now) n)) result }
{
    let mut ps = [Position {
        at: 0,
        left: 0,
        turned: false,
    }; MESSAGES];
    let mut at = rows::links(row) * 2 + 5;
    for m in 0..n {
        ps[m] = Position {
            at: (at + 1) as u16,
            left: rows::place_count(row, at) as u16,
            turned: false,
        };
        at = rows::after_message(row, at);
    }
    ps
}

// Where n messages stand at the first time: "A message starts where its first path begins."
pub fn start_all(row: &[u16], n: usize) -> Standing
    requires { MayStart row.now n }
    ensures { Begins row.now n result }
{
    let ps = first_records(row, n);
    Standing::first(ps)
}

// One slot of all messages, with its events at the front of `out`.
fn run_slot(
    standing: Standing,
    i: Slot,
    n: usize,
    row: &[u16],
    table: &[u8],
    others: &[u8],
    cuts: &[u16],
    out: &mut [u16],
) -> Standing
    requires { MayTell row.now n standing i.0 (length out.old) }
    ensures { Done row.now n i.0 (do_in row.now table.now others.now cuts.now
        i.0 (positions_of row.now n standing.positions)) out.old out.new result }
{
    let down = cuts::down_in(others, cuts, i.number());
    standing.told(i, n, row, table, &down, out)
}

// All slots up to the timeout, with the row of events at the front of `out`.
fn run(
    first: Standing,
    n: usize,
    timeout: usize,
    row: &[u16],
    table: &[u8],
    others: &[u8],
    cuts: &[u16],
    out: &mut [u16],
) -> Standing
    requires { MayRun row.now first n timeout (tells row.now table.now others.now cuts.now 0 timeout
        (positions_of row.now n first.positions)) (length out.old) }
    ensures { Ran row.now n
        (ends_with row.now table.now others.now cuts.now 0 timeout
        (positions_of row.now n first.positions))
        (tells row.now table.now others.now cuts.now 0 timeout
        (positions_of row.now n first.positions))
        out.old out.new result }
{
    let mut standing = first;
    let mut at = 0;
    while standing.time().number() < timeout {
        let i = standing.time().begins(timeout);
        standing = run_slot(standing, i, n, row, table, others, cuts, &mut out[at..]);
        at += 2 * n;
    }
    standing
}

// A whole cycle of the plan of a row: how many messages arrive, with the row of events at the front of `out`.
pub fn play(row: &[u16], table: &[u8], others: &[u8], cuts: &[u16], out: &mut [u16]) -> usize
    requires { MayPlay row.now (length out.old) }
    ensures { Played row.now table.now others.now cuts.now out.old
        out.new result }
{
    let n = rows::messages(row);
    let timeout = rows::timeout(row);
    let first = start_all(row, n);
    let last = run(first, n, timeout, row, table, others, cuts, out);
    count_home(last, n)
}
