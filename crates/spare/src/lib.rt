// Spare slots of a second path: a(e), b(m, e), D and the slack, of `scope`'s Spare. `slack` takes anything, and refuses what is bad by
// document 01's numbers; proofs/ has that the slack lies between -1,535 and 63, and what 0 or more means for the replay. It leans on
// `rows` for where things stand, on `plan` for what a good row is, and on `laws` for the replay. Counting is by total reads of the row.

#![tactic(auto)]

ghost use Rattle.std.specs.Prelude.{◌≡◌, ◌+◌, ◌*◌, ◌<◌, ◌≤◌, ◌^◌, cond};
ghost use Rattle.std.proofs.Math.IntN.{sub_ℕ};
ghost use Rattle.scope.specs.Plan.{numbers_at, places_at, message_at, message_count, plan_of};
ghost use Rattle.scope.specs.Good.{has};
ghost use Rattle.scope.specs.Cycle.{order_of};
ghost use Rattle.scope.specs.Spare.{entries_of, entries, has_second_through, lower_through, delay};
ghost use Rattle.rows.specs.View.{Is};
ghost use Rattle.spare.specs.Slack.{Slacks};

use plan::Good;
use scope::{Refusal, refusal_at};

// Whether link e stands among so many numbers from an index on.
fn has(row: &[u16], e: usize, i: usize, n: usize) -> bool
    requires { (i < 2 ^ 62) × (n ≤ 65536) }
    ensures { result ≡ has e (numbers_at row.now i n) }
{
    (0..n).any(|k| e == rows::number(row, i + k))
}

// Whether one of so many places from an index on has a second path through link e.
fn through(row: &[u16], e: usize, i: usize, n: usize) -> bool
    requires { (i < 2 ^ 60) × (n ≤ 65536) }
    ensures { result ≡ has_second_through e (places_at row.now i n) }
{
    let mut at = i;
    for _k in 0..n {
        let here = rows::place_at(row, at);
        if has(row, e, here.second, here.count) {
            return true;
        }
        at = here.next;
    }
    false
}

// How many of so many places from an index on are on link e.
fn entries_of(row: &[u16], e: usize, i: usize, n: usize) -> usize
    requires { (i < 2 ^ 60) × (n ≤ 65536) }
    ensures { Is (entries_of e (places_at row.now i n)) n result }
{
    let mut sum = 0;
    let mut at = i;
    for _k in 0..n {
        let here = rows::place_at(row, at);
        sum += usize::from(here.link == e);
        at = here.next;
    }
    sum
}

// a(e): how many entries the whole table has on link e.
fn entries(row: &[u16], e: usize) -> usize
    ensures { Is (entries e (plan_of row.now).messages) 4294967296 result }
{
    let mut sum = 0;
    let mut at = rows::message_index(row, 0);
    for _k in 0..rows::messages(row) {
        sum += entries_of(row, e, at + 1, rows::place_count(row, at));
        at = rows::after_message(row, at);
    }
    sum
}

// 1 if the message at an index has a second path through link e, 0 if it has none.
fn message_through(row: &[u16], e: usize, i: usize) -> usize
    requires { i < 2 ^ 59 }
    ensures { Is (cond (has_second_through e (message_at row.now i)) 1 0) 1 result }
{
    usize::from(through(row, e, i + 1, rows::place_count(row, i)))
}

// b(m, e): how many messages lower than m have a second path through link e.
fn lower_through(row: &[u16], m: usize, e: usize) -> usize
    requires { m ≤ message_count row.now }
    ensures { Is (lower_through (order_of (plan_of row.now)) m e 0 (plan_of row.now).messages) m result }
{
    let mut sum = 0;
    let mut at = rows::message_index(row, 0);
    for _j in 0..m {
        sum += message_through(row, e, at);
        at = rows::after_message(row, at);
    }
    sum
}

// D: the sum, over the links of a second path at an index, of 1 + a(e) + b(m, e).
fn delay(row: &[u16], m: usize, i: usize, n: usize) -> usize
    requires { (i < 2 ^ 60) × ((n ≤ 65536) × (m ≤ message_count row.now)) }
    ensures { Is (delay (order_of (plan_of row.now)) (plan_of row.now).messages m (numbers_at row.now i n))
        (n * 4295032833) result }
{
    let mut sum = 0;
    for k in 0..n {
        let e = rows::number(row, i + k);
        sum += 1 + entries(row, e) + lower_through(row, m, e);
    }
    sum
}

// t less what is used, below, at or above zero.
fn less(t: usize, used: usize) -> i32
    requires { (t < 2 ^ 30) × (used < 2 ^ 30) }
    ensures { result ≡ sub_ℕ t used }
{
    (t as i32) - (used as i32)
}

// The slack of the second path of message m from place p, of a row that is known to be good.
pub fn slack_of_good(good: Good<'_>, m: usize, p: usize) -> Result<i32, Refusal>
    ensures { Slacks good.entry.row.now m p result }
{
    let row = good.row;
    if rows::messages(row) <= m {
        return Err(refusal_at(11, 0));
    }
    let i = rows::message_index(row, m);
    if rows::place_count(row, i) <= p {
        return Err(refusal_at(11, 0));
    }
    let at = rows::after_places(row, i + 1, p);
    let here = rows::place_at(row, at);
    if here.count == 0 {
        return Err(refusal_at(11, 0));
    }
    let used = here.slot + delay(row, m, here.second, here.count);
    Ok(less(rows::timeout(row), used))
}

// The slack of the second path of message m from place p: timeout less slot less D, or refusal 1 to 10, 14 to 19, 11.
pub fn slack(row: &[u16], m: usize, p: usize) -> Result<i32, Refusal>
    ensures { Slacks row.now m p result }
{
    let good = plan::judged(row)?;
    slack_of_good(good, m, p)
}
