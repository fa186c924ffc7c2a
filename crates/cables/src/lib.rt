// Cables (document 02, [3]): the other way of each link, found once for a plan, and the links that are no cable's name. It leans on `rows`
// for where the ends of a link stand.
//
// A byte for each two ends holds the lowest link that has them, plus one: half of what a table of `Option<u8>` takes; so the link that goes
// back is one read.

#![tactic(auto)]

ghost use Rattle.std.specs.Prelude.{◌≡◌, ltb};
ghost use Rattle.scope.specs.Plan.{plan_of};
ghost use Rattle.rows.specs.Lies.{PlanLies};
ghost use Rattle.cables.specs.Others.{other_in, higher_of, OtherWays};
ghost use Rattle.cables.specs.Ends.{MayPut, EndsFrom, MayFind, IsOther};

use scope::limits::{ENDS, LINKS, VERTICES};
use std::array;

// The other way of a link, from a byte a link; a link past them is its own.
pub fn other(others: &[u8], e: usize) -> usize
    ensures { result ≡ other_in others.now e }
{
    match others.get(e) {
        Some(o) => usize::from(*o),
        None => e,
    }
}

// A link is the higher one of its cable, and so not its name.
pub fn is_higher(others: &[u8], e: usize) -> bool
    ensures { result ≡ ltb (other_in others.now e) e }
{
    other(others, e) < e
}

// One byte a link: 1 where it is the higher one of its cable, else 0.
pub fn higher(others: &[u8]) -> [u8; LINKS]
    ensures { result ≡ higher_of others.now }
{
    array::from_fn(|e| u8::from(is_higher(others, e)))
}

// For each two ends the lowest link that has them, plus one, where the bytes are 0 before.
fn put_ends(row: &[u16], table: &mut [u8; ENDS])
    requires { MayPut row.now table.old }
    ensures { EndsFrom (plan_of row.now) 0 table.new }
{
    for e in (0..rows::links(row)).rev() {
        let from = rows::number(row, e * 2 + 5);
        let to = rows::number(row, e * 2 + 6);
        table[from * VERTICES + to] = (e + 1) as u8;
    }
}

// The other way of link e.
fn other_of(row: &[u16], table: &[u8; ENDS], e: usize) -> u8
    requires { MayFind row.now table.now e }
    ensures { IsOther (plan_of row.now) e result }
{
    let from = rows::number(row, e * 2 + 5);
    let to = rows::number(row, e * 2 + 6);
    let back = table[to * VERTICES + from].checked_sub(1);
    back.unwrap_or(e as u8)
}

// The other way of each link of a row's plan. A byte past its links is of no link.
pub fn other_ways(row: &[u16]) -> [u8; LINKS]
    requires { PlanLies row.now }
    ensures { OtherWays (plan_of row.now) result }
{
    let mut table = [0; ENDS];
    put_ends(row, &mut table);
    let mut others = [0; LINKS];
    for e in 0..rows::links(row) {
        others[e] = other_of(row, &table, e);
    }
    others
}
