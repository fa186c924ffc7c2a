// Cut lists: refusal 12, and what is down in a slot, so that "is this link down" is one read.
// It leans on specs/ of `scope` (Cuts, Outcome), on the total read of `rows` and on `cables` for the other way of a link. No function but
// `bad_pair` and its parts asks anything of the list, and no list is passed over further than its first bad pair.

#![tactic(auto)]

ghost use Rattle.std.specs.Prelude.{◌+◌, ◌*◌, ◌<◌, ◌^◌, ◌≡◌};
ghost use Rattle.scope.specs.Lowest.{lowest};
ghost use Rattle.scope.specs.Outcome.{outcome_of};
ghost use Rattle.scope.specs.Plan.{plan_of};
ghost use Rattle.scope.specs.Cuts.{pairs, falls, check_cuts};
ghost use Rattle.cables.specs.Others.{OtherWays};
ghost use Rattle.cuts.specs.Pairs.{IsPair, is_twice, is_bad};
ghost use Rattle.cuts.specs.Down.{is_down, with_link, with_pair, DownIn};

use rows::number;
use scope::limits::LINKS;
use scope::{Refusal, refuse};

// A pair of a cut list: by slot, and in one slot by link.
#[derive(Clone, Copy, PartialEq, PartialOrd)]
struct Pair {
    slot: usize,
    link: usize,
}

// Pair i, with zeros past the list's end.
fn pair_at(cuts: &[u16], i: usize) -> Pair
    requires { i < 2 ^ 61 }
    ensures { IsPair cuts.now i result }
{
    Pair {
        slot: number(cuts, 2 * i),
        link: number(cuts, 2 * i + 1),
    }
}

// A link is down: its byte is not 0. One past the list is whole.
pub fn is_down(down: &[u8], link: usize) -> bool
    ensures { result ≡ is_down down.now link }
{
    down.get(link).is_some_and(|d| 0 < *d)
}

// How many pairs there are, an odd last number among them.
fn count(cuts: &[u16]) -> usize
    ensures { result ≡ pairs cuts.now }
{
    cuts.len().div_ceil(2)
}

// One more link is down.
fn put_link(down: &mut [u8], link: usize)
    ensures { down.new ≡ with_link down.old link }
{
    if link < down.len() {
        down[link] = 1;
    }
}

// One more pair: if it is not later than `slot`, its link is down, and the other way of it.
fn put_pair(down: &mut [u8], others: &[u8], pair: Pair, slot: usize)
    ensures { down.new ≡ with_pair others.now down.old pair.slot pair.link slot }
{
    if pair.slot <= slot {
        put_link(down, pair.link);
        put_link(down, cables::other(others, pair.link));
    }
}

// The links that a list takes down in a slot, one byte a link.
pub fn down_in(others: &[u8], cuts: &[u16], slot: usize) -> [u8; LINKS]
    ensures { DownIn others.now cuts.now slot result }
{
    let mut down = [0; LINKS];
    for j in 0..count(cuts) {
        put_pair(&mut down, others, pair_at(cuts, j), slot);
    }
    down
}

// Pair i does not come after the one before it.
fn falls_at(cuts: &[u16], i: usize) -> bool
    requires { i < 2 ^ 61 }
    ensures { result ≡ falls cuts.now i }
{
    0 < i && pair_at(cuts, i) <= pair_at(cuts, i - 1)
}

// Pair i names a link that an earlier pair names.
fn twice(cuts: &[u16], i: usize) -> bool
    requires { i < 2 ^ 61 }
    ensures { result ≡ is_twice cuts.now i }
{
    let link = pair_at(cuts, i).link;
    (0..i).any(|j| pair_at(cuts, j).link == link)
}

// Pair i is bad.
fn bad_pair(timeout: usize, links: usize, others: &[u8], cuts: &[u16], i: usize) -> bool
    requires { i < 2 ^ 61 }
    ensures { result ≡ is_bad timeout links others.now cuts.now i }
{
    let Pair { slot, link } = pair_at(cuts, i);
    cuts.len() == 2 * i + 1
        || timeout <= slot
        || links <= link
        || falls_at(cuts, i)
        || twice(cuts, i)
        || cables::is_higher(others, link)
}

// The first bad pair, or how many pairs there are.
fn first_bad(timeout: usize, links: usize, others: &[u8], cuts: &[u16]) -> usize
    ensures { result ≡ lowest (is_bad timeout links others.now cuts.now) (pairs cuts.now) }
{
    let n = count(cuts);
    (0..n)
        .find(|i| bad_pair(timeout, links, others, cuts, *i))
        .unwrap_or(n)
}

// Refusal 12 of a cut list, for the plan of a row and the other ways of its links, or how many pairs it has.
pub fn check(row: &[u16], others: &[u8], cuts: &[u16]) -> Result<usize, Refusal>
    requires { OtherWays (plan_of row.now) others.now }
    ensures { outcome_of result ≡ check_cuts (plan_of row.now) cuts.now }
{
    let n = count(cuts);
    let i = first_bad(rows::timeout(row), rows::links(row), others, cuts);
    if i < n { refuse(12, i) } else { Ok(n) }
}
