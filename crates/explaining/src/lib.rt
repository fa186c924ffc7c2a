// The walk over cut lists that seeks those whose replay crosses what a table of crossings has: lists are tried in the order of document
// 01's verdict, fewest pairs first. `clues::suspect` is asked before a pair is picked and after each one: it says of most that no list from
// here can match, so that nearly every list that is tried leads to one; no list is tried with fewer pairs than links are named at first;
// where as many links are named as pairs are to come, only these are tried; a link is tried only behind the last slot in which the table
// has its cable crossed, since that is whole there; and where the slot before the next pair differs from the table, no later pair mends it.
// It leans on `cables` for the other way of a link, on `picks` for the pairs picked, on `clues` for what a slot says, on `order` for the
// steps from pair to pair and on `laws` for who crosses a link.

#![tactic(auto)]

ghost use Rattle.std.specs.Prelude.{◌≤◌, ◌≡◌, length};
ghost use Rattle.scope.specs.Limits.{most_slots, crossed_size};
ghost use Rattle.cables.specs.Others.{AreLinks};
ghost use Rattle.explaining.specs.Walk.{is_unseen, is_open, Lasts};
ghost use Rattle.explaining.specs.Walk.{MaySeek, MaySeekIn, Sought, SoughtIn, MayHunt, Hunts};

use clues::{Clue, Suspicion};
use picks::{Picked, Sizes};
use scope::limits::{CUT_NUMBERS, LINKS, MESSAGES};
use step::Standing;

// The first list that matches, with its pairs.
#[derive(Clone, Copy)]
pub struct Hunted {
    pub pairs: usize,
    pub numbers: [u16; CUT_NUMBERS],
}

// For each link one more than the last slot in which a message crosses it or its other way, or 0 where none does.
fn last_seen(crossed: &[u8], z: Sizes) -> [u8; LINKS]
    requires { (length crossed.now ≡ crossed_size) × (z.timeout ≤ most_slots) × AreLinks z.others }
    ensures { Lasts crossed.now z result }
{
    let mut last = [0u8; LINKS];
    let end = z.timeout * MESSAGES;
    for (k, &seen) in crossed[..end].iter().enumerate() {
        let c = seen as usize;
        if k % MESSAGES < z.messages && 0 < c && c <= LINKS {
            let behind = (k / MESSAGES + 1) as u8;
            let other = cables::other(&z.others, c - 1);
            last[c - 1] = behind;
            last[other] = behind;
        }
    }
    last
}

// No message crosses a link or its other way in slot s or later.
fn unseen(last: &[u8], s: usize, e: usize) -> bool
    ensures { result ≡ is_unseen last.now s e }
{
    last.len() <= e || last[e] as usize <= s
}

// A link is to be tried in slot s: it may still be named, nobody crosses its cable from there on and, where all that are to be cut are named,
// it is one of them.
fn open(closed: &[u8], named: &[u8], last: &[u8], all: bool, s: usize, e: usize) -> bool
    ensures { result ≡ is_open closed.now named.now last.now all s e }
{
    !cuts::is_down(closed, e) && unseen(last, s, e) && (!all || cuts::is_down(named, e))
}

// All lists that go on with a pair of slot s, from link e on, and have n pairs more. Where all is true, one that
// matches goes on with a link that is named.
#[cycle(in_slot_level)]
fn in_slot(
    row: &[u16],
    table: &[u8],
    crossed: &[u8],
    z: Sizes,
    ps: Standing,
    p: Picked,
    n: usize,
    named: [u8; LINKS],
    last: [u8; LINKS],
    all: bool,
    s: usize,
    e: usize,
) -> Option<[u16; CUT_NUMBERS]>
    requires { MaySeekIn row.now table.now crossed.now z ps p n named last all s e }
    ensures { SoughtIn row.now crossed.now p n s e result }
{
    for i in e..z.links {
        if open(&p.closed, &named, &last, all, s, i) {
            let q = picks::pick(z, p, s, i);
            if let Some(v) = clues::suspect(row, table, crossed, z, ps, q, n - 1) {
                if let Some(numbers) = level(row, table, crossed, z, ps, q, n - 1, v, last) {
                    return Some(numbers);
                }
            }
        }
    }
    None
}

// All lists with n pairs more, by what the table says of them, where one may match. Up to its next pair's slot a list does what the pairs
// picked do: once that differs, no list goes on.
#[cycle(in_slot_level)]
fn level(
    row: &[u16],
    table: &[u8],
    crossed: &[u8],
    z: Sizes,
    ps: Standing,
    p: Picked,
    n: usize,
    v: Suspicion,
    last: [u8; LINKS],
) -> Option<[u16; CUT_NUMBERS]>
    requires { MaySeek row.now table.now crossed.now z ps p n v last }
    ensures { Sought row.now crossed.now p n result }
{
    if n == 0 {
        return Some(p.numbers);
    }
    let all = v.named == n;
    let mut qs = ps;
    let mut e = p.link;
    for s in p.slot..z.timeout {
        if let Some(numbers) = in_slot(row, table, crossed, z, qs, p, n, v.down, last, all, s, e) {
            return Some(numbers);
        }
        let Clue::Nothing(next) = clues::look(row, table, crossed, z, &p.down, qs) else {
            return None;
        };
        qs = next;
        e = 0;
    }
    None
}

// The first list of at most k pairs that matches. What is said of the lists before a pair is picked holds for each number of pairs, so that it
// is asked once: where no link is named the list without a pair matches, and else none does with fewer pairs than links are named.
pub fn first_list(
    row: &[u16],
    table: &[u8],
    crossed: &[u8],
    z: Sizes,
    ps: Standing,
    k: usize,
) -> Option<Hunted>
    requires { MayHunt row.now table.now crossed.now z ps k }
    ensures { Hunts row.now crossed.now k result }
{
    let p = picks::no_pair(z);
    let v = clues::suspect(row, table, crossed, z, ps, p, k)?;
    if v.named == 0 {
        let numbers = p.numbers;
        return Some(Hunted { pairs: 0, numbers });
    }
    let last = last_seen(crossed, z);
    for n in v.named..=k {
        if let Some(numbers) = level(row, table, crossed, z, ps, p, n, v, last) {
            return Some(Hunted { pairs: n, numbers });
        }
    }
    None
}
