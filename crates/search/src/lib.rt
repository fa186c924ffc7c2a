// The search for a failing list: lists are tried in the order of document 01's verdict, fewest pairs first; a list is played from its last
// pair on, and lists that a bound shows not to answer are passed over. What is asked of a list only `answers` knows, and `hopeless` that
// no list from here can answer. Of the bound it knows only specs/Bounds of `bound`. It goes over a `board`, and leans on `picks` for the pairs
// picked and a slot played under them, on `order` for the steps from pair to pair and the first list, on `sets` for sets of messages, on
// `cycle` for the arrivals and on the theorems of `laws`. What `picks` and `order` say serves two questions: this one, and which list
// explains a capture.

#![tactic(auto)]

ghost use Rattle.std.specs.Prelude.{◌+◌, ◌-◌, ◌<◌, ◌≡◌, ltb};
ghost use Rattle.picks.specs.Picks.{with_pair};
ghost use Rattle.search.specs.Hunt.{MaySeek, MayGoOn, MaySeekIn, Sought, SoughtIn, MayHunt, Hunts};

use board::{Board, Walk};
use risks::Rest;
use scope::limits::CUT_NUMBERS;

// What is asked of a plan: a list that leaves fewer arrivals than `least`, and what such a list must weigh.
#[derive(Clone, Copy)]
pub struct Asked {
    pub least: usize,
    pub need: usize,
}

// A list that answers: its pairs and its arrivals, and its numbers with zeros behind them.
#[derive(Clone, Copy)]
pub struct Found {
    pub pairs: usize,
    pub arrivals: usize,
    pub numbers: [u16; CUT_NUMBERS],
}

// This list answers: it leaves too few arrivals.
fn answers(least: usize, arrivals: usize) -> bool
    ensures { result ≡ ltb arrivals least }
{
    arrivals < least
}

// The list picked, played from its last pair on as long as enough messages can be lost.
fn play_out(row: &[u16], board: &Board, a: Asked, walk: Walk) -> Option<Found>
    requires { MaySeek row.now board.now a walk 0 }
    ensures { Sought row.now a walk.picked 0 result }
{
    let p = walk.picked;
    let mut standing = walk.standing;
    let mut left = walk.left;
    for _i in p.slot..board.sizes.timeout {
        let risk = risks::at_risk(walk.hits, left);
        if risks::too_few(a.need, risk.lost) {
            return None;
        }
        standing = picks::advance(row, &board.table, board.sizes, standing, p);
        left = risks::away(standing, board.sizes.messages);
    }
    let arrivals = cycle::count_home(standing, board.sizes.messages);
    if answers(a.least, arrivals) {
        let numbers = p.numbers;
        Some(Found {
            pairs: p.count,
            arrivals,
            numbers,
        })
    } else {
        None
    }
}

// All lists that go on with the pair of slot s and link e and have n pairs more, that one among them. Whom they hit is asked before the pair
// is picked, since most are in vain.
#[cycle(in_slot_level_with_pair)]
fn with_pair(
    row: &[u16],
    board: &Board,
    a: Asked,
    walk: Walk,
    n: usize,
    s: usize,
    e: usize,
) -> Option<Found>
    requires { MayGoOn row.now board.now a walk n s e }
    ensures { Sought row.now a (with_pair board.now.sizes walk.picked s e) (n - 1) result }
{
    let more = risks::hit(&board.touches, &board.strips, board.sizes, walk.hits, s, e);
    let risk = risks::at_risk(more, walk.left);
    if risks::in_vain(&board.most, a.need, risk, n - 1, s) {
        return None;
    }
    let picked = picks::pick(board.sizes, walk.picked, s, e);
    let longer = Walk {
        picked,
        hits: more,
        ..walk
    };
    level(row, board, a, longer, n - 1)
}

// All lists that go on with a pair of slot s, from link e on, and have n pairs more, where so much can be lost besides that pair.
#[cycle(in_slot_level_with_pair)]
fn in_slot(
    row: &[u16],
    board: &Board,
    a: Asked,
    walk: Walk,
    n: usize,
    s: usize,
    e: usize,
    rest: Rest,
) -> Option<Found>
    requires { MaySeekIn row.now board.now a walk n s e rest }
    ensures { SoughtIn row.now a walk.picked n s e result }
{
    let links = board.sizes.links;
    let (weights, most) = (&board.weights, &board.most);
    let mut i = risks::next_link(
        &walk.picked.closed,
        weights,
        most,
        a.need,
        rest,
        s,
        e,
        links,
    );
    while i < links {
        if let Some(found) = with_pair(row, board, a, walk, n, s, i) {
            return Some(found);
        }
        i = risks::next_link(
            &walk.picked.closed,
            weights,
            most,
            a.need,
            rest,
            s,
            i + 1,
            links,
        );
    }
    None
}

// All lists with n pairs more, from where a walk stands. Where no link of a slot may be tried, none of a later slot may; and none before the first that may be is looked at again.
#[cycle(in_slot_level_with_pair)]
fn level(row: &[u16], board: &Board, a: Asked, walk: Walk, n: usize) -> Option<Found>
    requires { MaySeek row.now board.now a walk n }
    ensures { Sought row.now a walk.picked n result }
{
    if n == 0 {
        return play_out(row, board, a, walk);
    }
    let links = board.sizes.links;
    let (weights, most) = (&board.weights, &board.most);
    let p = walk.picked;
    let mut standing = walk.standing;
    let mut left = walk.left;
    let mut e = p.link;
    for s in p.slot..board.sizes.timeout {
        let risk = risks::at_risk(walk.hits, left);
        let rest = risks::losses(risk, n - 1, most, s);
        let f = risks::next_link(&p.closed, weights, most, a.need, rest, s, 0, links);
        if links <= f {
            return None;
        }
        let from = risks::later(e, f);
        let now = Walk {
            standing,
            left,
            ..walk
        };
        if let Some(found) = in_slot(row, board, a, now, n, s, from, rest) {
            return Some(found);
        }
        standing = picks::advance(row, &board.table, board.sizes, standing, p);
        left = risks::away(standing, board.sizes.messages);
        e = 0;
    }
    None
}

// The first list of at most k pairs that answers, where those of fewer than `low` pairs are known not to.
pub fn first_list(row: &[u16], board: &Board, a: Asked, low: usize, k: usize) -> Option<Found>
    requires { MayHunt row.now board.now a low k }
    ensures { Hunts row.now a.least k result }
{
    let walk = Walk::start(row, board);
    for n in low..k + 1 {
        if let Some(found) = level(row, board, a, walk, n) {
            return Some(found);
        }
    }
    None // no list of at most k pairs answers
}
