// The least number of arrivals that cuts can leave, as a game: in each slot the breaker picks what else to cut, then the network moves one
// slot, and they alternate until the timeout. The two turns, and a pick of the breaker's, are functions that call each other; with each call
// the slots left, then the links unchosen, fall. A turn is told the least number that is known, and passes over what the bounds of `risks`
// show to leave no fewer. It goes over a `board`, and leans on `picks` for the pairs picked and a slot played under them, and on `order` for the lists that go on from
// there.

#![tactic(auto)]

ghost use Rattle.std.specs.Prelude.{◌+◌, ◌-◌, ◌≤◌, ◌≡◌};
ghost use Rattle.scope.specs.Limits.{most_links, most_messages};
ghost use Rattle.scope.specs.Plan.{plan_of};
ghost use Rattle.scope.specs.Game.{IsLeast};
ghost use Rattle.order.specs.Search.{code};
ghost use Rattle.risks.specs.Weighed.{passes};
ghost use Rattle.risks.specs.Risks.{MayTry};
ghost use Rattle.picks.specs.Picks.{with_pair};
ghost use Rattle.game.specs.Turns.{needed_for, first_worth, worth_picking, Turn, MayBreak, MayPick, Turned, MayPlay};

use board::{Board, Walk};
use picks::Picked;
use risks::{Hits, Rest};
use step::Standing;

// What a list must lose to leave fewer than so many arrivals. No list leaves fewer than none.
fn needed(messages: usize, least: usize) -> usize
    requires { (least ≤ messages) × (messages ≤ most_messages) }
    ensures { (result ≡ needed_for messages least) × (result ≤ 65536) }
{
    if least == 0 {
        65536
    } else {
        bound::need(messages, least)
    }
}

// The first link of slot s that is worth a cut, or how many links there are; none is where no pair may be picked.
fn first_worth(board: &Board, closed: &[u8], need: usize, rest: Rest, n: usize, s: usize) -> usize
    requires { MayTry board.now.weights board.now.most need rest s × (board.now.sizes.links ≤ most_links) }
    ensures { result ≡ first_worth n (passes closed.now board.now.weights board.now.most need rest s) board.now.sizes.links }
{
    let links = board.sizes.links;
    if n == 0 {
        links
    } else {
        risks::next_link(closed, &board.weights, &board.most, need, rest, s, 0, links)
    }
}

// How many pairs are worth picking, where f is the first link that is.
fn worth(n: usize, f: usize, links: usize) -> usize
    ensures { result ≡ worth_picking n f links }
{
    if f < links { n } else { 0 }
}

// In the three turns the parts of a `Walk` are handed on one by one: with one struct figures take up to a third longer, and each slot more stack.

// The breaker picks link e of slot s, the first of n pairs more, and goes on behind it. Whom the pairs hit is asked before it is picked, since
// most picks are in vain.
#[cycle(breaker_network_with_pair)]
fn with_pair(
    row: &[u16],
    board: &Board,
    hits: Hits,
    ps: Standing,
    left: u32,
    p: Picked,
    n: usize,
    s: usize,
    e: usize,
    least: usize,
) -> usize
    requires { MayPick row.now board.now hits ps left p n s e least }
    ensures { Turned row.now (with_pair board.now.sizes p s e) (n - 1) (code s (e + 1)) least result }
{
    let need = needed(board.sizes.messages, least);
    let more = risks::hit(&board.touches, &board.strips, board.sizes, hits, s, e);
    let risk = risks::at_risk(more, left);
    if risks::in_vain(&board.most, need, risk, n - 1, s) {
        return least;
    }
    let q = picks::pick(board.sizes, p, s, e);
    breaker(row, board, more, ps, left, q, n - 1, s, e + 1, least)
}

// The breaker's turn in slot s: with n pairs more, from link e on.
#[cycle(breaker_network_with_pair)]
fn breaker(
    row: &[u16],
    board: &Board,
    hits: Hits,
    ps: Standing,
    left: u32,
    p: Picked,
    n: usize,
    s: usize,
    e: usize,
    least: usize,
) -> usize
    requires { MayBreak row.now board.now hits ps left p n s e least }
    ensures { Turned row.now p n (code s e) least result }
{
    let links = board.sizes.links;
    let messages = board.sizes.messages;
    let (weights, most) = (&board.weights, &board.most);
    let need = needed(messages, least);
    let risk = risks::at_risk(hits, left);
    let rest = risks::losses(risk, risks::wanting(n, 1), most, s);
    let f = first_worth(board, &p.closed, need, rest, n, s);
    let more = worth(n, f, links);
    if more == 0 && risks::too_few(need, risk.lost) {
        return least;
    }
    let mut best = least;
    let from = risks::later(e, f);
    let mut i = risks::next_link(&p.closed, weights, most, need, rest, s, from, links);
    while i < links {
        best = with_pair(row, board, hits, ps, left, p, n, s, i, best);
        let want = needed(messages, best);
        i = risks::next_link(&p.closed, weights, most, want, rest, s, i + 1, links);
    }
    network(row, board, hits, ps, p, more, s, best)
}

// The network's turn in slot s: all messages move. Then it is the breaker's turn again, or the cycle is over.
#[cycle(breaker_network_with_pair)]
fn network(
    row: &[u16],
    board: &Board,
    hits: Hits,
    ps: Standing,
    p: Picked,
    n: usize,
    s: usize,
    least: usize,
) -> usize
    requires { Turn row.now board.now hits ps p n s least }
    ensures { Turned row.now p n (code (s + 1) 0) least result }
{
    let messages = board.sizes.messages;
    let qs = picks::advance(row, &board.table, board.sizes, ps, p);
    let next = s + 1;
    if board.sizes.timeout <= next {
        return least.min(cycle::count_home(qs, messages));
    }
    let left = risks::away(qs, messages);
    breaker(row, board, hits, qs, left, p, n, next, 0, least)
}

// The least number of arrivals over all lists of at most k pairs, where so many are known to be left by one of them.
pub fn play(row: &[u16], board: &Board, k: usize, least: usize) -> usize
    requires { MayPlay row.now board.now k least }
    ensures { IsLeast (plan_of row.now) k result × (result ≤ least) }
{
    let walk = Walk::start(row, board);
    let p = walk.picked;
    breaker(
        row,
        board,
        walk.hits,
        walk.standing,
        walk.left,
        p,
        k,
        p.slot,
        p.link,
        least,
    )
}
