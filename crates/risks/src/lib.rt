// What the pairs picked and those to come can lose: whom a list touches and strips, how many of these are away, and which links are worth a
// cut, as far as lists that leave too few arrivals are sought. Two walks over cut lists lean on it: the search for a failing list and the
// game for the least arrivals. It leans on `bound` for the weights and on `sets` for sets of messages.

#![tactic(auto)]

ghost use Rattle.std.specs.Prelude.{◌+◌, ◌-◌, ◌*◌, ◌<◌, ◌≤◌, ◌≡◌, length, get_or, ltb};
ghost use Rattle.scope.specs.Limits.{most_cuts, most_slots, most_links, most_messages, plane_size};
ghost use Rattle.scope.specs.Lowest.{seek};
ghost use Rattle.risks.specs.Weighed.{no_hits, rest_of, strips_with, loss_with, too_light, in_vain, passes, Fits, AreAway};
ghost use Rattle.risks.specs.Risks.{risks_of, MayHit, IsHitIn, IsHit, MayWeigh, MayStrip, MayTry};

use picks::Sizes;
use scope::limits::{PLANE, SLOTS};
use step::Standing;

// The sets of messages that the pairs picked touch and strip.
#[derive(Clone, Copy)]
pub struct Hits {
    pub touched: u32,
    pub stripped: u32,
}

// How many messages, of those that are not at their targets, the pairs picked touch, strip, and both touch and strip.
#[derive(Clone, Copy)]
pub struct Risk {
    pub touched: usize,
    pub stripped: usize,
    pub lost: usize,
}

// How many messages can be touched and stripped, and how many of both together, where some pairs are still to come.
#[derive(Clone, Copy)]
pub struct Loss {
    pub touches: usize,
    pub strips: usize,
    pub both: usize,
}

// The same without the next pair, after which so many pairs are still to come; and how many messages the pairs picked touch and strip.
#[derive(Clone, Copy)]
pub struct Rest {
    pub touched: usize,
    pub stripped: usize,
    pub pairs: usize,
    pub loss: Loss,
}

// A list cannot answer, if it loses no more messages than so many.
pub fn too_few(need: usize, lost: usize) -> bool
    ensures { result ≡ ltb lost need }
{
    lost < need
}

// No list from here can answer: it touches too few messages, or strips too few, or too few together, counted in halves.
fn hopeless(need: usize, loss: Loss) -> bool
    requires { need ≤ 65536 }
    ensures { result ≡ too_light need loss }
{
    loss.touches < need || loss.strips < need || loss.both < 2 * need
}

// The number at an index.
fn at(numbers: &[u16], k: usize) -> usize
    requires { k < length numbers.now }
    ensures { (result ≡ get_or numbers.now k 0) × (result < 65536) }
{
    usize::from(numbers[k])
}

// How many messages can be lost where so many are at risk and n pairs more are to come.
fn heaviest(risk: usize, n: usize, top: usize) -> usize
    requires { (risk ≤ 65536) × (n ≤ most_cuts) × (top < 65536) }
    ensures { (result ≡ risk + n * top) × (result ≤ 262144) }
{
    risk + n * top
}

// What can be lost where so many messages are at risk and n pairs more are to come, none before slot s.
pub fn losses(risk: Risk, n: usize, most: &[u16], s: usize) -> Rest
    requires { MayWeigh risk n most.now s }
    ensures { (result ≡ rest_of risk n most.now s) × Fits result }
{
    let touches = heaviest(risk.touched, n, at(most, s));
    let strips = heaviest(risk.stripped, n, at(most, SLOTS + s));
    let both = heaviest(risk.touched + risk.stripped, n, at(most, 2 * SLOTS + s));
    Rest {
        touched: risk.touched,
        stripped: risk.stripped,
        pairs: n,
        loss: Loss {
            touches,
            strips,
            both,
        },
    }
}

// No list with n pairs more from slot s on can answer, where so many messages are at risk: with none it loses too few as it is, and with some
// not even the heaviest pairs can make up what is wanting.
pub fn in_vain(most: &[u16], need: usize, risk: Risk, n: usize, s: usize) -> bool
    requires { MayWeigh risk n most.now s × (need ≤ 65536) }
    ensures { result ≡ in_vain risk n most.now need s }
{
    if n == 0 {
        return too_few(need, risk.lost);
    }
    hopeless(need, losses(risk, n, most, s).loss)
}

// What is still wanting.
pub fn wanting(need: usize, has: usize) -> usize
    ensures { result ≡ need - has }
{
    need.saturating_sub(has)
}

// How many messages can be stripped with a pair that touches and strips so many: one last pair must touch what is then still wanting.
fn stripped(most: &[u16], need: usize, rest: Rest, s: usize, touches: usize, strips: usize) -> usize
    requires { MayStrip most.now need rest s touches strips }
    ensures { result ≡ strips_with rest most.now need s touches strips }
{
    if rest.pairs == 1 {
        rest.stripped + strips + bound::front(most, s, wanting(need, rest.touched + touches))
    } else {
        rest.loss.strips + strips
    }
}

// What can be lost with one pair more.
fn weighed(weights: &[u16], most: &[u16], need: usize, rest: Rest, s: usize, e: usize) -> Loss
    requires { MayTry weights.now most.now need rest s × (e < most_links) }
    ensures { result ≡ loss_with rest weights.now most.now need s e }
{
    let k = table::index(s, e);
    let touches = at(weights, k);
    let strips = at(weights, PLANE + k);
    let both = at(weights, 2 * PLANE + k);
    let all = stripped(most, need, rest, s, touches, strips);
    Loss {
        touches: rest.loss.touches + touches,
        strips: all,
        both: rest.loss.both + both,
    }
}

// A link may still be named, and a list that goes on with it can answer. Most links weigh too little, and are asked no more.
fn may(
    closed: &[u8],
    weights: &[u16],
    most: &[u16],
    need: usize,
    rest: Rest,
    s: usize,
    e: usize,
) -> bool
    requires { MayTry weights.now most.now need rest s × (e < most_links) }
    ensures { result ≡ passes closed.now weights.now most.now need rest s e }
{
    !hopeless(need, weighed(weights, most, need, rest, s, e)) && !cuts::is_down(closed, e)
}

// The first link from e on that may be tried, or how many links there are.
pub fn next_link(
    closed: &[u8],
    weights: &[u16],
    most: &[u16],
    need: usize,
    rest: Rest,
    s: usize,
    e: usize,
    links: usize,
) -> usize
    requires { MayTry weights.now most.now need rest s × (e ≤ links) × (links ≤ most_links) }
    ensures { result ≡ seek (passes closed.now weights.now most.now need rest s) (links - e) e }
{
    // A loop and not `find`, by which the slowest plans took a sixth longer.
    for i in e..links {
        if may(closed, weights, most, need, rest, s, i) {
            return i;
        }
    }
    links
}

// The later of two links of a slot.
pub fn later(e: usize, f: usize) -> usize
    ensures { result ≡ e + (f - e) }
{
    e.max(f)
}

// Of the first n messages the set of those that are not at their targets.
pub fn away(standing: Standing, n: usize) -> u32
    requires { n ≤ most_messages }
    ensures { AreAway standing.positions n result }
{
    let mut set = 0;
    for (m, p) in standing.positions()[..n].iter().enumerate() {
        set = sets::either(set, sets::one_if(p.left != 0, m));
    }
    set
}

// How many of those that are away the pairs picked touch, strip, and both touch and strip.
pub fn at_risk(hits: Hits, away: u32) -> Risk
    ensures { result ≡ risks_of hits away }
{
    Risk {
        touched: sets::count(sets::both(hits.touched, away)),
        stripped: sets::count(sets::both(hits.stripped, away)),
        lost: sets::count(sets::both(sets::both(hits.touched, hits.stripped), away)),
    }
}

// Nobody is hit by no pair.
pub fn no_hits() -> Hits
    ensures { result ≡ no_hits }
{
    Hits {
        touched: 0,
        stripped: 0,
    }
}

// Those of a set, and of the sets of two links in a slot.
fn hit_in(sets: &[u32], old: u32, s: usize, e: usize, o: usize) -> u32
    requires { (length sets.now ≡ plane_size) × (s < most_slots) × (e < most_links) × (o < most_links) }
    ensures { IsHitIn sets.now s e o old result }
{
    let one = sets[table::index(s, e)];
    let other = sets[table::index(s, o)];
    sets::either(old, sets::either(one, other))
}

// Those that are hit with one pair more, either way of its cable.
pub fn hit(touches: &[u32], strips: &[u32], z: Sizes, hits: Hits, s: usize, e: usize) -> Hits
    requires { MayHit touches.now strips.now z s e }
    ensures { IsHit touches.now strips.now z hits s e result }
{
    let o = cables::other(&z.others, e);
    Hits {
        touched: hit_in(touches, hits.touched, s, e, o),
        stripped: hit_in(strips, hits.stripped, s, e, o),
    }
}
