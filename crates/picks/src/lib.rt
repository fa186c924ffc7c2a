// The pairs that a search has picked so far: none, one more, and where the messages stand one slot on under them. What is asked of the
// lists that go on from here is not known here: the search for the verdict and the one for a capture lean on it alike. It leans on `cables`
// for the names of cables, on `cuts` for what is down, on `step` for a slot and on `order` for what makes pairs a cut list.

#![tactic(auto)]

ghost use Rattle.std.specs.Prelude.{◌+◌, ◌<◌, ◌≡◌};
ghost use Rattle.scope.specs.Limits.{most_cuts, most_slots, most_links};
ghost use Rattle.cables.specs.Others.{AreLinks};
ghost use Rattle.picks.specs.Picks.{cuts_of, with_pair, no_pair, StandAt, MayAdvance};

use scope::limits::{CUT_NUMBERS, LINKS};
use step::Standing;

// The sizes of a plan, its timeout, links and messages; and the other way of each link.
#[derive(Clone, Copy)]
pub struct Sizes {
    pub timeout: usize,
    pub links: usize,
    pub messages: usize,
    pub others: [u8; LINKS],
}

// The pairs picked so far: how many, the place from which the next one is to be picked, their numbers, what is down from the last one's slot
// on, and which links no later pair may name: those that are named already, and those that are the higher ones of their cables. The numbers
// stand at the front of an array of fixed size.
#[derive(Clone, Copy)]
pub struct Picked {
    pub count: usize,
    pub slot: usize,
    pub link: usize,
    pub numbers: [u16; CUT_NUMBERS],
    pub down: [u8; LINKS],
    pub closed: [u8; LINKS],
}

pub fn no_pair(z: Sizes) -> Picked
    ensures { result ≡ no_pair z }
{
    let others = z.others;
    let closed = cables::higher(&others);
    Picked {
        count: 0,
        slot: 0,
        link: 0,
        numbers: [0u16; CUT_NUMBERS],
        down: [0u8; LINKS],
        closed,
    }
}

// One pair more: both ways of its cable are down.
pub fn pick(z: Sizes, p: Picked, s: usize, e: usize) -> Picked
    requires { (p.count < most_cuts) × (s < most_slots) × (e < most_links) × AreLinks z.others }
    ensures { result ≡ with_pair z p s e }
{
    let others = z.others;
    let o = cables::other(&others, e);
    let at = 2 * p.count;
    let mut q = p;
    q.count = p.count + 1;
    q.slot = s;
    q.link = e + 1;
    q.numbers[at] = s as u16;
    q.numbers[at + 1] = e as u16;
    q.down[e] = 1;
    q.down[o] = 1;
    q.closed[e] = 1;
    q
}

// Where the messages stand one slot on, under the list picked.
pub fn advance(row: &[u16], table: &[u8], z: Sizes, standing: Standing, p: Picked) -> Standing
    requires { MayAdvance row.now table.now z standing p }
    ensures { StandAt row.now z.messages (cuts_of p) (standing.time.0 + 1) result }
{
    let down = p.down;
    let time = standing.time();
    let i = time.begins(z.timeout);
    standing.after(i, z.messages, row, table, &down)
}
