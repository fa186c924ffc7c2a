// What a capture says of the cuts: a slot is played and held against the table of crossings, up to the foremost message that differs: it
// names a link that every list with these crossings has cut by then, or there is no such list. `look` reads one slot; `suspect` cuts the
// cables of what is named, slot by slot, and says that no list with at most so many pairs more has the crossings of the table, or how many
// links such a list cuts at least, and which where it cuts no more. That a link is named at all is `Named` of `laws`; it leans on `cables`
// for the other way of a link, on `step` for a slot, on `picks` for the pairs picked and on `order` for lists with one pair more.

#![tactic(auto)]

ghost use Rattle.std.specs.Prelude.{◌+◌, ◌*◌, ◌<◌, ◌≡◌};
ghost use Rattle.step.specs.Events.{event_of};
ghost use Rattle.clues.specs.Clues.{clue_of, MayLook, Looked, MaySuspect, Suspected};

use picks::{Picked, Sizes};
use scope::limits::{LINKS, MESSAGES};
use step::{Event, Standing};

// What a slot says of the cuts: nothing, where its crossings are those of the table, and then where the messages stand after it; a link that
// is cut; or that there is no list.
#[derive(Clone, Copy)]
pub enum Clue {
    Nothing(Standing),
    Link(usize),
    Dead,
}

// What the table says of the lists that go on from here, where one may have its crossings: how many links are named, and what is down with
// all that are.
#[derive(Clone, Copy)]
pub struct Suspicion {
    pub named: usize,
    pub down: [u8; LINKS],
}

// What the event of the foremost message that differs says.
fn clue_of(event: Event) -> Clue
    ensures { result ≡ clue_of (event_of event) }
{
    match event {
        Event::Waits(link) | Event::Crosses(link) | Event::CrossesSecond(link) => {
            Clue::Link(link as usize)
        }
        _ => Clue::Dead,
    }
}

// The slot that begins now, under what is down: what it says, and where the messages stand after it.
pub fn look(row: &[u16], table: &[u8], crossed: &[u8], z: Sizes, down: &[u8], ps: Standing) -> Clue
    requires { MayLook row.now table.now crossed.now z ps }
    ensures { Looked row.now crossed.now z down.now ps result }
{
    let i = ps.time().begins(z.timeout);
    let from = i.number() * MESSAGES;
    let end = from + MESSAGES;
    match ps.watched(i, z.messages, row, table, down, &crossed[from..end]) {
        Ok(next) => Clue::Nothing(next),
        Err(other) => clue_of(other.event),
    }
}

// Lists that go on from the pairs picked with at most n pairs more: the pairs picked are played on, and the cable of each link that a slot
// names is cut from that slot on. Where more than n links are named, or none can be, no such list has the crossings of the table. Else none
// has them with fewer pairs more than links are named, and one that has them with as many cuts no other cable. Where nothing is named, the
// pairs picked have them.
pub fn suspect(
    row: &[u16],
    table: &[u8],
    crossed: &[u8],
    z: Sizes,
    ps: Standing,
    p: Picked,
    n: usize,
) -> Option<Suspicion>
    requires { MaySuspect row.now table.now crossed.now z ps p }
    ensures { Suspected row.now crossed.now p n result }
{
    let mut down = p.down;
    let mut qs = ps;
    let mut named = 0;
    let mut i = p.slot;
    while i < z.timeout {
        match look(row, table, crossed, z, &down, qs) {
            Clue::Nothing(next) => {
                qs = next;
                i += 1;
            }
            Clue::Link(x) => {
                if named == n {
                    return None;
                }
                let other = cables::other(&z.others, x);
                down[x] = 1;
                down[other] = 1;
                named += 1;
            }
            Clue::Dead => return None,
        }
    }
    Some(Suspicion { named, down })
}
