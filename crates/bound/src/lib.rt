// How many messages, and which, a pair of a cut list can harm, as tables that a search is lent: what it touches and strips (`losses`), the
// most from a slot on, and sets of messages. A search needs no more of this than specs/Bounds says, so that a sharper bound can take its
// place. It leans on the table of `table`, on `sets` for sets of messages and on the theorems of `losses`.

#![tactic(auto)]

ghost use Rattle.std.specs.Prelude.{◌≡◌, ◌+◌, ◌-◌, ◌*◌, min, ◌≤◌, ◌<◌, length, EachIndex, slice_index};
ghost use Rattle.scope.specs.Limits.{most_slots, most_links, seconds_size, plane_size, weights_size, tops_size, front_size, fronts_size};
ghost use Rattle.bound.specs.Seconds.{on_link};
ghost use Rattle.cables.specs.Others.{AreLinks};
ghost use Rattle.bound.specs.Weights.{most_on_link, ForLinks, OnLinks, HasRoom, WeighsFrom, Weighs, MayAdd, Added};
ghost use Rattle.bound.specs.Weights.{entries_and, MayAddLink, AddedLink, MayAddOthers, AddedOthers};
ghost use Rattle.bound.specs.Weights.{MayWeigh, WeighsAll, TopOf, Tops, MayTop, TopsEach, TopsAll};
ghost use Rattle.bound.specs.Bounds.{front_of, front_in};
ghost use Rattle.bound.specs.Fronts.{MayFront, Bucketed, RunsDown, FrontRow, Fronts};
ghost use Rattle.bound.specs.Sets.{SetsOf, StripSetsOf, Gathered, Through, MayRow, ThroughRow, MayGatherStrips};

use scope::limits::{FRONT, LINKS, MESSAGES, PLANE, SLOTS};

// The weight of each slot and link: the entries of the table on that link from that slot on, and a number for the link. The numbers stand
// behind the last slot.
fn weigh_from(table: &[u8], links: &[u16; LINKS], slots: usize, weights: &mut [u16])
    requires { HasRoom table.now slots weights.old × ForLinks links.now }
    ensures { WeighsFrom table.now links.now slots weights.new }
{
    let end = slots * LINKS;
    weights[end..end + LINKS].copy_from_slice(links);
    for k in (0..end).rev() {
        weights[k] = weights[k + LINKS] + u16::from(0 < table::entry_at(table, k));
    }
}

// What link o weighs in each slot comes to what link e does.
fn add_link(plane: &mut [u16], slots: usize, e: usize, o: usize)
    requires { MayAddLink slots e o plane.old }
    ensures { AddedLink slots e o plane.old plane.new }
{
    for s in 0..slots {
        plane[table::index(s, e)] += plane[table::index(s, o)];
    }
}

// What the higher link of each cable weighs comes to what the lower one does, which is its name.
fn add_others(others: &[u8], slots: usize, plane: &mut [u16])
    requires { MayAddOthers others.now slots plane.old }
    ensures { AddedOthers others.now slots plane.old plane.new }
{
    for e in 0..LINKS {
        let o = cables::other(others, e);
        if e < o {
            add_link(plane, slots, e, o);
        }
    }
}

// The weight of each slot and link as before, and of the name of a cable with that of its other way.
fn weigh_cables(
    table: &[u8],
    links: &[u16; LINKS],
    others: &[u8],
    slots: usize,
    weights: &mut [u16],
)
    requires { HasRoom table.now slots weights.old × ForLinks links.now × AreLinks others.now }
    ensures { Weighs (entries_and table.now links.now slots) others.now slots weights.new }
{
    weigh_from(table, links, slots, weights);
    add_others(others, slots, weights);
}

// How many messages have link e on the second path of a robust place.
fn on_link(seconds: &[u8], e: usize) -> u16
    requires { (length seconds.now ≡ seconds_size) × (e < most_links) }
    ensures { (result ≡ on_link seconds.now e) × (result ≤ most_on_link) }
{
    let mut sum = 0;
    for &byte in &seconds[e * MESSAGES..(e + 1) * MESSAGES] {
        sum += u16::from(byte);
    }
    sum
}

// Each link's number of them.
fn on_links(seconds: &[u8]) -> [u16; LINKS]
    requires { length seconds.now ≡ seconds_size }
    ensures { OnLinks seconds.now result }
{
    let mut links = [0; LINKS];
    for (e, link) in links.iter_mut().enumerate() {
        *link = on_link(seconds, e);
    }
    links
}

// Both together.
fn weigh_both(touches: &[u16], strips: &[u16], slots: usize, both: &mut [u16])
    requires { MayAdd (slots * most_links) touches.now strips.now both.old }
    ensures { Added touches.now strips.now (slots * most_links) both.new }
{
    for k in 0..slots * LINKS {
        both[k] = touches[k] + strips[k];
    }
}

// The three weights of each slot and link: what a pair touches, what it strips, and both together.
pub fn weigh_all(
    table: &[u8],
    fragile: &[u8],
    seconds: &[u8],
    others: &[u8],
    slots: usize,
    weights: &mut [u16],
)
    requires { MayWeigh table.now fragile.now seconds.now others.now slots weights.old }
    ensures { WeighsAll table.now fragile.now seconds.now others.now slots
        weights.new }
{
    let (touches, rest) = weights.split_at_mut(PLANE);
    let (strips, both) = rest.split_at_mut(PLANE);
    weigh_cables(table, &[0; LINKS], others, slots, touches);
    weigh_cables(fragile, &on_links(seconds), others, slots, strips);
    weigh_both(touches, strips, slots, both);
}

// The most in a row.
fn largest(row: &[u16]) -> u16
    ensures { EachIndex row.now (λ e. slice_index row.now e ≤ result) }
{
    row.iter().copied().max().unwrap_or(0)
}

// The most that a pair of slot s weighs.
fn top_of(weights: &[u16], s: usize) -> u16
    requires { (length weights.now ≡ plane_size) × (s < most_slots) }
    ensures { TopOf weights.now s result }
{
    largest(&weights[s * LINKS..(s + 1) * LINKS])
}

// For each slot the most that a pair from there on weighs.
fn tops(weights: &[u16], slots: usize, most: &mut [u16])
    requires { (length weights.now ≡ plane_size) × (slots ≤ most_slots) × (length most.old ≡ most_slots) }
    ensures { Tops weights.now slots most.new }
{
    let mut top = 0;
    for s in (0..slots).rev() {
        top = top.max(top_of(weights, s));
        most[s] = top;
    }
}

// Of each of the three weights.
fn tops_each(weights: &[u16], slots: usize, most: &mut [u16])
    requires { MayTop weights.now slots most.old }
    ensures { TopsEach weights.now slots most.new }
{
    for j in 0..3 {
        tops(
            &weights[j * PLANE..(j + 1) * PLANE],
            slots,
            &mut most[j * SLOTS..(j + 1) * SLOTS],
        );
    }
}

// The place for a slot and a count of messages, of which there can be no more than so many.
fn front_of(s: usize, x: usize) -> usize
    requires { s < most_slots }
    ensures { (result ≡ front_of s x) × (result < fronts_size) }
{
    s * FRONT + x.min(MESSAGES)
}

// The most that one pair of slot s strips which touches at least x messages.
pub fn front(most: &[u16], s: usize, x: usize) -> usize
    requires { (length most.now ≡ tops_size) × (s < most_slots) }
    ensures { (result ≡ front_in most.now s x) × (result < 65536) }
{
    usize::from(most[3 * SLOTS + front_of(s, x)])
}

// For each count of messages the most that a link of one slot strips which touches so many; no number falls.
fn bucket(touches: &[u16], strips: &[u16], row: &mut [u16])
    requires { (length touches.now ≡ most_links) × (length strips.now ≡ most_links) × (length row.old ≡ front_size) }
    ensures { Bucketed touches.now strips.now most_links row.new }
{
    for (&touched, &stripped) in touches.iter().zip(strips) {
        let x = usize::from(touched).min(MESSAGES);
        if row[x] < stripped {
            row[x] = stripped;
        }
    }
}

// Each number at least those for more messages.
fn run_down(row: &mut [u16])
    requires { length row.old ≡ front_size }
    ensures { RunsDown row.old row.new }
{
    let mut top = 0;
    for x in (0..FRONT).rev() {
        top = top.max(row[x]);
        row[x] = top;
    }
}

// The row of slot s: for each count of messages the most that a pair strips which touches at least so many, where the numbers are 0 before.
fn front_row(weights: &[u16], s: usize, row: &mut [u16])
    requires { (length weights.now ≡ weights_size) × (s < most_slots) × (length row.old ≡ front_size) }
    ensures { FrontRow weights.now s row.new }
{
    bucket(
        &weights[s * LINKS..(s + 1) * LINKS],
        &weights[PLANE + s * LINKS..PLANE + (s + 1) * LINKS],
        row,
    );
    run_down(row);
}

// The rows of all slots, one after another.
fn fronts(weights: &[u16], slots: usize, fronts: &mut [u16])
    requires { MayFront weights.now slots fronts.old }
    ensures { Fronts weights.now slots fronts.new }
{
    for s in 0..slots {
        front_row(weights, s, &mut fronts[s * FRONT..(s + 1) * FRONT]);
    }
}

// All that a search asks of later pairs.
pub fn tops_all(weights: &[u16], slots: usize, most: &mut [u16])
    requires { MayTop weights.now slots most.old }
    ensures { TopsAll weights.now slots most.new }
{
    tops_each(weights, slots, most);
    fronts(weights, slots, &mut most[3 * SLOTS..]);
}

// What a list must weigh at least that leaves fewer than `least` of so many messages.
pub fn need(messages: usize, least: usize) -> usize
    requires { (least ≤ messages) × (messages ≤ 65536) }
    ensures { result ≡ messages + 1 - least }
{
    messages + 1 - least
}

// The set of each slot and link: those in the set of the next slot, and whom the table names.
// It goes as `weigh_from` does, but sums need a bound that sets do not.
fn gather(table: &[u8], slots: usize, sets: &mut [u32])
    requires { HasRoom table.now slots sets.old }
    ensures { Gathered table.now slots sets.old sets.new }
{
    for k in (0..slots * LINKS).rev() {
        sets[k] = sets::either(sets[k + LINKS], sets::named(table::entry_at(table, k)));
    }
}

// The sets of those that a pair touches.
pub fn touch_sets(table: &[u8], slots: usize, sets: &mut [u32])
    requires { HasRoom table.now slots sets.old }
    ensures { SetsOf table.now slots sets.new }
{
    gather(table, slots, sets);
}

// The set of those who have link e on the second path of a robust place.
fn through(seconds: &[u8], e: usize) -> u32
    requires { (length seconds.now ≡ seconds_size) × (e < most_links) }
    ensures { Through seconds.now e result }
{
    let mut set = 0;
    for (m, &byte) in seconds[e * MESSAGES..(e + 1) * MESSAGES].iter().enumerate() {
        set = sets::either(set, sets::one_if(byte != 0, m));
    }
    set
}

// Such a set for each link, in one row of a plane.
fn through_row(seconds: &[u8], s: usize, sets: &mut [u32])
    requires { MayRow seconds.now s sets.old }
    ensures { ThroughRow seconds.now s sets.new }
{
    for e in 0..LINKS {
        sets[table::index(s, e)] = through(seconds, e);
    }
}

// The sets of those that a pair strips.
pub fn strip_sets(fragile: &[u8], seconds: &[u8], slots: usize, sets: &mut [u32])
    requires { MayGatherStrips fragile.now seconds.now slots sets.old }
    ensures { StripSetsOf fragile.now seconds.now slots sets.new }
{
    through_row(seconds, slots, sets);
    gather(fragile, slots, sets);
}
