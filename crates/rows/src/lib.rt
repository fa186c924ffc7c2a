// Looking at a row: the number at an index, and where messages, places and second paths stand; and numbers copied into the front of
// others. Every read is total, 0 past the end, so no function here asks that a row is good. It leans on specs/ of `scope` (Plan,
// SecondPath) alone.
//
// A place takes at most 65540 numbers, and there are at most 65536 places and messages, whatever the row: so every index stays far
// below the largest `usize`, and each contract says how far.

#![tactic(auto)]

ghost use Rattle.std.specs.Prelude.{◌≡◌, ◌++◌, ◌+◌, ◌*◌, ◌<◌, ◌≤◌, ◌^◌, false, length, drop, MatchOption};
ghost use Rattle.scope.specs.Outcome.{gives};
ghost use Rattle.scope.specs.Row.{walk_row};
ghost use Rattle.scope.specs.Plan.{slot_at, after_places, after_message, vertex_count, link_count, message_count, timeout_of, place_count};
ghost use Rattle.scope.specs.SecondPath.{message_index, place_index, has_second};
ghost use Rattle.rows.specs.View.{Number, Is, IsPlace, IsSpan, PartAt, second_part, second_index};

// The number at an index of a row, 0 past its end.
pub fn number(row: &[u16], i: usize) -> usize
    ensures { Number row.now i result }
{
    if i < row.len() { row[i] as usize } else { 0 }
}

// V, E, M and t: the row has each less one.
pub fn vertices(row: &[u16]) -> usize
    ensures { Is (vertex_count row.now) 65536 result }
{
    number(row, 1) + 1
}

pub fn links(row: &[u16]) -> usize
    ensures { Is (link_count row.now) 65536 result }
{
    number(row, 2) + 1
}

pub fn messages(row: &[u16]) -> usize
    ensures { Is (message_count row.now) 65536 result }
{
    number(row, 3) + 1
}

pub fn timeout(row: &[u16]) -> usize
    ensures { Is (timeout_of row.now) 65536 result }
{
    number(row, 4) + 1
}

// How many places the message at an index has.
pub fn place_count(row: &[u16], i: usize) -> usize
    ensures { Is (place_count row.now i) 65536 result }
{
    number(row, i) + 1
}

// The slot of the place at an index, for whoever asks for no more.
pub fn place_slot(row: &[u16], i: usize) -> usize
    requires { i < 2 ^ 62 }
    ensures { Is (slot_at row.now i) 65535 result }
{
    number(row, i + 1)
}

// A place as the row has it: its link and slot, where its second path begins and how many links that has, 0 where there is none, and
// where the next place stands. What a place's numbers are is known to these two alone.
#[derive(Clone, Copy)]
pub struct RowPlace {
    pub link: usize,
    pub slot: usize,
    pub second: usize,
    pub count: usize,
    pub next: usize,
}

pub fn place_at(row: &[u16], i: usize) -> RowPlace
    requires { i < 2 ^ 62 }
    ensures { IsPlace row.now i result }
{
    let link = number(row, i);
    let slot = place_slot(row, i);
    let second = i + 4;
    if number(row, i + 2) == 1 {
        let count = number(row, i + 3) + 1;
        return RowPlace {
            link,
            slot,
            second,
            count,
            next: second + count,
        };
    }
    RowPlace {
        link,
        slot,
        second,
        count: 0,
        next: i + 3,
    }
}

// The index after so many places.
#[tactic(auto, using(crate::proofs::Index::places_suc), unfolding(scope::specs::Plan::after_places))]
pub fn after_places(row: &[u16], i: usize, n: usize) -> usize
    requires { (i < 2 ^ 61) × (n ≤ 65536) }
    ensures { Is (after_places row.now i n) (i + n * 65540) result }
{
    let mut at = i;
    for _k in 0..n {
        let here = place_at(row, at);
        at = here.next;
    }
    at
}

// The index after the message at an index.
pub fn after_message(row: &[u16], i: usize) -> usize
    requires { i < 2 ^ 60 }
    ensures { Is (after_message row.now i) (i + 4295229441) result }
{
    after_places(row, i + 1, place_count(row, i))
}

// Where message m stands.
#[tactic(auto, using(crate::proofs::Index::messages_suc), unfolding(scope::specs::Plan::after_messages))]
pub fn message_index(row: &[u16], m: usize) -> usize
    requires { m ≤ 65536 }
    ensures { Is (message_index row.now m) (131077 + m * 4295229441) result }
{
    let mut at = links(row) * 2 + 5;
    for _k in 0..m {
        at = after_message(row, at);
    }
    at
}

// Where place p of message m stands.
pub fn place_index(row: &[u16], m: usize, p: usize) -> usize
    requires { (m ≤ 65536) × (p ≤ 65536) }
    ensures { Is (place_index row.now m p) (131078 + m * 4295229441 + p * 65540) result }
{
    after_places(row, message_index(row, m) + 1, p)
}

// Where a second path stands in a row, from one index to another. A `Range` is no `Copy`.
#[derive(Clone, Copy)]
pub struct Span {
    pub from: usize,
    pub to: usize,
}

// Where the second path of message m from place p stands in a row, if there is one.
pub fn second_span(row: &[u16], m: usize, p: usize) -> Option<Span>
    ensures { MatchOption result (has_second row.now m p ≡ false) (IsSpan row.now m p) }
{
    if messages(row) <= m {
        return None;
    }
    let i = message_index(row, m);
    if place_count(row, i) <= p {
        return None;
    }
    let here = place_at(row, after_places(row, i + 1, p));
    if here.count == 0 {
        return None;
    }
    Some(Span {
        from: here.second,
        to: here.next,
    })
}

// The second path of message m from place p, as a part of the row: length 0 where there is no such message, place or second path.
pub fn second_path_part(row: &[u16], m: usize, p: usize) -> &[u16]
    requires { walk_row row.now ≡ gives (length row.now) }
    ensures { PartAt (second_part row.now m p) (second_index row.now m p) row.entry.ref_ptr result.now result.ref_ptr }
{
    match second_span(row, m, p) {
        Some(span) => &row[span.from..span.to],
        None => &row[..0],
    }
}

// One list of numbers into the front of another.
pub fn copy(from: &[u16], to: &mut [u16])
    requires { length from.now ≤ length to.old }
    ensures { to.new ≡ from.now ++ drop (length from.now) to.old }
{
    to[..from.len()].copy_from_slice(from);
}
