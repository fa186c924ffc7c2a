// Whether one link or one message breaks a rule: the tests of refusals 5, 8 and 9, of refusal 6 the lowest link at once, and of the rules of
// paths the earliest one that the first path, or a second path, of a message breaks, with the place and the step. Each is its namesake in
// specs/ of `scope` (Good, PathRules) on the plan of a row; a message is told by its index. It leans on `rows`, `paths` and `table`.

#![tactic(auto)]

ghost use Rattle.std.specs.Prelude.{◌≡◌, ◌+◌, ◌<◌, ◌≤◌, ◌^◌, length};
ghost use Rattle.scope.specs.Limits.{most_places};
ghost use Rattle.scope.specs.Plan.{plan_of, link_count, place_at, message_at, place_size, place_count};
ghost use Rattle.scope.specs.Good.{bad_ends, repeats};
ghost use Rattle.rows.specs.Lies.{MessageLies, PlanLies};
ghost use Rattle.faults.specs.Broken.{LowestOf, broken_slots, held_below, FirstFault, SecondFault, SecondsFault, PlaceFault, second_of};

use paths::{Fault, Rule, earlier, fault_in};
use scope::limits::{PLACES, VERTICES};

// Refusal 5: an end of link e is not below V, or both are equal.
pub fn bad_ends(row: &[u16], e: usize) -> bool
    requires { e < 65536 }
    ensures { result ≡ bad_ends (plan_of row.now) e }
{
    let v = rows::vertices(row);
    let ends = paths::ends_at(row, e);
    v <= ends.from || v <= ends.to || ends.from == ends.to
}

// Refusal 6: the lowest link that repeats an earlier one. A set for each vertex: where links lead from it.
pub fn lowest_repeat(row: &[u16]) -> Option<usize>
    requires { PlanLies row.now }
    ensures { LowestOf (repeats (plan_of row.now)) (link_count row.now) result }
{
    let mut met = [0u64; VERTICES];
    for e in 0..rows::links(row) {
        let ends = paths::ends_of(row, e);
        let there = met[ends.from];
        if sets::holds(there, ends.to) {
            return Some(e);
        }
        met[ends.from] = sets::with(there, ends.to);
    }
    None
}

// The fault of the first path of the message at an index; "on a first path the step is the place".
pub fn first_fault(row: &[u16], i: usize) -> Option<Fault<Rule>>
    requires { PlanLies row.now × (i < 2 ^ 60) × (place_count row.now i ≤ most_places) }
    ensures { FirstFault (plan_of row.now) (message_at row.now i) result }
{
    let mut path = [0u16; PLACES];
    let n = paths::first_links(row, i, &mut path);
    let first = paths::ends_at(row, rows::number(&path, 0));
    let fault = paths::path_fault(row, first.from, &path[..n])?;
    Some(Fault {
        at: fault.step,
        ..fault
    })
}

// Refusal 8: the slots of the message at an index do not rise, or one is not below t.
pub fn bad_slots(row: &[u16], i: usize) -> bool
    requires { i < 2 ^ 60 }
    ensures { result ≡ broken_slots (plan_of row.now) (message_at row.now i) }
{
    let t = rows::timeout(row);
    let mut at = i + 1;
    let mut least = 0;
    for _k in 0..rows::place_count(row, i) {
        let here = rows::place_at(row, at);
        if here.slot < least || t <= here.slot {
            return true;
        }
        least = here.slot + 1;
        at = here.next;
    }
    false
}

// Refusal 9: in a table, some place of the message at an index, message m, is given to a lower message.
pub fn held_below(row: &[u16], i: usize, m: usize, table: &[u8]) -> bool
    requires { i < 2 ^ 60 }
    ensures { result ≡ held_below table.now m (message_at row.now i) }
{
    let mut at = i + 1;
    for _k in 0..rows::place_count(row, i) {
        let here = rows::place_at(row, at);
        let holder = table::entry(table, here.slot, here.link) as usize;
        if holder <= m {
            return true;
        }
        at = here.next;
    }
    false
}

// The fault of a second path in place of a link, where the first path ends at a vertex.
fn link_fault(row: &[u16], end: usize, link: usize, second: &[u16]) -> Option<Fault<Rule>>
    requires { PlanLies row.now × (link < 65536) × (0 < length second.now) }
    ensures { PlaceFault (plan_of row.now) end (second_of link second.now) result }
{
    let stands = paths::ends_at(row, link);
    let walked = paths::path_fault(row, stands.from, second);
    let end_fault = fault_in(Rule::Astray, second.len() - 1);
    let astray = (paths::path_end(row, second) != end).then_some(end_fault);
    let start_fault = fault_in(Rule::Replaced, 0);
    let replaced = (rows::number(second, 0) == link).then_some(start_fault);
    earlier(earlier(walked, astray), replaced)
}

// The fault of the second path from the place at an index; none where there is no second path.
fn place_fault(row: &[u16], end: usize, at: usize) -> Option<Fault<Rule>>
    requires { PlanLies row.now × (at < 2 ^ 61) × (at + place_size row.now at ≤ length row.now) }
    ensures { PlaceFault (plan_of row.now) end (place_at row.now at) result }
{
    let here = rows::place_at(row, at);
    if here.count == 0 {
        return None;
    }
    link_fault(row, end, here.link, &row[here.second..here.next])
}

// The fault of the second paths of the message at an index, place by place.
fn places_fault(row: &[u16], end: usize, i: usize) -> Option<Fault<Rule>>
    requires { PlanLies row.now × (i < 2 ^ 60) × MessageLies row.now i }
    ensures { SecondsFault (plan_of row.now) end (message_at row.now i) result }
{
    let mut at = i + 1;
    let mut found = None;
    for k in 0..rows::place_count(row, i) {
        let here = rows::place_at(row, at);
        let fault = place_fault(row, end, at);
        let told = fault.map(move |fault| Fault { at: k, ..fault });
        found = earlier(found, told);
        at = here.next;
    }
    found
}

// The same, where the first path of the message ends.
pub fn second_fault(row: &[u16], i: usize) -> Option<Fault<Rule>>
    requires { PlanLies row.now × (i < 2 ^ 60) × MessageLies row.now i }
    ensures { SecondFault (plan_of row.now) (message_at row.now i) result }
{
    let mut path = [0u16; PLACES];
    let n = paths::first_links(row, i, &mut path);
    let end = paths::path_end(row, &path[..n]);
    places_fault(row, end, i)
}
