// What strips a message of a good plan, as a search looks it up: the table of its fragile places, and for each link and message whether the
// link lies on the second path of a robust place. `fill` makes both, as Strips of `losses` says. It leans on `rows` for where things stand, on
// `table` for tables, on `plan` for what a good row is, and on `spare`'s proofs for counts.
//
// D of each second path is a sum over its links: a(e) is counted once, b(m, e) goes up from message to message.

#![tactic(auto)]

ghost use Rattle.std.specs.Prelude.{◌≡◌, ◌*◌, ◌<◌, ◌≤◌, ◌^◌, [], ◌∷◌, length, eqb};
ghost use Rattle.scope.specs.Limits.{most_messages, seconds_size};
ghost use Rattle.scope.specs.Plan.{plan_of, numbers_at, place_at, message_at, timeout_of};
ghost use Rattle.scope.specs.Good.{has};
ghost use Rattle.rows.specs.View.{Is};
ghost use Rattle.bound.specs.Seconds.{second_in};
ghost use Rattle.sets.specs.Sums.{one_if};
ghost use Rattle.strips.specs.Filled.{MayFill, Filled, Put, More, MayMore, MayCount, Counted, MayCountAll, CountedAll, cost_of, in_time};
ghost use Rattle.strips.specs.Filled.{MayStrip, StrippedPlace, StrippedMessage, MayStripAll};

use scope::limits::{LINKS, MESSAGES, SECONDS};

// Marks message m on each of so many links from an index on.
fn mark_path(row: &[u16], i: usize, n: usize, m: usize, ways: &mut [u8])
    requires { (i < 2 ^ 62) × (n ≤ 65536) × (m < most_messages) × (length ways.old ≡ seconds_size) }
    ensures { Put m (λ e. has e (numbers_at row.now i n)) ways.old ways.new }
{
    for k in 0..n {
        let e = rows::number(row, i + k);
        if e < LINKS {
            ways[e * MESSAGES + m] = 1;
        }
    }
}

// Counts the link of a place.
fn count(counts: &mut [u16; LINKS], e: usize)
    requires { MayMore (λ d. one_if (eqb e d)) counts.old }
    ensures { More (λ d. one_if (eqb e d)) counts.old counts.new }
{
    if e < LINKS {
        counts[e] += 1;
    }
}

// Counts the first path of the message at an index, marks its second paths, and gives the index after it.
fn count_message(
    row: &[u16],
    i: usize,
    m: usize,
    counts: &mut [u16; LINKS],
    ways: &mut [u8; SECONDS],
) -> usize
    requires { MayCount row.now i m counts.old ways.old }
    ensures { Counted row.now i m counts.old counts.new ways.old ways.new result }
{
    let n = rows::place_count(row, i);
    let mut at = i + 1;
    for _k in 0..n {
        let here = rows::place_at(row, at);
        count(counts, here.link);
        mark_path(row, here.second, here.count, m, ways);
        at = here.next;
    }
    at
}

// a(e) of each link, and who has a second path through it.
fn count_all(row: &[u16], counts: &mut [u16; LINKS], ways: &mut [u8; SECONDS])
    requires { MayCountAll row.now counts.old ways.old }
    ensures { CountedAll (plan_of row.now) counts.new ways.new }
{
    let n = rows::messages(row);
    let mut at = rows::message_index(row, 0);
    for m in 0..n {
        at = count_message(row, at, m, counts, ways);
    }
}

// D of so many links from an index on, where a link costs 1 and its count.
fn delay(row: &[u16], i: usize, n: usize, counts: &[u16; LINKS]) -> usize
    requires { (i < 2 ^ 62) × (n ≤ 65536) }
    ensures { Is (cost_of counts.now (numbers_at row.now i n)) (n * 65536) result }
{
    let mut sum = 0;
    for k in 0..n {
        sum += 1 + rows::number(counts, rows::number(row, i + k));
    }
    sum
}

// Whether the place at an index has a second path that ends in time.
fn robust(row: &[u16], i: usize, counts: &[u16; LINKS]) -> bool
    requires { i < 2 ^ 61 }
    ensures { result ≡ in_time counts.now (timeout_of row.now) (place_at row.now i) }
{
    let here = rows::place_at(row, i);
    here.count != 0 && here.slot + delay(row, here.second, here.count, counts) <= rows::timeout(row)
}

// One place of message m: the second path of a robust one, the entry of a fragile one. It gives the index of the next place.
fn strip_place(
    row: &[u16],
    i: usize,
    m: usize,
    counts: &[u16; LINKS],
    fragile: &mut [u8],
    seconds: &mut [u8],
) -> usize
    requires { (i < 2 ^ 61) × MayStrip (plan_of row.now) m (place_at row.now i ∷ []) counts.now fragile.old seconds.old }
    ensures { StrippedPlace row.now i m fragile.old fragile.new
        seconds.old seconds.new result }
{
    let here = rows::place_at(row, i);
    if robust(row, i, counts) {
        mark_path(row, here.second, here.count, m, seconds);
    } else {
        table::mark(fragile, here.link, here.slot, (m + 1) as u8);
    }
    here.next
}

// All places of the message m at an index. It gives the index after it.
fn strip_message(
    row: &[u16],
    i: usize,
    m: usize,
    counts: &[u16; LINKS],
    fragile: &mut [u8],
    seconds: &mut [u8],
) -> usize
    requires { (i < 2 ^ 60) × MayStrip (plan_of row.now) m (message_at row.now i) counts.now fragile.old seconds.old }
    ensures { StrippedMessage row.now i m fragile.old fragile.new
        seconds.old seconds.new result }
{
    let n = rows::place_count(row, i);
    let mut at = i + 1;
    for _k in 0..n {
        at = strip_place(row, at, m, counts, fragile, seconds);
    }
    at
}

// From b(m, e) to b(m + 1, e).
fn pass(ways: &[u8; SECONDS], m: usize, counts: &mut [u16; LINKS])
    requires { (m < most_messages) × MayMore (λ e. second_in ways.now e m) counts.old }
    ensures { More (λ e. second_in ways.now e m) counts.old counts.new }
{
    for e in 0..LINKS {
        counts[e] += u16::from(ways[e * MESSAGES + m]);
    }
}

// All messages, with a(e) counted.
fn strip_all(
    row: &[u16],
    ways: &[u8; SECONDS],
    counts: &mut [u16; LINKS],
    fragile: &mut [u8],
    seconds: &mut [u8],
)
    requires { MayStripAll row.now ways.now counts.old fragile.old seconds.old }
    ensures { Filled (plan_of row.now) fragile.new seconds.new }
{
    let n = rows::messages(row);
    let mut at = rows::message_index(row, 0);
    for m in 0..n {
        at = strip_message(row, at, m, counts, fragile, seconds);
        pass(ways, m, counts);
    }
}

// The table of the fragile places of a good row, and the second paths of its robust ones, on bytes that are 0.
pub fn fill(row: &[u16], fragile: &mut [u8], seconds: &mut [u8])
    requires { MayFill row.now fragile.old seconds.old }
    ensures { Filled (plan_of row.now) fragile.new seconds.new }
{
    let mut counts = [0; LINKS];
    let mut ways = [0; SECONDS];
    count_all(row, &mut counts, &mut ways);
    table::clear(fragile);
    strip_all(row, &ways, &mut counts, fragile, seconds);
}
