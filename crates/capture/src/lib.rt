// What is kept of a capture, whatever its length: how many triples it has, its last one, the first bad one, and for each slot and message
// which link was crossed. A capture is taken triple by triple, from numbers (`keep`) or as its lines are read (`add`, `unfinished`), and
// nothing of it is looked at twice. Nothing here knows a replay. It leans on specs/ of `scope` (Capture) and on the total reads of `rows`.

#![tactic(auto)]

ghost use Rattle.std.specs.Prelude.{◌<◌, ◌≡◌, length, replicate};
ghost use Rattle.scope.specs.Limits.{most_slots, most_links, most_messages, crossed_size};
ghost use Rattle.scope.specs.Plan.{plan_of};
ghost use Rattle.capture.specs.Kept.{Keeps, Small, Begins, Adds, Ends, MayAdd};
ghost use Rattle.capture.specs.Adding.{in_range, rises_behind, spoilt, Marks};

use scope::limits::MESSAGES;

// A message that was seen on a link in a slot: by slot, in one slot by link, and on one link by message.
#[derive(Clone, Copy, PartialEq, PartialOrd)]
pub struct Triple {
    pub slot: usize,
    pub link: usize,
    pub message: usize,
}

// How many triples were kept and the last of them; whether some message was seen on two links in one slot; and whether the next triple
// is bad, after which no more is kept.
#[derive(Clone, Copy)]
pub struct Kept {
    pub count: usize,
    pub last: Option<Triple>,
    pub twice: bool,
    pub bad: bool,
}

// What is kept of the capture without a triple, beside a table of zeros.
pub fn none() -> Kept
    ensures { Begins result }
{
    Kept {
        count: 0,
        last: None,
        twice: false,
        bad: false,
    }
}

// The next triple is bad: it is the one after those that were kept.
fn spoil(kept: Kept) -> Kept
    ensures { result ≡ spoilt kept }
{
    Kept { bad: true, ..kept }
}

// The capture ends with one or two numbers of a triple.
pub fn unfinished(kept: Kept) -> Kept
    ensures { Ends kept result }
{
    spoil(kept)
}

// The plan has this slot, link and message.
#[tactic(auto, using(crate::proofs::Sizes::sizes))]
fn in_range(row: &[u16], next: Triple) -> bool
    ensures { result ≡ in_range (plan_of row.now) next.slot next.link next.message }
{
    next.slot < rows::timeout(row)
        && next.link < rows::links(row)
        && next.message < rows::messages(row)
}

// A triple comes after the last one that was kept, or is the first.
fn rises(last: Option<Triple>, next: Triple) -> bool
    ensures { result ≡ rises_behind last next.slot next.link next.message }
{
    last.is_none_or(|last| last < next)
}

// A message crosses a link in a slot: whether it was seen on a link there before, which then stays.
fn mark(crossed: &mut [u8], next: Triple) -> bool
    requires { (length crossed.old ≡ crossed_size) × (next.slot < most_slots) × (next.link < most_links) × (next.message < most_messages) }
    ensures { Marks crossed.old next.slot next.link next.message crossed.new result }
{
    let k = next.slot * MESSAGES + next.message;
    if crossed[k] != 0 {
        return true;
    }
    crossed[k] = (next.link + 1) as u8;
    false
}

// The next triple of a capture. Behind a bad one nothing changes.
pub fn add(
    row: &[u16],
    kept: Kept,
    crossed: &mut [u8],
    slot: usize,
    link: usize,
    message: usize,
) -> Kept
    requires { MayAdd row.now crossed.old kept }
    ensures { Adds (plan_of row.now) slot link message crossed.old kept crossed.new result }
{
    if kept.bad {
        return kept;
    }
    let next = Triple {
        slot,
        link,
        message,
    };
    if !in_range(row, next) || !rises(kept.last, next) {
        return spoil(kept);
    }
    let again = mark(crossed, next);
    Kept {
        count: kept.count + 1,
        last: Some(next),
        twice: kept.twice | again,
        bad: false,
    }
}

// What is kept of a whole capture, and the table of its crossings.
pub fn keep(row: &[u16], capture: &[u16], crossed: &mut [u8]) -> Kept
    requires { Small row.now × (crossed.old ≡ replicate crossed_size 0) }
    ensures { Keeps (plan_of row.now) capture.now crossed.new result }
{
    let mut kept = none();
    for triple in capture.chunks(3) {
        let &[slot, link, message] = triple else {
            return unfinished(kept);
        };
        kept = add(
            row,
            kept,
            crossed,
            usize::from(slot),
            usize::from(link),
            usize::from(message),
        );
        if kept.bad {
            return kept;
        }
    }
    kept
}
