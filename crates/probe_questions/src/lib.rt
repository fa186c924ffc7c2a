// The questions of the probe, each of the numbers that stand in its line: the answer is laid into lent bytes from an index on. Every buffer
// that is lent for an answer is filled before the call, and what is lent has exactly the room that the question names; behind it lies a
// margin, filled too, that no call may reach. The lines are in specs/Asked; how each is written is `probe_lines`'.

#![tactic(auto)]

ghost use Rattle.std.specs.Prelude.{◌+◌, ◌≤◌, ◌<◌, ◌^◌, ◌≡◌, length, replicate, MatchOption};
ghost use Rattle.scope.specs.Outcome.{outcome_of, result as result_of};
ghost use Rattle.text.specs.Text.{Puts};
ghost use Rattle.probe_lines.specs.Answers.{Near, Worded};
ghost use Rattle.probe_questions.specs.Asked.{Lays, Judges, Explains, found_line, read_answer, write_answer, replay_answer};
ghost use Rattle.probe_questions.specs.Asked.{figure_answer, figures_answer, place_answer, second_line, where_line, spare_line};
ghost use Rattle.probe_questions.specs.Asked.{spoil_answer, spoilt_row, spoilt_bytes};

use probe_lines::{told, told_bytes, told_list, told_none, unknown};
use probe_words::{Filling, fill};
use scope::Refusal;

const MARGIN: usize = 16;

// The front of a buffer that is lent for so much room, with the margin behind it, all filled; none where the buffer is too short.
fn lend<T: Filling>(lent: &mut [T], room: usize) -> Option<&mut [T]>
    requires { room < 65536 }
    ensures { MatchOption result (length lent.old < room + 16) (λ front. (room + 16 ≤ length lent.old) × (front.now ≡ replicate (room + 16) T.FILL)) }
{
    let front = lent.get_mut(..room + MARGIN)?;
    fill(front);
    Some(front)
}

fn count(answer: Result<usize, Refusal>) -> usize
    ensures { result ≡ result_of (outcome_of answer) }
{
    match answer {
        Ok(n) => n,
        Err(_) => 0,
    }
}

// The numbers of a file, into a lent row of so much room.
pub fn read(file: &[u8], room: usize, lent: &mut [u16], out: &mut [u8], at: usize) -> usize
    requires { (room < 65536) × (at ≤ 2 ^ 63) }
    ensures { Puts (read_answer (length lent.old) file.now room) out.old out.new at result }
{
    let Some(lent) = lend(lent, room) else {
        return unknown(out, at);
    };
    let answer = plan::read_file(file, &mut lent[..room]);
    told(answer, count(answer), lent, out, at)
}

// ROOM ROW...
pub fn write(given: &[u16], lent: &mut [u8], out: &mut [u8], at: usize) -> usize
    requires { at ≤ 2 ^ 63 }
    ensures { Puts (write_answer (length lent.old) given.now) out.old out.new at result }
{
    let room = rows::number(given, 0);
    if given.is_empty() {
        return unknown(out, at);
    }
    let Some(lent) = lend(lent, room) else {
        return unknown(out, at);
    };
    let answer = plan::write_file(&given[1..], &mut lent[..room]);
    told_bytes(answer, lent, out, at)
}

// ROOM C c... ROW..., where C says how many numbers of cuts follow
pub fn replay(given: &[u16], lent: &mut [u16], out: &mut [u8], at: usize) -> usize
    requires { at ≤ 2 ^ 63 }
    ensures { Puts (replay_answer (length lent.old) given.now) out.old out.new at result }
{
    let room = rows::number(given, 0);
    let split = rows::number(given, 1) + 2;
    if given.len() < split {
        return unknown(out, at);
    }
    let Some(lent) = lend(lent, room) else {
        return unknown(out, at);
    };
    let answer = cut_replay::replay(&given[split..], &given[2..split], &mut lent[..room]);
    told(
        answer,
        cut_replay::event_numbers(&given[split..]),
        lent,
        out,
        at,
    )
}

// A list that is found, with how many pairs it has, or that there is none: each after its word.
fn told_found(
    none: &[u8],
    some: &[u8],
    found: Result<Option<usize>, Refusal>,
    lent: &[u16],
    out: &mut [u8],
    at: usize,
) -> usize
    requires { Worded at none.now lent.now × Worded at some.now lent.now × Near at lent.now }
    ensures { Puts (found_line none.now some.now found lent.now) out.old out.new at result }
{
    match found {
        Ok(None) => told_none(none, lent, out, at),
        Ok(Some(pairs)) => told_list(some, pairs, lent, out, at),
        Err(r) => told(Err(r), 0, lent, out, at),
    }
}

// K L ROOM ROW...
pub fn verdict(given: &[u16], lent: &mut [u16], out: &mut [u8], at: usize) -> usize
    requires { at ≤ 2 ^ 63 }
    ensures { Lays (Judges (length lent.old) given.now) out.old out.new at result }
{
    let k = rows::number(given, 0);
    let l = rows::number(given, 1);
    let room = rows::number(given, 2);
    if given.len() < 3 {
        return unknown(out, at);
    }
    let Some(lent) = lend(lent, room) else {
        return unknown(out, at);
    };
    let ruling = verdicts::verdict(&given[3..], k, l, &mut lent[..room]);
    told_found(b"ok resistant", b"ok failing ", ruling, lent, out, at)
}

// K ROOM COUNT n... ROW..., where COUNT says how many numbers of the capture follow
pub fn explain(given: &[u16], lent: &mut [u16], out: &mut [u8], at: usize) -> usize
    requires { at ≤ 2 ^ 63 }
    ensures { Lays (Explains (length lent.old) given.now) out.old out.new at result }
{
    let k = rows::number(given, 0);
    let room = rows::number(given, 1);
    let split = rows::number(given, 2) + 3;
    if given.len() < split {
        return unknown(out, at);
    }
    let Some(lent) = lend(lent, room) else {
        return unknown(out, at);
    };
    let explanation = explanations::explain(
        &given[split..],
        k,
        &given[3..split],
        &mut lent[..room],
    );
    told_found(b"ok unexplained", b"ok list ", explanation, lent, out, at)
}

// K ROW...
pub fn figure(given: &[u16], out: &mut [u8], at: usize) -> usize
    requires { at ≤ 2 ^ 63 }
    ensures { Puts (figure_answer given.now) out.old out.new at result }
{
    let k = rows::number(given, 0);
    if given.is_empty() {
        return unknown(out, at);
    }
    let answer = figures::figure(&given[1..], k);
    told(answer, 0, &given[..0], out, at)
}

// K ROOM ROW...
pub fn figures(given: &[u16], lent: &mut [u16], out: &mut [u8], at: usize) -> usize
    requires { at ≤ 2 ^ 63 }
    ensures { Puts (figures_answer (length lent.old) given.now) out.old out.new at result }
{
    let k = rows::number(given, 0);
    let room = rows::number(given, 1);
    if given.len() < 2 {
        return unknown(out, at);
    }
    let Some(lent) = lend(lent, room) else {
        return unknown(out, at);
    };
    let answer = figures::figures(&given[2..], k, &mut lent[..room]);
    told(answer, count(answer), lent, out, at)
}

// A second path, which has at most 16 links.
fn second_row(row: &[u16], m: usize, p: usize, out: &mut [u8], at: usize) -> usize
    requires { at ≤ 2 ^ 63 }
    ensures { Puts (second_line row.now m p) out.old out.new at result }
{
    let links = plan::second_path(row, m, p);
    if 65536 < links.len() {
        return unknown(out, at);
    }
    probe_lines::told_part(links, out, at)
}

// Where in the row the second path's links begin, 0 where there is none, and how many there are.
fn where_row(row: &[u16], m: usize, p: usize, out: &mut [u8], at: usize) -> usize
    requires { at ≤ 2 ^ 63 }
    ensures { Puts (where_line row.now m p) out.old out.new at result }
{
    let links = plan::second_path(row, m, p);
    let index = plan::second_index(row, m, p);
    probe_lines::told_place(index, links.len(), out, at)
}

// The slack, or the refusal.
fn slack_row(row: &[u16], m: usize, p: usize, out: &mut [u8], at: usize) -> usize
    requires { at ≤ 2 ^ 63 }
    ensures { Puts (spare_line row.now m p) out.old out.new at result }
{
    match spare::slack(row, m, p) {
        Ok(slots) => probe_lines::told_slack(slots, out, at),
        Err(r) => probe_lines::told_refusal(r, out, at),
    }
}

// What is asked of a message's place.
#[derive(Clone, Copy)]
pub enum OfPlace {
    Slack,
    Second,
    Where,
}

// MESSAGE PLACE ROW...
pub fn of_place(asks: OfPlace, given: &[u16], out: &mut [u8], at: usize) -> usize
    requires { at ≤ 2 ^ 63 }
    ensures { Puts (place_answer asks given.now) out.old out.new at result }
{
    let m = rows::number(given, 0);
    let p = rows::number(given, 1);
    if given.len() < 2 {
        return unknown(out, at);
    }
    match asks {
        OfPlace::Slack => slack_row(&given[2..], m, p, out, at),
        OfPlace::Second => second_row(&given[2..], m, p, out, at),
        OfPlace::Where => where_row(&given[2..], m, p, out, at),
    }
}

// What is told of a lent row by a call that is taken to have written nothing, where the number at an index has changed.
fn spoil_row(index: usize, lent: &mut [u16], out: &mut [u8], at: usize) -> usize
    requires { at ≤ 2 ^ 63 }
    ensures { Puts (spoilt_row (length lent.old) index) out.old out.new at result }
{
    let Some(lent) = lend(lent, 0) else {
        return unknown(out, at);
    };
    if index < MARGIN {
        lent[index] = 0;
    }
    told(Ok(0), 0, lent, out, at)
}

// The same with bytes.
fn spoil_bytes(index: usize, lent: &mut [u8], out: &mut [u8], at: usize) -> usize
    requires { at ≤ 2 ^ 63 }
    ensures { Puts (spoilt_bytes (length lent.old) index) out.old out.new at result }
{
    let Some(lent) = lend(lent, 0) else {
        return unknown(out, at);
    };
    if index < MARGIN {
        lent[index] = 0;
    }
    told_bytes(Ok(0), lent, out, at)
}

// BITS INDEX, which shows that a spoilt buffer is told: 16 for a row, and else bytes.
pub fn spoil(given: &[u16], lent: &mut [u16], file: &mut [u8], out: &mut [u8], at: usize) -> usize
    requires { at ≤ 2 ^ 63 }
    ensures { Puts (spoil_answer (length lent.old) (length file.old) given.now)
        out.old out.new at result }
{
    let bits = rows::number(given, 0);
    let index = rows::number(given, 1);
    if given.len() != 2 {
        return unknown(out, at);
    }
    if bits == 16 {
        return spoil_row(index, lent, out, at);
    }
    spoil_bytes(index, file, out, at)
}
