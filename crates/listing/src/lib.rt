// The lines that the programs print, laid into lent bytes: document 01, "Programs". `listing` is the whole text of a replay, `refusal_text`
// that of a refusal; they ask nothing of what they print, and refuse with 13 where the buffer is too short. It leans on specs/Lines of
// `scope`, on `rows::number` (the total read of a row) and on `text` (a byte, a word, a number, a refusal).

#![tactic(auto)]

ghost use Rattle.std.specs.Prelude.{ℕ, ◌*◌, ◌<◌, ◌^◌, List};
ghost use Rattle.listing.specs.Prints.{Prints};
ghost use Rattle.text.specs.Text.{Puts, Told};
ghost use Rattle.scope.specs.Lines.{event_line, event_lines, arrived_line, refused_line};
ghost use Rattle.scope.specs.Lines.{listing as Lines·listing};
ghost use Rattle.scope.specs.Outcome.{gives};
ghost use Rattle.scope.specs.Plan.{plan_of};

use rows::number;
use scope::{Refusal, refuse};
use text::{put_byte, put_decimal, put_number, put_refusal, put_word};

// One event: slot, message, kind and number.
fn event_line(
    out: &mut [u8],
    at: usize,
    slot: usize,
    message: usize,
    kind: usize,
    number: usize,
) -> usize
    requires { Told at (event_line slot message kind number) }
    ensures { Puts (event_line slot message kind number) out.old out.new at result }
{
    let a = put_number(out, at, slot, b' ');
    let b = put_number(out, a, message, b' ');
    let c = put_number(out, b, kind, b' ');
    put_number(out, c, number, b'\n')
}

// The lines of the first events of a row, where a slot has so many messages.
fn event_lines(out: &mut [u8], at: usize, messages: usize, events: &[u16], lines: usize) -> usize
    requires { (0 < messages) × (lines < 2 ^ 40) × Told at (event_lines messages events.now 0 lines) }
    ensures { Puts (event_lines messages events.now 0 lines) out.old out.new at result }
{
    let mut next = at;
    for j in 0..lines {
        let kind = number(events, 2 * j);
        let value = number(events, 2 * j + 1);
        next = event_line(out, next, j / messages, j % messages, kind, value);
    }
    next
}

// How many messages arrived, of how many.
fn arrived_line(out: &mut [u8], at: usize, n: usize, messages: usize) -> usize
    requires { Told at (arrived_line n messages) }
    ensures { Puts (arrived_line n messages) out.old out.new at result }
{
    let first = put_word(out, at, b"arrived ");
    let word = put_decimal(out, first, n);
    let last = put_word(out, word, b" of ");
    put_number(out, last, messages, b'\n')
}

// A refusal.
fn refused_line(out: &mut [u8], refusal: Refusal) -> usize
    ensures { Puts (refused_line refusal) out.old out.new 0 result }
{
    let last = put_refusal(out, 0, refusal);
    put_byte(out, last, b'\n')
}

// The listing of a replay with n arrivals: the header, its events and the arrivals.
fn replayed(out: &mut [u8], n: usize, row: &[u16], events: &[u16]) -> usize
    ensures { Puts (Lines·listing (gives n) (plan_of row.now) events.now) out.old
        out.new 0 result }
{
    let messages = number(row, 3) + 1;
    let timeout = number(row, 4) + 1;
    let first = put_word(out, 0, b"slot message kind number\n");
    let next = event_lines(out, first, messages, events, timeout * messages);
    arrived_line(out, next, n, messages)
}

// Bytes enough for every listing of a plan of at most 32 messages and timeout of at most 64 (proofs/Room).
pub const ROOM: usize = 36942;

// Bytes enough for the line of every refusal (proofs/Lines, `refused-size`).
pub const REFUSAL_ROOM: usize = 98;

// Prints a text into a lent buffer: how many bytes, or refusal 13 with the bytes needed, and then nothing is written. `lay` lays the text
// over the front of any buffer, as far as that goes, and gives how many bytes the text has; so it is laid over nothing first.
pub fn print<F: Fn(&mut [u8]) -> usize>(out: &mut [u8], lay: F) -> Result<usize, Refusal>
    requires { F.IsAlwaysCallable lay }
    ensures { (text : List ℕ) → ((s : _) (n : ℕ) (t : _) → F.post lay s n t → Puts text s.now t.now 0 n) →
        Prints text out.old out.new result }
{
    let needed = lay(&mut out[..0]);
    if out.len() < needed {
        return refuse(13, needed);
    }
    lay(out);
    Ok(needed)
}

// The listing of a replay of a plan's row with n arrivals and these events.
pub fn listing(n: usize, row: &[u16], events: &[u16], out: &mut [u8]) -> Result<usize, Refusal>
    ensures { Prints (Lines·listing (gives n) (plan_of row.now) events.now) out.old
        out.new result }
{
    print(out, |part| replayed(part, n, row, events))
}

// The line of a refusal, `refused N place P` or, of a rule of paths, `refused N place MESSAGE PLACE STEP`.
pub fn refusal_text(refusal: Refusal, out: &mut [u8]) -> Result<usize, Refusal>
    ensures { Prints (refused_line refusal) out.old out.new result }
{
    print(out, |part| refused_line(part, refusal))
}
