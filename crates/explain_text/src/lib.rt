// What the program `explain` prints: document 02, [7]. `explain_text` takes the bytes of a plan file and of an input, lays the whole text
// into a lent buffer, and refuses a bad plan, a bad capture and a buffer that is too short. A program that reads its input piece by piece
// hands what `capture_lines` has kept of it to `say`. It leans on `plan` (the row of a file), `capture_lines` (the capture of an input),
// `explanations` (the answer) and `replay_text` (the listing). That a plan file and an input have one text, that its first bytes decide a
// plan file, and that every text has room in `ROOM` bytes, is in proofs/Theorems.

#![tactic(auto)]

ghost use Rattle.std.specs.Prelude.{ℕ, ◌≤◌, List, length};
ghost use Rattle.scope.specs.Plan.{plan_of};
ghost use Rattle.scope.specs.Questions.{may_explain};
ghost use Rattle.scope.specs.Lines.{capture_of, explained_lines, unexplained_line, ExplainText};
ghost use Rattle.capture.specs.Kept.{Keeps};
ghost use Rattle.text.specs.Text.{Puts};
ghost use Rattle.listing.specs.Prints.{Prints};
ghost use Rattle.explain_text.specs.Text.{list_line, CaptureText, may_tell, SaysOne, MayList, MaySay};

use capture::Kept;
use plan::Good;
use scope::{Refusal, limits, refuse};
use text::{put_byte, put_word};
use verdict_lines::parted;

// Bytes enough for every text (proofs/Theorems, `text-room`).
pub const ROOM: usize = 36954;

// The pairs' numbers on one line, an empty line where there are none.
fn list_line(out: &mut [u8], list: &[u16]) -> usize
    requires { length list.now ≤ 4 }
    ensures { Puts (list_line list.now) out.old out.new 0 result }
{
    let end = parted(out, 0, list);
    put_byte(out, end, b'\n')
}

// The list on one line, then the listing of its replay: how many bytes, or refusal 13 with the bytes needed. The listing is laid behind the
// line's place first, since it tells whether there is room.
fn explained(good: Good<'_>, list: &[u16], out: &mut [u8]) -> Result<usize, Refusal>
    requires { MayList good.row.now list.now }
    ensures { Prints (explained_lines (plan_of good.entry.row.now) list.now) out.old out.new result }
{
    let n = list_line(&mut out[..0], list);
    let from = n.min(out.len());
    match replay_text::played(good, list, &mut out[from..]) {
        Ok(m) => {
            list_line(out, list);
            Ok(n + m)
        }
        Err(refusal) => refuse(13, n + refusal.place),
    }
}

// `unexplained` alone.
fn unexplained(out: &mut [u8]) -> Result<usize, Refusal>
    ensures { Prints unexplained_line out.old out.new result }
{
    listing::print(out, |part| put_word(part, 0, b"unexplained\n"))
}

// What is said of every capture of which this is kept, in a good row: how many bytes, or refusal 23, 13, and then nothing is written.
pub fn say(good: Good<'_>, kept: Kept, crossed: &[u8], out: &mut [u8]) -> Result<usize, Refusal>
    requires { MaySay good.row.now crossed.now kept }
    ensures { (capture : List ℕ) → Keeps (plan_of good.entry.row.now) capture crossed.now kept →
        SaysOne (may_explain good.entry.row.now 2 capture 4) (CaptureText good.entry.row.now capture) out.old out.new result }
{
    let mut list = [0u16; 4];
    let pairs = explanations::explain_good(good, 2, kept, crossed, &mut list)?;
    match pairs {
        None => unexplained(out),
        Some(n) => explained(good, &list[..2 * n], out),
    }
}

// What is said of the capture that an input is.
fn said_of(good: Good<'_>, input: &[u8], out: &mut [u8]) -> Result<usize, Refusal>
    ensures { SaysOne (may_explain good.entry.row.now 2 (capture_of input.now) 4)
        (CaptureText good.entry.row.now (capture_of input.now)) out.old out.new result }
{
    let mut crossed = [0u8; limits::CROSSED];
    let reading = capture_lines::feed(good.row, capture_lines::begin(), &mut crossed, input);
    say(good, capture_lines::finish(reading), &crossed, out)
}

// The text for a plan file and an input: how many bytes, or refusal 1, 2, 4 to 10, 14 to 19, 23, 13, and then nothing is written. The plan's
// refusal comes before the capture's.
pub fn explain_text(file: &[u8], input: &[u8], out: &mut [u8]) -> Result<usize, Refusal>
    ensures { SaysOne (may_tell file.now input.now) (ExplainText file.now input.now)
        out.old out.new result }
{
    let mut row = [0u16; limits::ROW];
    let n = plan::read_file(file, &mut row)?;
    said_of(Good { row: &row[..n] }, input, out)
}
