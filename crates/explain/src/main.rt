// The program `explain`: reads `plan.bin` and a capture from standard input, and prints which cuts explain it: the first list of at most two
// pairs on one line, then the listing of its replay, or `unexplained`, or a refusal. The capture is read piece by piece to its end, however
// long it is, and of it are kept what `capture_lines` keeps, and the table of its crossings.

#![tactic(auto)]

ghost use Rattle.std.specs.Prelude.{ℕ, ◌≡◌, List, length};
ghost use Rattle.scope.specs.Limits.{plan_room};
ghost use Rattle.scope.specs.Plan.{plan_of};
ghost use Rattle.capture.specs.Kept.{Keeps};
ghost use Rattle.listing.specs.Prints.{PrintedOne};
ghost use Rattle.explain_text.specs.Room.{explain_room};
ghost use Rattle.explain_text.specs.Text.{CaptureText, MaySay};
ghost use Rattle.program_io.specs.Came.{Came, plan_file};
ghost use Rattle.explain.specs.Shown.{MayStart, Captured, ShowsRow, Shows};

use capture::Kept;
use plan::Good;
use scope::{Refusal, limits};

// Reads standard input to its end: what is kept of all of it, or nothing where reading failed, and a line on standard error says why. A loop
// that is proved must end: it takes at most 2^64 - 1 turns, and says so where that is not enough.
fn read_capture(rt: &HostRuntime, row: &[u16], crossed: &mut [u8]) -> Option<Kept>
    requires { MayStart row.now crossed.old }
    ensures { Captured (plan_of row.now) crossed.new result }
{
    let mut piece = [0u8; 4096];
    let mut reading = capture_lines::begin();
    for turn in 0..u64::MAX {
        let n = program_io::read_piece(rt, b"explain", turn, &mut piece)?;
        if n == 0 {
            return Some(capture_lines::finish(reading));
        }
        reading = capture_lines::feed(row, reading, crossed, &piece[..n]);
    }
    program_io::say(
        rt,
        b"explain",
        b": standard input did not end in ",
        u64::MAX,
        b" reads\n",
    );
    None
}

// What is printed of a capture of which this is kept: its text, or the line of its refusal.
fn printed(good: Good<'_>, kept: Kept, crossed: &[u8], out: &mut [u8]) -> Result<usize, Refusal>
    requires { MaySay good.row.now crossed.now kept × (length out.old ≡ explain_room) }
    ensures { (capture : List ℕ) → Keeps (plan_of good.entry.row.now) capture crossed.now kept →
        PrintedOne (CaptureText good.entry.row.now capture) out.old out.new result }
{
    match explain_text::say(good, kept, crossed, out) {
        Ok(n) => Ok(n),
        Err(refusal) => listing::refusal_text(refusal, out),
    }
}

// What is printed of a good row, for the input that comes; nothing where it could not be read.
fn of_row(rt: &HostRuntime, good: Good<'_>, out: &mut [u8]) -> Option<Result<usize, Refusal>>
    requires { length out.old ≡ explain_room }
    ensures { ShowsRow good.entry.row.now out.old out.new result }
{
    let mut crossed = [0u8; limits::CROSSED];
    let kept = read_capture(rt, good.row, &mut crossed)?;
    Some(printed(good, kept, &crossed, out))
}

// What is printed for what was read, the first p bytes of a buffer and all of standard input: the text of the whole plan file, however long
// it is.
fn text(rt: &HostRuntime, plan: &[u8], p: usize, out: &mut [u8]) -> Option<Result<usize, Refusal>>
    requires { Came plan_file p plan.now × (length plan.now ≡ plan_room) × (length out.old ≡ explain_room) }
    ensures { Shows plan.now p out.old out.new result }
{
    let mut row = [0u16; limits::ROW];
    match plan::read_file(&plan[..p], &mut row) {
        Ok(n) => of_row(rt, Good { row: &row[..n] }, out),
        Err(refusal) => Some(listing::refusal_text(refusal, out)),
    }
}

fn main(rt: HostRuntime) {
    let mut plan = [0u8; limits::PLAN_ROOM];
    let mut out = [0u8; explain_text::ROOM];
    let p = program_io::read_plan(&rt, b"explain", &mut plan);
    if let Some(answer) = text(&rt, &plan, p, &mut out) {
        program_io::print(&rt, b"explain", answer, &out);
    }
}
