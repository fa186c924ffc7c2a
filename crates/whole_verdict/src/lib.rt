// The whole text of the programs `verdict` and `deep`, into a lent buffer: for k rising the lines under each k, then the slack lines; or a
// refusal alone. The two differ in how high k goes where E × t is above 64, which is `large`. Between two k it says on standard error, under
// the program's name, how far it is. That a file has one such text is in proofs/Theorems of `verdict_text`.

#![tactic(auto)]

ghost use Rattle.std.specs.Prelude.{◌≡◌, ℕ, ◌+◌, ◌≤◌, List, length};
ghost use Rattle.scope.specs.Plan.{plan_of};
ghost use Rattle.scope.specs.Lines.{VerdictLines};
ghost use Rattle.scope.specs.Limits.{plan_room};
ghost use Rattle.verdict_text.specs.Layout.{Lays, LaidUntil, PrintsOne, verdict_room};
ghost use Rattle.verdict_text.specs.Texts.{highest_or, TextUpTo};
ghost use Rattle.listing.specs.Prints.{Front, PrintedOne};
ghost use Rattle.program_io.specs.Came.{Came, plan_file};

use plan::Good;
use scope::{Refusal, limits};

// On standard error, how far it is, once the clock shows another second than at the start; and always before what may take minutes, which is
// k 3 where E × t is above 64.
fn progress(rt: &HostRuntime, name: &[u8], row: &[u16], k: usize, start: Option<u64>) {
    let large = k == 3 && verdict_text::highest(row, 1) == 1;
    if large || program_io::seconds(rt) != start {
        program_io::say(rt, name, b": trying lists of up to ", k as u64, b" cuts\n");
    }
}

// The lines under each k below n.
fn table(
    rt: &HostRuntime,
    name: &[u8],
    good: Good<'_>,
    n: usize,
    start: Option<u64>,
    out: &mut [u8],
) -> usize
    requires { n ≤ 4 }
    ensures { LaidUntil (plan_of good.entry.row.now) n n out.old out.new result }
{
    let row = good.row;
    let mut next = 0;
    for k in 0..n {
        progress(rt, name, row, k, start);
        next = verdict_text::lines_under(good, k, out, next);
    }
    next
}

// All lines of a good row.
fn all_lines(rt: &HostRuntime, name: &[u8], large: usize, good: Good<'_>, out: &mut [u8]) -> usize
    requires { large ≤ 3 }
    ensures { Lays (VerdictLines (plan_of good.entry.row.now) 0 (1 + highest_or large (plan_of good.entry.row.now))) verdict_room
        out.old out.new 0 result }
{
    let row = good.row;
    let start = program_io::seconds(rt);
    let next = table(
        rt,
        name,
        good,
        1 + verdict_text::highest(row, large),
        start,
        out,
    );
    verdict_text::slack_lines(good, out, next)
}

// What is printed for a plan file, into as many bytes as every text has room in: how many there are.
fn whole_text(
    rt: &HostRuntime,
    name: &[u8],
    large: usize,
    file: &[u8],
    out: &mut [u8],
) -> Result<usize, Refusal>
    requires { (large ≤ 3) × (verdict_room ≤ length out.old) }
    ensures { PrintsOne (TextUpTo large file.now) out.old out.new result }
{
    let mut row = [0u16; limits::ROW];
    match plan::read_file(file, &mut row) {
        Ok(n) => Ok(all_lines(rt, name, large, Good { row: &row[..n] }, out)),
        Err(refusal) => listing::refusal_text(refusal, out),
    }
}

// What is printed for what was read, the first p bytes of a buffer: the text of the whole plan file, however long it is.
pub fn text(
    rt: &HostRuntime,
    name: &[u8],
    large: usize,
    plan: &[u8],
    p: usize,
    out: &mut [u8],
) -> Result<usize, Refusal>
    requires { (large ≤ 3) × Came plan_file p plan.now × (length plan.now ≡ plan_room) × (length out.old ≡ verdict_room) }
    ensures { (file : List ℕ) → Front plan.now p file → PrintedOne (TextUpTo large file) out.old
        out.new result }
{
    whole_text(rt, name, large, &plan[..p], out)
}
