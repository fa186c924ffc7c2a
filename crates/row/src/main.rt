// The row of the plan file `plan.bin`, as a line of decimals, or its refusal.

#![tactic(auto)]

ghost use Rattle.std.specs.Prelude.{◌≡◌, ℕ, List, length};
ghost use Rattle.scope.specs.Limits.{plan_room};
ghost use Rattle.listing.specs.Prints.{Front, Printed};
ghost use Rattle.row_text.specs.Rows.{row_text, row_text_room};
ghost use Rattle.program_io.specs.Came.{Came, plan_file};

use scope::{Refusal, limits};

// What is printed for what was read, the first p bytes of a buffer: the text of the whole plan file, however long it is.
fn text(plan: &[u8], p: usize, out: &mut [u8]) -> Result<usize, Refusal>
    requires { Came plan_file p plan.now × (length plan.now ≡ plan_room) × (length out.old ≡ row_text_room) }
    ensures { (file : List ℕ) → Front plan.now p file → Printed (row_text file) out.old out.new result }
{
    match row_text::row_text(&plan[..p], out) {
        Ok(n) => Ok(n),
        Err(refusal) => listing::refusal_text(refusal, out),
    }
}

fn main(rt: HostRuntime) {
    let mut plan = [0u8; limits::PLAN_ROOM];
    let mut out = [0u8; row_text::ROOM];
    let p = program_io::read_plan(&rt, b"row", &mut plan);
    let answer = text(&plan, p, &mut out);
    program_io::print(&rt, b"row", answer, &out);
}
