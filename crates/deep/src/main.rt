// The deep program: reads `plan.bin` and prints what the verdict program does, for k up to 3 whatever the size of the plan.
// `whole_verdict` composes the text.

#![tactic(auto)]

ghost use Rattle.std.specs.Prelude.{◌≡◌, ℕ, List, length};
ghost use Rattle.scope.specs.Limits.{plan_room};
ghost use Rattle.verdict_text.specs.Layout.{verdict_room};
ghost use Rattle.verdict_text.specs.Texts.{DeepText};
ghost use Rattle.listing.specs.Prints.{Front, PrintedOne};
ghost use Rattle.program_io.specs.Came.{Came, plan_file};

use scope::{Refusal, limits};

// What is printed for what was read, the first p bytes of a buffer: the text of the whole plan file, however long it is.
fn text(rt: &HostRuntime, plan: &[u8], p: usize, out: &mut [u8]) -> Result<usize, Refusal>
    requires { Came plan_file p plan.now × (length plan.now ≡ plan_room) × (length out.old ≡ verdict_room) }
    ensures { (file : List ℕ) → Front plan.now p file → PrintedOne (DeepText file) out.old
        out.new result }
{
    whole_verdict::text(rt, b"deep", 3, plan, p, out)
}

fn main(rt: HostRuntime) {
    let mut plan = [0u8; limits::PLAN_ROOM];
    let mut out = [0u8; verdict_text::ROOM];
    let p = program_io::read_plan(&rt, b"deep", &mut plan);
    let answer = text(&rt, &plan, p, &mut out);
    program_io::print(&rt, b"deep", answer, &out);
}
