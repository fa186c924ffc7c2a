// The replay program: reads `plan.bin` and cuts from standard input, and prints document 01's listing, or a refusal.

#![tactic(auto)]

ghost use Rattle.std.specs.Prelude.{◌≡◌, ℕ, List, length};
ghost use Rattle.scope.specs.Limits.{plan_room, cuts_room};
ghost use Rattle.scope.specs.Lines.{replay_text};
ghost use Rattle.listing.specs.Prints.{Front, Printed};
ghost use Rattle.listing.specs.Room.{listing_room};
ghost use Rattle.program_io.specs.Came.{Came, plan_file, standard_input};

use scope::{Refusal, limits};

// What is printed for what was read, the first p bytes of one buffer and the first i of the other: the text of the whole plan file and the
// whole input, however long they are.
fn text(plan: &[u8], p: usize, input: &[u8], i: usize, out: &mut [u8]) -> Result<usize, Refusal>
    requires came { Came plan_file p plan.now × Came standard_input i input.now }
    requires plan_len { (length plan.now ≡ plan_room) × (length input.now ≡ cuts_room) × (length out.old ≡ listing_room) }
    ensures { (file cuts : List ℕ) → Front plan.now p file → Front input.now i cuts →
        Printed (replay_text file cuts) out.old out.new result }
{
    match replay_text::replay_text(&plan[..p], &input[..i], out) {
        Ok(n) => Ok(n),
        Err(refusal) => listing::refusal_text(refusal, out),
    }
}

fn main(rt: HostRuntime) {
    let mut plan = [0u8; limits::PLAN_ROOM];
    let mut input = [0u8; limits::CUTS_ROOM];
    let mut out = [0u8; listing::ROOM];
    let p = program_io::read_plan(&rt, b"replay", &mut plan);
    if let Some(i) = program_io::read_input(&rt, b"replay", &mut input) {
        let answer = text(&plan, p, &input, i, &mut out);
        program_io::print(&rt, b"replay", answer, &out);
    }
}
