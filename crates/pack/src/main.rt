// A row of decimals on standard input, written as the plan file `plan.bin`, or its refusal on standard output. A file that is there already is
// left as it is: a line on standard error says so.

#![tactic(auto)]

ghost use Rattle.std.specs.Prelude.{◌≡◌, length};
ghost use Rattle.scope.specs.Limits.{longest_file};
ghost use Rattle.row_text.specs.Rows.{pack_room, Packs};
ghost use Rattle.program_io.specs.Came.{Came, standard_input};

use scope::{Refusal, limits};

// The plan file of what was read, the first n bytes of a buffer: that of the whole text, however long it is.
fn packed(text: &[u8], n: usize, plan: &mut [u8]) -> Result<usize, Refusal>
    requires { Came standard_input n text.now × (length text.now ≡ pack_room) × (length plan.old ≡ longest_file) }
    ensures { Packs text.now n plan.old plan.new result }
{
    row_text::pack_text(&text[..n], plan)
}

// The line of a refusal.
fn refuse(rt: &HostRuntime, refusal: Refusal) {
    let mut out = [0u8; listing::REFUSAL_ROOM];
    let said = listing::refusal_text(refusal, &mut out);
    program_io::print(rt, b"pack", said, &out);
}

fn main(rt: HostRuntime) {
    let mut text = [0u8; row_text::TEXT_ROOM];
    let mut plan = [0u8; limits::FILE];
    if let Some(n) = program_io::read_input(&rt, b"pack", &mut text) {
        match packed(&text, n, &mut plan) {
            Ok(bytes) => program_io::save(&rt, b"pack", &plan[..bytes]),
            Err(refusal) => refuse(&rt, refusal),
        }
    }
}
