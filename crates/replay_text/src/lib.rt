// The listing of a replay for the bytes of a plan file and of its input: document 01, "Programs". `replay_text` takes any bytes, lays the
// whole text into a lent buffer, and refuses a bad plan, bad cuts and a buffer that is too short. It leans on `plan` (the row of a file),
// `cut_lines` (the cuts of an input), `cut_replay` (the replay) and `listing` (the text). That the first bytes of a long file and a long
// input print what the whole prints is in proofs/Theorems.

#![tactic(auto)]

ghost use Rattle.listing.specs.Prints.{Says};
ghost use Rattle.scope.specs.Questions.{replay};
ghost use Rattle.scope.specs.Limits.{longest_events};
ghost use Rattle.scope.specs.Lines.{cuts_of, replay_text};
ghost use Rattle.replay_text.specs.Text.{text_of, may_list};

use plan::Good;
use scope::{Refusal, limits};

// The numbers of 65 cuts, which are as many as can matter.
const MOST_CUTS: usize = 2 * (limits::LINKS + 1);

// The listing of the replay of a good row under a cut list: how many bytes, or refusal 12, 13.
pub fn played(good: Good<'_>, cuts: &[u16], out: &mut [u8]) -> Result<usize, Refusal>
    ensures { Says (replay good.entry.row.now cuts.now longest_events) (text_of good.entry.row.now cuts.now)
        out.old out.new result }
{
    let mut events = [0u16; limits::EVENTS];
    let n = cut_replay::replay_good(good, cuts, &mut events)?;
    listing::listing(n, good.row, &events, out)
}

// The same for the cuts that an input says.
fn played_input(good: Good<'_>, input: &[u8], out: &mut [u8]) -> Result<usize, Refusal>
    ensures { Says (replay good.entry.row.now (cuts_of input.now) longest_events)
        (text_of good.entry.row.now (cuts_of input.now)) out.old out.new result }
{
    let mut pairs = [0u16; MOST_CUTS];
    let n = cut_lines::cuts(input, &mut pairs);
    played(good, &pairs[..n], out)
}

// The listing for a plan file and an input: how many bytes, or refusal 1, 2, 4 to 10, 14 to 19, 12, 13, and then nothing is written. The plan's
// refusal comes before the cuts'.
pub fn replay_text(file: &[u8], input: &[u8], out: &mut [u8]) -> Result<usize, Refusal>
    ensures { Says (may_list file.now input.now) (replay_text file.now input.now)
        out.old out.new result }
{
    let mut row = [0u16; limits::ROW];
    let n = plan::read_file(file, &mut row)?;
    played_input(Good { row: &row[..n] }, input, out)
}
