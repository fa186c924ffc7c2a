// The whole text of the program `shelf`, into a lent buffer: the sheet of the plans that the lines of its input name, or the refusal of the
// first bad line alone, and then no plan is read. Between two plans, which it reads one after another by their names, it says on standard
// error how far it is. It leans on `names` for the lines, on `shelf_text` for a plan's line, on `sheet_lines` for the sums, and on
// `program_io`, which reads.

#![tactic(auto)]

ghost use Rattle.std.specs.Prelude.{◌≡◌, ℕ, List, length};
ghost use Rattle.scope.specs.Limits.{names_room};
ghost use Rattle.listing.specs.Prints.{Front};
ghost use Rattle.program_io.specs.Came.{Came, standard_input};
ghost use Rattle.shelf_text.specs.Lines.{MayLay};
ghost use Rattle.shelf_text.specs.Room.{sheet_room};
ghost use Rattle.whole_shelf.specs.Shown.{ReadAndLaid, MayRead, Sheets, Shown};

use scope::{Refusal, limits};
use sheet_lines::Tally;
use shelf_text::Laid;

// One plan: its file is read by its name, and its line is laid.
fn shelve(rt: &HostRuntime, name: &[u8], t: Tally, out: &mut [u8], at: usize) -> Laid
    requires { MayLay name.now t at }
    ensures { ReadAndLaid name.now t out.old out.new at result }
{
    let mut file = [0u8; limits::PLAN_ROOM];
    let n = program_io::read_named(rt, b"shelf", name, &mut file);
    shelf_text::plan_line(&file[..n], name, t, out, at)
}

// On standard error, how many plans are done, once in each second that the clock shows; the second when it was last said.
fn progress(rt: &HostRuntime, done: usize, count: usize, last: Option<u64>) -> Option<u64> {
    let now = program_io::seconds(rt);
    if now == last {
        return last;
    }
    program_io::say(rt, b"shelf", b": ", done as u64, b" of ");
    program_io::say(rt, b"", b"", count as u64, b" plans are done\n");
    now
}

// The sheet of the plans that the lines of a text name: how many bytes it has.
fn sheet(rt: &HostRuntime, input: &[u8], count: usize, out: &mut [u8]) -> usize
    requires { MayRead input.now count × (length out.old ≡ sheet_room) }
    ensures { Sheets input.now out.old out.new result }
{
    let mut tally = sheet_lines::no_plan();
    let mut next = 0;
    let mut from = 0;
    let mut done = 0;
    let mut last = program_io::seconds(rt);
    while from < input.len() {
        let end = names::name_end(input, from);
        let laid = shelve(rt, &input[from..end], tally, out, next);
        tally = laid.tally;
        next = laid.next;
        from = end + 1;
        done += 1;
        last = progress(rt, done, count, last);
    }
    sheet_lines::sum_lines(out, next, tally)
}

// What is printed for what was read, the first n bytes of a buffer: the text for all of standard input, however long it is, and for the plan
// files that it names.
pub fn text(rt: &HostRuntime, input: &[u8], n: usize, out: &mut [u8]) -> Result<usize, Refusal>
    requires { Came standard_input n input.now × (length input.now ≡ names_room) × (length out.old ≡ sheet_room) }
    ensures { (whole : List ℕ) → Front input.now n whole → Shown whole out.old out.new result }
{
    match names::check_names(&input[..n]) {
        Ok(count) => Ok(sheet(rt, &input[..n], count, out)),
        Err(refusal) => listing::refusal_text(refusal, out),
    }
}
