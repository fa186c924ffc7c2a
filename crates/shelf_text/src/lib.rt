// The line of one plan on the sheet that the program `shelf` prints, from the bytes of its file, laid into lent bytes from an index on:
// document 02, [2]. It leans on `plan` (the row of a file), `figures` (what the line says) and `sheet_lines` (the line itself, and the
// sums). That the first bytes of a plan file decide its line is in proofs/Fronts, and that every sheet has room in `ROOM` bytes in
// proofs/Room.

#![tactic(auto)]

ghost use Rattle.shelf_text.specs.Lines.{MayLay, Rates, Lays};

use plan::Good;
use scope::limits;
use sheet_lines::Tally;

// Bytes enough for every sheet, and for a refusal.
pub const ROOM: usize = 88752;

// The index after a plan's line, and the sums with that plan.
#[derive(Clone, Copy)]
pub struct Laid {
    pub next: usize,
    pub tally: Tally,
}

// The figures of a good row, as far as the verdict program goes. Nothing is refused of such a k, so the answer is not looked at.
fn rated(good: Good<'_>, name: &[u8], t: Tally, out: &mut [u8], at: usize) -> Laid
    requires { MayLay name.now t at }
    ensures { Rates good.entry.row.now name.now t out.old out.new at result }
{
    let row = good.row;
    let mut all = [0u16; sheet_lines::SUMS];
    let k = verdict_text::highest(row, 1);
    let _ = figures::figures_good(good, k, &mut all);
    let figures = &all[..=k];
    let next = sheet_lines::figures_line(out, at, figures, name);
    let tally = sheet_lines::add(t, rows::messages(row), figures);
    Laid { next, tally }
}

// The line of a plan file under its name: its figures, or its refusal, which counts in no sum.
pub fn plan_line(file: &[u8], name: &[u8], t: Tally, out: &mut [u8], at: usize) -> Laid
    requires { MayLay name.now t at }
    ensures { Lays file.now name.now t out.old out.new at result }
{
    let mut row = [0u16; limits::ROW];
    match plan::read_file(file, &mut row) {
        Ok(n) => rated(Good { row: &row[..n] }, name, t, out, at),
        Err(refusal) => {
            let next = sheet_lines::refused_line(out, at, refusal, name);
            Laid { next, tally: t }
        }
    }
}
