// A plan as a file and as a row: judged, read, written, and one second path of it shown. Every function takes anything, refuses
// what is bad by document 01's numbers, and then leaves what it was lent as it was. It leans on `row_walk` and `forms` for the
// form of rows and files and on `rules` for the rules of a good plan.

#![tactic(auto)]

ghost use Rattle.std.specs.Prelude.{◌≡◌, length, MatchResult};
ghost use Rattle.scope.specs.Outcome.{outcome_of, number, refused};
ghost use Rattle.scope.specs.Questions.{judge, second_path};
ghost use Rattle.scope.specs.Outcome.{gives};
ghost use Rattle.scope.specs.Row.{walk_row};
ghost use Rattle.rows.specs.View.{PartAt};
ghost use Rattle.plan.specs.Answers.{Accepts, Reads, Writes, shown_index};

use scope::{Refusal, limits, refuse};

// A row that nothing is refused of: what every question takes that is asked of a row judged before, so that a program judges once.
#[derive(Clone, Copy)]
pub struct Good<'a> {
    pub row: &'a [u16],
    pub ghost is_good: { number (judge row.now) ≡ 0 },
}

// A row that is good, or refusals 1 to 10 and 14 to 19.
pub fn judged(row: &[u16]) -> Result<Good<'_>, Refusal>
    ensures { MatchResult result (λ plan. plan.row.now ≡ row.now) (λ r. judge row.now ≡ refused r) }
{
    judge(row)?;
    Ok(Good { row })
}

// Refusals 1 to 10 and 14 to 19 of a row, or how many numbers it has.
pub fn judge(row: &[u16]) -> Result<usize, Refusal>
    ensures { outcome_of result ≡ judge row.now }
{
    let n = row_walk::walk_row(row)?;
    rules::check(row)?;
    Ok(n)
}

// The row of a file, once its form is known to be right: refusals 5 to 10, 14 to 19 and 13, or the row into the front of what is lent.
fn accept(all: &[u16], row: &mut [u16]) -> Result<usize, Refusal>
    requires { walk_row all.now ≡ gives (length all.now) }
    ensures { Accepts all.now row.old row.new result }
{
    rules::check(all)?;
    let n = all.len();
    if n <= row.len() {
        rows::copy(all, row);
        Ok(n)
    } else {
        refuse(13, n)
    }
}

// A file read into a lent row: how many numbers, or refusal 1, 2, 4 to 10, 14 to 19, 13.
pub fn read_file(file: &[u8], row: &mut [u16]) -> Result<usize, Refusal>
    ensures { Reads file.now row.old row.new result }
{
    let mut all = [0u16; limits::ROW];
    let unpacked = forms::unpack(file, &mut all);
    unpacked.answer?;
    let n = unpacked.count;
    accept(&all[..n], row)
}

// A row written into lent bytes: how many, or refusal 1 to 10, 14 to 19, 13.
pub fn write_file(row: &[u16], file: &mut [u8]) -> Result<usize, Refusal>
    ensures { Writes row.now file.old file.new result }
{
    judge(row)?;
    let n = forms::packed_bytes(row);
    if n <= file.len() {
        forms::pack(row, &mut file[..n]);
        Ok(n)
    } else {
        refuse(13, n)
    }
}

// The second path of a message from a place, as a part of the row itself: its links only, and no number of them where there is none or
// the row is bad.
pub fn second_path(row: &[u16], m: usize, p: usize) -> &[u16]
    ensures { PartAt (second_path row.now m p) (shown_index row.now m p) row.entry.ref_ptr result.now result.ref_ptr }
{
    match judge(row) {
        Ok(_) => rows::second_path_part(row, m, p),
        Err(_) => &row[..0],
    }
}

// Where that part begins, for a caller that cannot tell it from the part: its index in the row, 0 where the part is empty.
pub fn second_index(row: &[u16], m: usize, p: usize) -> usize
    ensures { result ≡ shown_index row.now m p }
{
    match judge(row) {
        Ok(_) => rows::second_span(row, m, p).map_or(0, |span| span.from),
        Err(_) => 0,
    }
}
