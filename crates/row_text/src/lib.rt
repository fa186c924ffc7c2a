// A plan's row as text: a plan file as a line of decimals, and such a text as a plan file. Each function takes anything and refuses by
// document 01's numbers. It leans on `plan` for both forms of a plan, and on `text` and `listing` for what is printed.

#![tactic(auto)]

ghost use Rattle.std.specs.Prelude.{◌≡◌, ◌+◌, ◌<◌, ◌^◌, length, drop, true};
ghost use Rattle.text.specs.Text.{Puts};
ghost use Rattle.scope.specs.Limits.{longest_row};
ghost use Rattle.scope.specs.Questions.{read_file};
ghost use Rattle.listing.specs.Prints.{Says, Prints};
ghost use Rattle.plan.specs.Answers.{Writes};
ghost use Rattle.row_text.specs.Rows.{mark, row_line, numbers_of};
ghost use Rattle.row_text.specs.Rows.{ends as Rows·ends, row_text as Rows·row_text};

use bits::byte;
use scope::{Refusal, limits};
use text::{number_at, put, put_number};

// Bytes enough for the longest row as text, or for a refusal, with at most six bytes a number.
pub const ROOM: usize = 6 * limits::ROW;

// A number more than the longest row has, so that a longer row is seen to be too long (proofs/Front), and six bytes for each number: five
// digits and the mark behind them.
const ROW_ROOM: usize = limits::ROW + 1;

pub const TEXT_ROOM: usize = 6 * ROW_ROOM;

// What a word counts as that is no number of 16 bits: no field can hold it.
const NO_NUMBER: u16 = 65535;

// The byte after the number at an index of a row.
fn mark_after(row: &[u16], i: usize) -> u8
    requires { i < length row.now }
    ensures { result ≡ mark (drop (i + 1) row.now) }
{
    if i + 1 < row.len() { b' ' } else { b'\n' }
}

// The numbers of a row in decimal, with single spaces between them and a line feed at the end, as far as the buffer goes; and the
// index after them.
fn row_line(out: &mut [u8], row: &[u16]) -> usize
    requires { length row.now < 2 ^ 32 }
    ensures { Puts (row_line row.now) out.old out.new 0 result }
{
    let mut next = 0;
    for (i, &n) in row.iter().enumerate() {
        next = put_number(out, next, n as usize, mark_after(row, i));
    }
    next
}

// The line of a row.
fn listed(row: &[u16], out: &mut [u8]) -> Result<usize, Refusal>
    requires { length row.now < 2 ^ 32 }
    ensures { Prints (row_line row.now) out.old out.new result }
{
    listing::print(out, |part| row_line(part, row))
}

// The row of a plan file as text: how many bytes, or refusal 1, 2, 4 to 10, 14 to 19, 13, and then nothing is written.
pub fn row_text(file: &[u8], out: &mut [u8]) -> Result<usize, Refusal>
    ensures { Says (read_file file.now longest_row) (Rows·row_text file.now) out.old
        out.new result }
{
    let mut row = [0u16; limits::ROW];
    let n = plan::read_file(file, &mut row)?;
    listed(&row[..n], out)
}

// A space or a line feed ends a number.
fn ends(b: usize) -> bool
    ensures { result ≡ Rows·ends true b }
{
    b == 32 || b == 10
}

// The numbers of a text, as far as the buffer goes, and how many the text has.
fn numbers(text: &[u8], out: &mut [u16]) -> usize
    ensures { Puts (numbers_of text.now) out.old out.new 0 result }
{
    let mut n = 0;
    let mut i = 0;
    while i < text.len() {
        let Some(word) = number_at(text, i, 65535) else {
            return put(out, n, NO_NUMBER);
        };
        if text.len() <= word.next {
            return put(out, n, word.value as u16);
        }
        if !ends(byte(text, word.next)) {
            return put(out, n, NO_NUMBER);
        }
        n = put(out, n, word.value as u16);
        i = word.next + 1;
    }
    n
}

// The plan file of the row that a text says: how many bytes, or refusal 1 to 10, 14 to 19, 13.
pub fn pack_text(text: &[u8], file: &mut [u8]) -> Result<usize, Refusal>
    ensures { Writes (numbers_of text.now) file.old file.new result }
{
    let mut row = [0u16; ROW_ROOM];
    let n = numbers(text, &mut row);
    plan::write_file(&row[..n.min(ROW_ROOM)], file)
}
