// Files of a plan: the fields of one walked into its row, with refusals 1, 2 and 4, and a row written as its file, each by one loop that
// asks `grammar` for the next field. `row_walk` judges a row's form. proofs/Theorems.antt says what follows: files and rows give each
// other, and how long they can be. It leans on scope's `Row` and `File`.

#![tactic(auto)]

ghost use Rattle.std.specs.Prelude.{◌≡◌, ◌*◌, ◌^◌, ◌≤◌, ◌<◌, length};
ghost use Rattle.scope.specs.Outcome.{outcome_of};
ghost use Rattle.scope.specs.Bits.{bits};
ghost use Rattle.scope.specs.File.{ends_at, walk_file, row_bits, file_of};
ghost use Rattle.scope.specs.Limits.{longest_row};
ghost use Rattle.forms.specs.Unpack.{walk_fields, Unpacks};
ghost use Rattle.forms.specs.Pack.{Complete, Sized, Fitting, Packed};

use grammar::{opening, step, width};
use scope::{Refusal, refuse};

// What is found in a file: the answer of its walk, and how many numbers its row has.
#[derive(Clone, Copy)]
pub struct Unpacked {
    pub answer: Result<usize, Refusal>,
    pub count: usize,
}

// The walk over the fields after the edition, into the row from index 1 on.
fn fill(file: &[u8], row: &mut [u16]) -> Unpacked
    requires { (0 < length file.now) × (longest_row ≤ length row.old) }
    ensures { Unpacks file.now row.old row.new (walk_fields file.now) result }
{
    row[0] = 1;
    let mut s = opening();
    let mut p: usize = 4;
    let mut i: usize = 1;
    loop {
        let w = width(s);
        if w == 0 {
            return Unpacked {
                answer: Ok(p),
                count: i,
            };
        }
        if file.len() < (p + w + 7) / 8 {
            return Unpacked {
                answer: refuse(2, p),
                count: i,
            };
        }
        let v = bits::field(file, p, w);
        row[i] = v as u16;
        s = step(s, v);
        p += w;
        i += 1;
    }
}

// Refusal 4 of a file whose last field ends at a bit of it.
fn ends(file: &[u8], end: usize) -> Result<usize, Refusal>
    requires { (end ≤ 8 * length file.now) × (end < 2 ^ 32) }
    ensures { outcome_of result ≡ ends_at (bits file.now) end }
{
    let n = (end + 7) / 8;
    if n < file.len() {
        return refuse(4, end);
    }
    if bits::field(file, end, 8 * n - end) == 0 {
        Ok(end)
    } else {
        refuse(4, end)
    }
}

// A file's row into the front of a buffer that has room for the longest, with refusals 1, 2 and 4 of the file, or the bit where its
// last field ends. What is written is the row as far as the fields go, whether the file is refused or not.
pub fn unpack(file: &[u8], row: &mut [u16]) -> Unpacked
    requires { longest_row ≤ length row.old }
    ensures { Unpacks file.now row.old row.new (walk_file file.now) result }
{
    if file.len() == 0 {
        row[0] = 1;
        return Unpacked {
            answer: refuse(2, 0),
            count: 1,
        };
    }
    let filled = fill(file, row);
    let count = filled.count;
    if bits::field(file, 0, 4) != 1 {
        return Unpacked {
            answer: refuse(1, 0),
            count,
        };
    }
    let answer = match filled.answer {
        Ok(end) => ends(file, end),
        Err(r) => Err(r),
    };
    Unpacked { answer, count }
}

// How many bits the fields of a row have, its edition's with them.
fn packed_bits(row: &[u16]) -> usize
    requires { Complete row.now }
    ensures { result ≡ length (row_bits row.now) }
{
    let mut s = opening();
    let mut p: usize = 4;
    for i in 1..row.len() {
        p += width(s);
        s = step(s, rows::number(row, i));
    }
    p
}

// How many bytes the file of a row has.
pub fn packed_bytes(row: &[u16]) -> usize
    requires { Complete row.now }
    ensures { Sized row.now result }
{
    (packed_bits(row) + 7) / 8
}

// The edition and the fields of a row into a part of as many bytes as its file has: the bit where they end.
fn pack_fields(row: &[u16], file: &mut [u8]) -> usize
    requires { Fitting row.now file.old }
    ensures { Packed row.now file.new result }
{
    bits::put(file, 0, 4, 1);
    let mut s = opening();
    let mut p: usize = 4;
    for i in 1..row.len() {
        let w = width(s);
        let v = rows::number(row, i);
        bits::put(file, p, w, v);
        s = step(s, v);
        p += w;
    }
    p
}

// The file of a row into a part of exactly as many bytes: every bit of it is written, the zero bits after the last field too.
pub fn pack(row: &[u16], file: &mut [u8])
    requires { Fitting row.now file.old }
    ensures { file.new ≡ file_of row.now }
{
    let end = pack_fields(row, file);
    bits::put(file, end, 8 * file.len() - end, 0);
}
