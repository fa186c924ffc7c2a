// The lines of the sheet that the program `shelf` prints, laid into lent bytes from an index on: document 02, [2]. A plan's line is its
// figures, or its refusal, and its name; the last lines are the two sums for each k, which a `Tally` keeps while plans are taken one by one.
// Each function that lays a text gives the index after it, and asks that this index can be told. How many bytes the lines and the sheet can
// have is in proofs/Room, and that the order of plans changes no sum in proofs/Order. It leans on specs/Shelf of `scope`, on `text` and on
// `verdict_lines`.

#![tactic(auto)]

ghost use Rattle.std.specs.Prelude.{[]};
ghost use Rattle.text.specs.Text.{Puts, Told};
ghost use Rattle.sheet_lines.specs.Sheet.{name_ending, figures_line, refused_plan, sums_line, tally_lines};
ghost use Rattle.sheet_lines.specs.Tally.{rated, sums, Tallies, MayAdd, Adds};

use scope::Refusal;
use scope::limits::CUTS;
use text::{put_byte, put_number, put_refusal, put_word};
use verdict_lines::parted;

// A sum for each k.
pub const SUMS: usize = 1 + CUTS;

// The two sums for one k: how many plans with a figure for it lose nothing, and the sum of losses.
#[derive(Clone, Copy)]
pub struct Sums {
    pub unharmed: usize,
    pub lost: usize,
}

// For each k its sums.
#[derive(Clone, Copy)]
pub struct Tally {
    pub sums: [Sums; SUMS],
}

// Nothing is counted yet.
pub fn no_plan() -> Tally
    ensures { Tallies [] result }
{
    Tally {
        sums: [Sums {
            unharmed: 0,
            lost: 0,
        }; SUMS],
    }
}

// One plan more, with its figures for k from 0 on.
pub fn add(t: Tally, messages: usize, figures: &[u16]) -> Tally
    requires { MayAdd t messages figures.now }
    ensures { Adds t (rated messages figures.now) result }
{
    let mut sums = t.sums;
    for (k, &figure) in figures.iter().enumerate() {
        let loss = messages.saturating_sub(figure as usize);
        sums[k].unharmed += usize::from(loss == 0);
        sums[k].lost += loss;
    }
    Tally { sums }
}

// The end of a plan's line: a space and its name.
fn put_name(out: &mut [u8], at: usize, name: &[u8]) -> usize
    requires { Told at (name_ending name.now) }
    ensures { Puts (name_ending name.now) out.old out.new at result }
{
    let a = put_byte(out, at, b' ');
    let b = put_word(out, a, name);
    put_byte(out, b, b'\n')
}

// A plan with its figures.
pub fn figures_line(out: &mut [u8], at: usize, figures: &[u16], name: &[u8]) -> usize
    requires { Told at (figures_line figures.now name.now) }
    ensures { Puts (figures_line figures.now name.now) out.old out.new at result }
{
    let next = parted(out, at, figures);
    put_name(out, next, name)
}

// A plan that is refused.
pub fn refused_line(out: &mut [u8], at: usize, refusal: Refusal, name: &[u8]) -> usize
    requires { Told at (refused_plan refusal name.now) }
    ensures { Puts (refused_plan refusal name.now) out.old out.new at result }
{
    let next = put_refusal(out, at, refusal);
    put_name(out, next, name)
}

// The two sums for k.
fn sums_line(out: &mut [u8], at: usize, k: usize, sums: Sums) -> usize
    requires { Told at (sums_line k sums.unharmed sums.lost) }
    ensures { Puts (sums_line k sums.unharmed sums.lost) out.old out.new at result }
{
    let a = put_number(out, at, k, b' ');
    let b = put_number(out, a, sums.unharmed, b' ');
    put_number(out, b, sums.lost, b'\n')
}

// The sums for each k.
pub fn sum_lines(out: &mut [u8], at: usize, t: Tally) -> usize
    requires { Told at (tally_lines t 0 sums) }
    ensures { Puts (tally_lines t 0 sums) out.old out.new at result }
{
    let mut next = at;
    for (k, &sums) in t.sums.iter().enumerate() {
        next = sums_line(out, next, k, sums);
    }
    next
}
