// The lines of the verdict program, laid into lent bytes from an index on: document 01, "one line `k l resistant`, or `k l` and the
// pairs' numbers", and "`slack`, message, place and slack". Each function gives the index after its line, and asks that this index
// can be told. It leans on specs/Lines of `scope` and on `text`.

#![tactic(auto)]

ghost use Rattle.text.specs.Text.{Puts, Told};
ghost use Rattle.scope.specs.Lines.{resistant_line, failing_line, slack_line, signed};
ghost use Rattle.scope.specs.Lines.{parted as Lines·parted, spaced as Lines·spaced};

use text::{put_byte, put_decimal, put_number, put_word};

// A plan that is resistant for k and l.
pub fn resistant_line(out: &mut [u8], at: usize, k: usize, l: usize) -> usize
    requires { Told at (resistant_line k l) }
    ensures { Puts (resistant_line k l) out.old out.new at result }
{
    let a = put_number(out, at, k, b' ');
    let b = put_decimal(out, a, l);
    put_word(out, b, b" resistant\n")
}

// Numbers, each after a space.
pub fn spaced(out: &mut [u8], at: usize, cuts: &[u16]) -> usize
    requires { Told at (Lines·spaced cuts.now) }
    ensures { Puts (Lines·spaced cuts.now) out.old out.new at result }
{
    let mut next = at;
    for &n in cuts {
        let a = put_byte(out, next, b' ');
        next = put_decimal(out, a, n as usize);
    }
    next
}

// Numbers with a space between them.
pub fn parted(out: &mut [u8], at: usize, numbers: &[u16]) -> usize
    requires { Told at (Lines·parted numbers.now) }
    ensures { Puts (Lines·parted numbers.now) out.old out.new at result }
{
    let [first, rest @ ..] = numbers else {
        return at;
    };
    let next = put_decimal(out, at, *first as usize);
    spaced(out, next, rest)
}

// A plan that fails for k and l, with the cuts that show it.
pub fn failing_line(out: &mut [u8], at: usize, k: usize, l: usize, cuts: &[u16]) -> usize
    requires { Told at (failing_line k l cuts.now) }
    ensures { Puts (failing_line k l cuts.now) out.old out.new at result }
{
    let a = put_number(out, at, k, b' ');
    let b = put_decimal(out, a, l);
    let c = spaced(out, b, cuts);
    put_byte(out, c, b'\n')
}

// A number that may be below zero.
pub fn put_signed(out: &mut [u8], at: usize, z: i32) -> usize
    requires { Told at (signed z) }
    ensures { Puts (signed z) out.old out.new at result }
{
    let n = z.unsigned_abs() as usize;
    if 0 <= z {
        return put_decimal(out, at, n);
    }
    let next = put_byte(out, at, b'-');
    put_decimal(out, next, n)
}

// The slack of a message's second path from a place.
pub fn slack_line(out: &mut [u8], at: usize, message: usize, place: usize, slack: i32) -> usize
    requires { Told at (slack_line message place slack) }
    ensures { Puts (slack_line message place slack) out.old out.new at result }
{
    let a = put_word(out, at, b"slack ");
    let b = put_number(out, a, message, b' ');
    let c = put_number(out, b, place, b' ');
    let d = put_signed(out, c, slack);
    put_byte(out, d, b'\n')
}
