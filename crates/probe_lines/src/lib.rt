// The lines that the probe answers with, laid into lent bytes from an index on: an answer with the numbers or bytes that it wrote and whether
// the lent buffer is as it should be, a slack, a list or that there is none, and a part of a row. The texts are in specs/Answers. Each function gives the
// index after its line, and asks that it begins in the lower half of what can be told. It leans on `text`, `verdict_lines` and `probe_words`.

#![tactic(auto)]

ghost use Rattle.std.specs.Prelude.{◌≤◌, ◌^◌, ◌≡◌};
ghost use Rattle.scope.specs.Lines.{refused_line};
ghost use Rattle.scope.specs.Outcome.{outcome_of};
ghost use Rattle.text.specs.Text.{Puts, Told};
ghost use Rattle.probe_lines.specs.Answers.{unknown_line, ending, ok_text, told_bytes, slack_line, no_list_line, list_line};
ghost use Rattle.probe_lines.specs.Answers.{part_line, place_line, numbers_end, bytes_end, Near, Worded};
ghost use Rattle.probe_lines.specs.Answers.{told as Answers·told, numbers_of as Answers·numbers_of};

use probe_words::{kept, put_bytes, put_numbers};
use scope::Refusal;
use text::{put_byte, put_decimal, put_number, put_refusal, put_word};

// A line that is no question.
pub fn unknown(out: &mut [u8], at: usize) -> usize
    requires { at ≤ 2 ^ 63 }
    ensures { Puts unknown_line out.old out.new at result }
{
    put_word(out, at, b"?\n")
}

// The end of an answer: whether the lent buffer is as it should be.
fn end(out: &mut [u8], at: usize, kept: bool) -> usize
    requires { Told at (ending kept) }
    ensures { Puts (ending kept) out.old out.new at result }
{
    if kept {
        return put_word(out, at, b"\n");
    }
    put_word(out, at, b" spoilt\n")
}

// An answer's first number.
fn ok(out: &mut [u8], at: usize, n: usize) -> usize
    requires { Told at (ok_text n) }
    ensures { Puts (ok_text n) out.old out.new at result }
{
    let first = put_word(out, at, b"ok ");
    put_decimal(out, first, n)
}

// Numbers that were written to the front of a lent row, and its end.
fn numbers_end(out: &mut [u8], at: usize, lent: &[u16], written: usize) -> usize
    requires { Told at (numbers_end written lent.now) }
    ensures { Puts (numbers_end written lent.now) out.old out.new at result }
{
    let last = put_numbers(out, at, lent, written);
    end(out, last, kept(lent, written))
}

// The same with bytes.
fn bytes_end(out: &mut [u8], at: usize, lent: &[u8], written: usize) -> usize
    requires { Told at (bytes_end written lent.now) }
    ensures { Puts (bytes_end written lent.now) out.old out.new at result }
{
    let word = put_byte(out, at, b' ');
    let last = put_bytes(out, word, lent, written);
    end(out, last, kept(lent, written))
}

// An outcome, with the numbers that it wrote.
pub fn told(
    answer: Result<usize, Refusal>,
    written: usize,
    lent: &[u16],
    out: &mut [u8],
    at: usize,
) -> usize
    requires { Near at lent.now }
    ensures { Puts (Answers·told (outcome_of answer) written lent.now) out.old out.new at result }
{
    match answer {
        Ok(n) => {
            let next = ok(out, at, n);
            numbers_end(out, next, lent, written)
        }
        Err(r) => {
            let last = put_refusal(out, at, r);
            end(out, last, kept(lent, 0))
        }
    }
}

// The same with bytes.
pub fn told_bytes(answer: Result<usize, Refusal>, lent: &[u8], out: &mut [u8], at: usize) -> usize
    requires { Near at lent.now }
    ensures { Puts (told_bytes (outcome_of answer) lent.now) out.old out.new at result }
{
    match answer {
        Ok(n) => {
            let next = ok(out, at, n);
            bytes_end(out, next, lent, n)
        }
        Err(r) => {
            let last = put_refusal(out, at, r);
            end(out, last, kept(lent, 0))
        }
    }
}

// A slack.
pub fn told_slack(slots: i32, out: &mut [u8], at: usize) -> usize
    requires { at ≤ 2 ^ 63 }
    ensures { Puts (slack_line slots) out.old out.new at result }
{
    let first = put_word(out, at, b"ok ");
    let last = verdict_lines::put_signed(out, first, slots);
    put_byte(out, last, b'\n')
}

// A refusal of a question that lends nothing.
pub fn told_refusal(refusal: Refusal, out: &mut [u8], at: usize) -> usize
    requires { at ≤ 2 ^ 63 }
    ensures { Puts (refused_line refusal) out.old out.new at result }
{
    let last = put_refusal(out, at, refusal);
    put_byte(out, last, b'\n')
}

// No list is found.
pub fn told_none(word: &[u8], lent: &[u16], out: &mut [u8], at: usize) -> usize
    requires { Worded at word.now lent.now }
    ensures { Puts (no_list_line word.now lent.now) out.old out.new at result }
{
    let last = put_word(out, at, word);
    end(out, last, kept(lent, 0))
}

// How many numbers so many pairs are; no list has more than three.
fn numbers_of(pairs: usize) -> usize
    ensures { result ≡ Answers·numbers_of pairs }
{
    if pairs < 4 { 2 * pairs } else { 0 }
}

// A list: how many pairs, and their numbers.
pub fn told_list(word: &[u8], pairs: usize, lent: &[u16], out: &mut [u8], at: usize) -> usize
    requires { Worded at word.now lent.now }
    ensures { Puts (list_line word.now pairs lent.now) out.old out.new at result }
{
    let written = numbers_of(pairs);
    let first = put_word(out, at, word);
    let next = put_decimal(out, first, pairs);
    numbers_end(out, next, lent, written)
}

// A part of a row: how many links, and which.
pub fn told_part(links: &[u16], out: &mut [u8], at: usize) -> usize
    requires { Near at links.now }
    ensures { Puts (part_line links.now) out.old out.new at result }
{
    let first = put_word(out, at, b"part ");
    let next = put_decimal(out, first, links.len());
    let last = verdict_lines::spaced(out, next, links);
    put_byte(out, last, b'\n')
}

// Where a part of a row begins, and how many links it has.
pub fn told_place(index: usize, n: usize, out: &mut [u8], at: usize) -> usize
    requires { at ≤ 2 ^ 63 }
    ensures { Puts (place_line index n) out.old out.new at result }
{
    let first = put_word(out, at, b"at ");
    let next = put_number(out, first, index, b' ');
    put_number(out, next, n, b'\n')
}
