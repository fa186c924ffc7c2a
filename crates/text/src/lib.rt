// Text into lent bytes and out of them. What writes, an item of any type, a byte, a word, a number in decimal and a refusal, lays its text over
// the buffer from an index on, as far as the buffer goes, and gives the index after the text, so a caller learns how many bytes a text has even
// where there is no room for it; each asks that this index can be told in 64 bits (`Told`). What reads finds a word and a number in decimal at an
// index. That a number printed is read back, and that what is read was printed so, is in proofs/Read. It leans on specs/Lines of `scope`, and on
// `bits` for the byte at an index.
//
// The buffer and the index are two parameters. In one struct that holds the lent buffer, each function would also have to promise that the
// buffer is still the caller's. And `write!` and `Display` promise which bytes they wrote only where they answer `Ok`, which nothing promises.

#![tactic(auto)]

ghost use Rattle.std.specs.Prelude.{◌≡◌, ◌+◌, ◌≤◌, ◌<◌, ◌^◌, MatchOption, length, [], ◌∷◌, ◌++◌};
ghost use Rattle.text.specs.Text.{Puts, Told};
ghost use Rattle.text.specs.Reading.{goes_on, size_at, Reads};
ghost use Rattle.text.specs.Reading.{stands as Reading·stands};
ghost use Rattle.scope.specs.Lines.{decimal, path_text, refused_text};
ghost use Rattle.scope.specs.Outcome.{names_link};

use bits::byte;
use scope::Refusal;

// One item.
pub fn put<T: Copy>(out: &mut [T], at: usize, item: T) -> usize
    requires { Told at (item ∷ []) }
    ensures { Puts (item ∷ []) out.old out.new at result }
{
    if at < out.len() {
        out[at] = item;
    }
    at + 1
}

// One byte.
pub fn put_byte(out: &mut [u8], at: usize, b: u8) -> usize
    requires { Told at (b ∷ []) }
    ensures { Puts (b ∷ []) out.old out.new at result }
{
    put(out, at, b)
}

// A fixed word.
pub fn put_word(out: &mut [u8], at: usize, word: &[u8]) -> usize
    requires { Told at word.now }
    ensures { Puts word.now out.old out.new at result }
{
    let mut next = at;
    for &b in word {
        next = put_byte(out, next, b);
    }
    next
}

// A number in decimal.
pub fn put_decimal(out: &mut [u8], at: usize, n: usize) -> usize
    requires { Told at (decimal n) }
    ensures { Puts (decimal n) out.old out.new at result }
{
    if n < 10 {
        return put_byte(out, at, b'0' + n as u8);
    }
    let next = put_decimal(out, at, n / 10);
    put_byte(out, next, b'0' + (n % 10) as u8)
}

// A number in decimal and the byte after it.
pub fn put_number(out: &mut [u8], at: usize, n: usize, mark: u8) -> usize
    requires { Told at (decimal n ++ (mark ∷ [])) }
    ensures { Puts (decimal n ++ (mark ∷ [])) out.old out.new at result }
{
    let next = put_decimal(out, at, n);
    put_byte(out, next, mark)
}

// The refusals of this number come with a place and a step.
fn names_link(no: usize) -> bool
    ensures { result ≡ names_link no }
{
    matches!(no, 7 | 10 | 14..=19)
}

// The place and the step of a refusal, where it has them.
fn put_path(out: &mut [u8], at: usize, refusal: Refusal) -> usize
    requires { Told at (path_text refusal) }
    ensures { Puts (path_text refusal) out.old out.new at result }
{
    if !names_link(refusal.no) {
        return at;
    }
    let place = put_byte(out, at, b' ');
    let space = put_decimal(out, place, refusal.at);
    let step = put_byte(out, space, b' ');
    put_decimal(out, step, refusal.step)
}

// A refusal, without the end of its line.
pub fn put_refusal(out: &mut [u8], at: usize, refusal: Refusal) -> usize
    requires { Told at (refused_text refusal) }
    ensures { Puts (refused_text refusal) out.old out.new at result }
{
    let number = put_word(out, at, b"refused ");
    let word = put_decimal(out, number, refusal.no);
    let place = put_word(out, word, b" place ");
    let path = put_decimal(out, place, refusal.place);
    put_path(out, path, refusal)
}

// A word stands at an index.
pub fn stands(text: &[u8], i: usize, word: &[u8]) -> bool
    requires { i + length word.now < 2 ^ 64 }
    ensures { result ≡ Reading·stands text.now i word.now }
{
    for (j, &b) in word.iter().enumerate() {
        if byte(text, i + j) != b as usize {
            return false;
        }
    }
    true
}

// A number that was read, and the index behind it.
#[derive(Clone, Copy)]
pub struct Number {
    pub value: usize,
    pub next: usize,
}

// A byte is a digit that goes on with a number.
pub fn goes_on(most: usize, begun: bool, a: usize, b: u8) -> bool
    requires { a ≤ 65535 }
    ensures { result ≡ goes_on most begun a b }
{
    if !b.is_ascii_digit() {
        return false;
    }
    (!begun || 0 < a) && a * 10 + (b - b'0') as usize <= most
}

// The number at an index, in decimal without needless zeros and at most so much: as many digits as go on with it, if any does.
pub fn number_at(text: &[u8], at: usize, most: usize) -> Option<Number>
    requires { most ≤ 65535 }
    ensures { MatchOption result (size_at most text.now at ≡ 0) (λ r. (0 < size_at most text.now at) × Reads most text.now at r) }
{
    let mut value = 0;
    let mut next = at;
    while next < text.len() {
        let b = text[next];
        if !goes_on(most, at < next, value, b) {
            break;
        }
        value = value * 10 + (b - b'0') as usize;
        next += 1;
    }
    if next == at {
        return None;
    }
    Some(Number { value, next })
}
