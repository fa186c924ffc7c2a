// Words of a line, for the probe: numbers and bytes read from a line, numbers and bytes written into a buffer, and buffers filled and
// compared with their filling. What each gives is in specs/Words. It leans on `text` for what is read and written, and on `verdict_lines`
// for numbers behind spaces.

#![tactic(auto)]

ghost use Rattle.std.specs.Prelude.{◌≡◌, ℕ, Some, None, MatchOption, cond, ltb, ◌+◌, ◌<◌, ◌/◌, ◌%◌, [], ◌∷◌, length, take, drop, replicate, min};
ghost use Rattle.std.specs.List.{list_all};
ghost use Rattle.scope.specs.Lines.{decimal};
ghost use Rattle.scope.specs.Lines.{spaced as Lines·spaced};
ghost use Rattle.text.specs.Text.{Puts, Told};
ghost use Rattle.probe_words.specs.Words.{part_of, last_word, hex_of, Finds, ReadsThem, Lists, found, number_next, number_value};
ghost use Rattle.probe_words.specs.Words.{pair_next, pair_value, Bytes, Numbers, glyph_of, hex_word, pairs_of, filler, filler16};

use bits::byte;
use text::{Number, number_at, put_decimal, put_word};

// A part of some bytes, empty where there is no such part.
pub fn part(s: &[u8], from: usize, to: usize) -> &[u8]
    ensures { result.now ≡ part_of s.now from to }
{
    s.get(from..to).unwrap_or(&[])
}

// What stands behind one space at an index of a line, to its end.
pub fn last_word(line: &[u8], at: usize) -> &[u8]
    ensures { result.now ≡ last_word line.now at }
{
    match line.get(at..) {
        Some([b' ', word @ ..]) => word,
        _ => &[],
    }
}

// The number that stands behind one space at an index of a line, at most 65535.
pub fn number(line: &[u8], at: usize) -> Option<Number>
    ensures { MatchOption result (number_next line.now at ≡ at)
        (λ r. (at < number_next line.now at) × Finds (number_value line.now) (number_next line.now) 65535 (length line.now) at r) }
{
    if line.len() <= at {
        return None;
    }
    if byte(line, at) != 32 {
        return None;
    }
    number_at(line, at + 1, 65535)
}

// The same as a number of 16 bits and the index behind it, none where there is no such number.
fn next_number(line: &[u8], at: usize) -> Option<(u16, usize)>
    ensures { result ≡ found (number_value line.now) (number_next line.now) at }
{
    let found = number(line, at)?;
    Some((found.value as u16, found.next))
}

// Things of a line from an index on, as `read` finds each with the index behind it, into the front of what is lent: how many, and where
// they end.
fn listed<T: Copy, F: Fn(usize) -> Option<(T, usize)>>(
    at: usize,
    into: &mut [T],
    read: F,
) -> (usize, usize)
    requires { F.IsAlwaysCallable read }
    ensures { (value : ℕ → T) → (next : ℕ → ℕ) → ReadsThem (F.post read) value next
        → Lists value next at into.old into.new result }
{
    let mut i = at;
    for n in 0..into.len() {
        let Some(found) = read(i) else {
            return (n, i);
        };
        into[n] = found.0;
        i = found.1;
    }
    (into.len(), i)
}

// The numbers of a line from an index to its end, each behind one space, into the front of what is lent: how many, 0 where the line
// has anything else.
pub fn numbers(line: &[u8], at: usize, into: &mut [u16]) -> usize
    ensures { Numbers line.now at into.old into.new result }
{
    let (n, end) = listed(at, into, |i| next_number(line, i));
    if end < line.len() { 0 } else { n }
}

// What a hexadecimal digit stands for, none for any other byte.
fn digit(b: u8) -> Option<u8>
    ensures { result ≡ cond (ltb (hex_of b) 16) (Some (hex_of b)) None }
{
    match b {
        b'0'..=b'9' => Some(b - b'0'),
        b'a'..=b'f' => Some(b - b'a' + 10),
        _ => None,
    }
}

// The byte that two hexadecimal digits at an index stand for, and the index behind them.
fn pair(word: &[u8], i: usize) -> Option<(u8, usize)>
    ensures { result ≡ found (pair_value word.now) (pair_next word.now) i }
{
    match word.get(i..) {
        Some([high, low, ..]) => Some((digit(*high)? * 16 + digit(*low)?, i + 2)),
        _ => None,
    }
}

// The bytes of a word, pairs of digits, or `-` for none, into the front of what is lent: how many; where it is no such word, how many were
// written all the same.
pub fn bytes(word: &[u8], into: &mut [u8]) -> Result<usize, usize>
    ensures { Bytes word.now into.old into.new result }
{
    let (n, end) = listed(0, into, |i| pair(word, i));
    let whole = match word.len() {
        0 => false,
        1 => word[0] == b'-',
        len => len <= end,
    };
    whole.then_some(n).ok_or(n)
}

// A word at an index of a buffer, or at its end where the index lies behind it, as far as the buffer goes; the index after the word.
pub fn put(out: &mut [u8], at: usize, word: &[u8]) -> usize
    ensures { Puts word.now out.old out.new (min at (length out.old)) result }
{
    put_word(out, at.min(out.len()), word)
}

// A number in decimal, likewise.
pub fn put_number(out: &mut [u8], at: usize, n: usize) -> usize
    ensures { Puts (decimal n) out.old out.new (min at (length out.old)) result }
{
    put_decimal(out, at.min(out.len()), n)
}

// The first so many numbers of a row, each behind one space.
pub fn put_numbers(out: &mut [u8], at: usize, row: &[u16], n: usize) -> usize
    requires { Told at (Lines·spaced (take n row.now)) }
    ensures { Puts (Lines·spaced (take n row.now)) out.old out.new at result }
{
    verdict_lines::spaced(out, at, &row[..n.min(row.len())])
}

// A hexadecimal digit.
fn glyph(d: u8) -> u8
    requires { d < 16 }
    ensures { result ≡ glyph_of d }
{
    if d < 10 { b'0' + d } else { b'a' + (d - 10) }
}

// A byte as two of them.
fn put_pair(out: &mut [u8], at: usize, b: u8) -> usize
    requires { Told at (glyph_of (b / 16) ∷ glyph_of (b % 16) ∷ []) }
    ensures { Puts (glyph_of (b / 16) ∷ glyph_of (b % 16) ∷ []) out.old out.new at result }
{
    put_word(out, at, &[glyph(b / 16), glyph(b % 16)])
}

// Bytes as pairs of digits.
fn put_pairs(out: &mut [u8], at: usize, bytes: &[u8]) -> usize
    requires { Told at (pairs_of bytes.now) }
    ensures { Puts (pairs_of bytes.now) out.old out.new at result }
{
    let mut next = at;
    for b in bytes {
        next = put_pair(out, next, *b);
    }
    next
}

// The first so many bytes as a word, `-` for none.
pub fn put_bytes(out: &mut [u8], at: usize, bytes: &[u8], n: usize) -> usize
    requires { Told at (hex_word (take n bytes.now)) }
    ensures { Puts (hex_word (take n bytes.now)) out.old out.new at result }
{
    match &bytes[..n.min(bytes.len())] {
        [] => put_word(out, at, b"-"),
        first => put_pairs(out, at, first),
    }
}

// What a lent buffer is filled with before a call.
pub trait Filling: Copy + PartialEq {
    ghost FILL: { Self };

    const FILL: Self;

    // A copy of it is the same.
    ghost copied: { Self.is_infallible FILL × ((x : Self) → Self.is_clone FILL x → x ≡ FILL) };
}

impl Filling for u8 {
    ghost FILL = { filler };

    const FILL: u8 = 0xA5;

    ghost copied = { (tt, λ x e. e) };
}

impl Filling for u16 {
    ghost FILL = { filler16 };

    const FILL: u16 = 0xA5A5;

    ghost copied = { (tt, λ x e. e) };
}

pub fn fill<T: Filling>(items: &mut [T])
    ensures { items.new ≡ replicate (length items.old) T.FILL }
{
    items.fill(T::FILL);
}

// Whether the filling stands from an index on.
pub fn kept<T: Filling>(items: &[T], from: usize) -> bool
    ensures { result ≡ list_all (λ x. T.eq x T.FILL) (drop from items.now) }
{
    items.iter().skip(from).all(|x| *x == T::FILL)
}

// Moves a part to the front.
pub fn shift(s: &mut [u8], from: usize, to: usize) -> usize
    ensures { Puts (part_of s.old from to) s.old s.new 0 result }
{
    if to <= from || s.len() < to {
        return 0;
    }
    s.copy_within(from..to, 0);
    to - from
}
