// The cut lines that the replay program reads: document 01, "a line is `cut `, the slot, one space, the link and a line feed". A
// text of any bytes is taken; `cuts` reads as many lines as the lent buffer has room for pairs, and a line of another form ends
// the list with a lone number, which is the bad pair of refusal 12. That 65 lines are as many as can matter, and 650 bytes as many
// as they can have, is in proofs/Enough. It leans on specs/Lines of `scope` and on `text`, which reads bytes, words and numbers.

#![tactic(auto)]

ghost use Rattle.std.specs.Prelude.{◌+◌, ◌<◌, ◌^◌, ◌≡◌, MatchOption, false};
ghost use Rattle.cut_lines.specs.Reads.{Found, CutLine, Cuts};
ghost use Rattle.scope.specs.Lines.{is_cut_line, number_size};

use bits::byte;
use text::{Number, number_at, stands};

// The number at an index and the index behind it: a number of at most 63 without needless zeros. What the reader of `text` leaves of a number
// that is larger, or has a needless zero, is none.
fn number(text: &[u8], i: usize) -> Option<Number>
    requires { i + 2 < 2 ^ 64 }
    ensures { MatchOption result (number_size text.now i ≡ 0) (Found text.now i) }
{
    let r = number_at(text, i, 63)?;
    if r.next == i + 1 && text.get(i + 1).is_some_and(|b| b.is_ascii_digit()) {
        return None;
    }
    Some(r)
}

// A cut line that was read, and the index after it.
#[derive(Clone, Copy)]
struct Line {
    slot: u16,
    link: u16,
    end: usize,
}

// The cut line at an index, if one stands there.
fn line_at(text: &[u8], i: usize) -> Option<Line>
    requires { i + 10 < 2 ^ 64 }
    ensures { MatchOption result (is_cut_line text.now i ≡ false) (CutLine text.now i) }
{
    if !stands(text, i, b"cut ") {
        return None;
    }
    let slot = number(text, i + 4)?;
    if byte(text, slot.next) != 32 {
        return None;
    }
    let link = number(text, slot.next + 1)?;
    if byte(text, link.next) != 10 {
        return None;
    }
    Some(Line {
        slot: slot.value as u16,
        link: link.value as u16,
        end: link.next + 1,
    })
}

// The cuts of a text, a pair a line, of as many lines as the buffer has room for pairs: how many numbers were written. A line of
// another form ends them with a lone 0.
pub fn cuts(text: &[u8], out: &mut [u16]) -> usize
    ensures { Cuts text.now out.old out.new result }
{
    let lines = out.len() / 2;
    let mut i = 0;
    for k in 0..lines {
        if text.len() <= i {
            return 2 * k;
        }
        match line_at(text, i) {
            Some(line) => {
                out[2 * k] = line.slot;
                out[2 * k + 1] = line.link;
                i = line.end;
            }
            None => {
                out[2 * k] = 0;
                return 2 * k + 1;
            }
        }
    }
    2 * lines
}
