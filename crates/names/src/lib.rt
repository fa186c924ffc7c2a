// The names of plan files that the program `shelf` reads, one a line: document 02, [2]. A text of any bytes is taken. `check_names` says how
// many names it has, or refuses the first that is too long, empty or one too many; `name_end` is where the name ends that begins at an index.
// How the names of a text follow one another, and that its first `limits::NAMES_ROOM` bytes decide, is in proofs/Names and proofs/Front. It
// leans on specs/Shelf of `scope`.

#![tactic(auto)]

ghost use Rattle.std.specs.Prelude.{◌≡◌};
ghost use Rattle.names.specs.Names.{name_end, bad_size};
ghost use Rattle.scope.specs.Outcome.{outcome_of};
ghost use Rattle.scope.specs.Shelf.{check_names, names_of};

use scope::limits::{NAME, NAMES};
use scope::{Refusal, refuse};

// The index of the first line feed from an index on, or the text's length; past the end the index itself.
pub fn name_end(text: &[u8], from: usize) -> usize
    ensures { result ≡ name_end text.now from }
{
    let Some(rest) = text.get(from..) else {
        return from;
    };
    from + rest.iter().position(|b| *b == b'\n').unwrap_or(rest.len())
}

// A name of so many bytes is refused in this line.
fn is_bad(line: usize, size: usize) -> bool
    ensures { result ≡ bad_size line size }
{
    NAMES <= line || !(1..=NAME).contains(&size)
}

// How many names there are, or refusal 24 with the first line that is bad.
pub fn check_names(text: &[u8]) -> Result<usize, Refusal>
    ensures { outcome_of result ≡ check_names (names_of text.now) }
{
    let mut line = 0;
    let mut from = 0;
    while from < text.len() {
        let end = name_end(text, from);
        if is_bad(line, end - from) {
            return refuse(24, line);
        }
        line += 1;
        from = end + 1;
    }
    Ok(line)
}
