// The lines of a capture, as the program `explain` reads them: document 02, [7], "lines of three decimals with single spaces", each ended by a
// line feed. A text of any length is read in pieces, byte by byte, and of it are kept what `capture` keeps of the triples, and the line that is
// being read: `begin`, then `feed` for each piece, then `finish`. A line out of form is a bad triple, and nothing behind a bad triple matters.
// That this is what specs/Lines of `scope` makes of the whole text is in proofs/; that printed lines are read back, and that accepted ones were
// printed so, in specs/Round. It leans on `text` for a digit that goes on with a number and on `capture`.

#![tactic(auto)]

ghost use Rattle.std.specs.Prelude.{◌≤◌, ◌≡◌, [], ◌∷◌};
ghost use Rattle.scope.specs.Plan.{plan_of};
ghost use Rattle.capture_lines.specs.Rest.{with_digit, with_number, is_fresh, step_of, SmallLine};
ghost use Rattle.capture_lines.specs.Reads.{MayRead, Feeds, Starts, Finishes};

use capture::Kept;
use text::goes_on;

// A line that is being read, which by default is none: how many of its numbers are, whether a digit of the next is and what its digits say, and the last two numbers.
#[derive(Clone, Copy, Default)]
pub struct Line {
    pub numbers: usize,
    pub begun: bool,
    pub value: usize,
    pub older: usize,
    pub newer: usize,
}

// What is read: what is kept of the triples of whole lines, and the line in whose midst the text is.
#[derive(Clone, Copy)]
pub struct Reading {
    pub kept: Kept,
    pub line: Line,
}

// What a byte does to a line: it goes on, it ends, or it is out of form.
#[derive(Clone, Copy)]
pub enum Step {
    On(Line),
    End,
    Out,
}

impl Line {
    // The line with a digit more.
    fn with_digit(self, b: u8) -> Line
        requires { SmallLine self × (48 ≤ b) }
        ensures { result ≡ with_digit self b }
    {
        Line {
            begun: true,
            value: self.value * 10 + (b - b'0') as usize,
            ..self
        }
    }

    // The line with its number ended.
    fn with_number(self) -> Line
        requires { SmallLine self }
        ensures { result ≡ with_number self }
    {
        Line {
            numbers: self.numbers + 1,
            begun: false,
            value: 0,
            older: self.newer,
            newer: self.value,
        }
    }

    // What a byte does to the line: a digit goes on with its number, a space ends the first two, a line feed the third.
    fn after_byte(self, b: u8) -> Step
        requires { SmallLine self }
        ensures { result ≡ step_of self b }
    {
        if goes_on(63, self.begun, self.value, b) {
            return Step::On(self.with_digit(b));
        }
        match (self.begun, self.numbers, b) {
            (true, 0 | 1, b' ') => Step::On(self.with_number()),
            (true, 2, b'\n') => Step::End,
            _ => Step::Out,
        }
    }

    // Nothing of the line is read.
    fn is_fresh(self) -> bool
        ensures { result ≡ is_fresh self }
    {
        self.numbers == 0 && !self.begun
    }
}

// Nothing is read yet.
pub fn begin() -> Reading
    ensures { Starts result }
{
    Reading {
        kept: capture::none(),
        line: Line::default(),
    }
}

// One byte more.
fn read_byte(row: &[u16], reading: Reading, crossed: &mut [u8], b: u8) -> Reading
    requires { MayRead row.now crossed.old reading }
    ensures { Feeds (plan_of row.now) (b ∷ []) crossed.old reading crossed.new result }
{
    let kept = reading.kept;
    let line = reading.line;
    if kept.bad {
        return reading;
    }
    match line.after_byte(b) {
        Step::On(next) => Reading { kept, line: next },
        Step::End => Reading {
            kept: capture::add(row, kept, crossed, line.older, line.newer, line.value),
            line: Line::default(),
        },
        Step::Out => Reading {
            kept: capture::unfinished(kept),
            line: Line::default(),
        },
    }
}

// A piece more.
pub fn feed(row: &[u16], reading: Reading, crossed: &mut [u8], piece: &[u8]) -> Reading
    requires { MayRead row.now crossed.old reading }
    ensures { Feeds (plan_of row.now) piece.now crossed.old reading crossed.new result }
{
    let mut r = reading;
    for &b in piece {
        r = read_byte(row, r, crossed, b);
    }
    r
}

// The text has ended: in the midst of a line it is out of form.
pub fn finish(reading: Reading) -> Kept
    ensures { Finishes reading result }
{
    let kept = reading.kept;
    if kept.bad {
        return kept;
    }
    if reading.line.is_fresh() {
        return kept;
    }
    capture::unfinished(kept)
}
