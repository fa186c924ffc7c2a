// The words of document 01 that code and definitions share: what the next field of a plan is, and what an answer can be, with the
// one place that makes a refusal. The rules themselves are in specs/, one file for each section of the document; docs/TRACE.md leads
// from each sentence to its name.

#![tactic(auto)]

ghost use Rattle.std.specs.Prelude.{◌≡◌};
ghost use Rattle.scope.specs.Outcome.{outcome_of, refusal_at, refusal_on, refuse};

pub mod limits;

// A refusal: its number, and its place; of a rule of paths the place is the message, and with it come the place on its first path and
// the step, zero in every other refusal. One struct in every answer. The number is document 01's and stays a number: callers in other
// languages get it, and `listing::refusal_text` prints the line of any.
#[derive(Clone, Copy)]
pub struct Refusal {
    pub no: usize,
    pub place: usize,
    pub at: usize,
    pub step: usize,
}

// The refusal of a rule of paths: message, place and step. Every refusal is made here.
pub fn refusal_on(no: usize, message: usize, at: usize, step: usize) -> Refusal
    ensures { result ≡ refusal_on no message at step }
{
    Refusal {
        no,
        place: message,
        at,
        step,
    }
}

// The refusal with a number and a place.
pub fn refusal_at(no: usize, place: usize) -> Refusal
    ensures { result ≡ refusal_at no place }
{
    refusal_on(no, place, 0, 0)
}

// The answer that refuses with a number and a place.
pub fn refuse(no: usize, place: usize) -> Result<usize, Refusal>
    ensures { outcome_of result ≡ refuse no place }
{
    Err(refusal_at(no, place))
}

// The next field of a plan after its edition, with how many of each kind follow. The counts are those of the file, "less one":
// how many come after this one.
#[derive(Clone, Copy)]
pub enum Field {
    Vertices,
    Links,
    Messages {
        links: usize,
    },
    Timeout {
        links: usize,
        messages: usize,
    },
    From {
        links: usize,
        messages: usize,
    },
    To {
        links: usize,
        messages: usize,
    },
    Length {
        messages: usize,
    },
    Link {
        places: usize,
        messages: usize,
    },
    Slot {
        places: usize,
        messages: usize,
    },
    Flag {
        places: usize,
        messages: usize,
    },
    SecondLength {
        places: usize,
        messages: usize,
    },
    SecondLink {
        links: usize,
        places: usize,
        messages: usize,
    },
    End,
}

// Where a reader or writer of fields stands: the width of a slot in this edition, and the field that comes next.
#[derive(Clone, Copy)]
pub struct Fields {
    pub slot: usize,
    pub next: Field,
}
