// Every public question for programs in other languages, as the crate `nuthatchet_c` exports it: include/nuthatchet.h, docs/FACE.md. Numbers and slices
// only. Each function takes anything and asks nothing, returns the number of the refusal, 0 where there is none, and writes its place,
// the place and the step on a path, and the result, zero where documents 01 and 02 say zero. It leans on the crate that answers the
// question, and adds only how it is said.

#![tactic(auto)]

ghost use Rattle.std.specs.Prelude.{◌+◌, ◌≡◌};
ghost use Rattle.scope.specs.Limits.{longest_row};
ghost use Rattle.scope.specs.Lines.{replay_text, refused_line};
ghost use Rattle.scope.specs.Outcome.{outcome_of, gives, refused, refusal_on};
ghost use Rattle.scope.specs.Questions.{judge, read_file, figure_of};
ghost use Rattle.replay_text.specs.Text.{may_list};
ghost use Rattle.row_text.specs.Rows.{row_text, numbers_of};
ghost use Rattle.nuthatchet.specs.Told.{Refuses, Told, TellsRead, TellsWritten, TellsReplay, TellsText};
ghost use Rattle.nuthatchet.specs.Told.{TellsAll, TellsFigures, TellsSlack};
ghost use Rattle.nuthatchet.specs.Part.{TellsPart};
ghost use Rattle.nuthatchet.specs.Ruled.{ruled, TellsRuling};
ghost use Rattle.nuthatchet.specs.Explained.{explained, Few, TellsExplanation};

use scope::{Refusal, refusal_on};

// A refusal: its number is returned, and the three others are written.
fn refuse(refusal: Refusal, place: &mut usize, at: &mut usize, step: &mut usize) -> usize
    ensures { Refuses (refused refusal) result place.new at.new step.new }
{
    *place = refusal.place;
    *at = refusal.at;
    *step = refusal.step;
    refusal.no
}

// Nothing is refused: zero for each of the four.
fn allow(place: &mut usize, at: &mut usize, step: &mut usize) -> usize
    ensures { Refuses (gives 0) result place.new at.new step.new }
{
    *place = 0;
    *at = 0;
    *step = 0;
    0
}

// An answer as five numbers.
fn tell(
    answer: Result<usize, Refusal>,
    place: &mut usize,
    at: &mut usize,
    step: &mut usize,
    res: &mut usize,
) -> usize
    ensures { Told (outcome_of answer) result place.new at.new step.new res.new }
{
    match answer {
        Ok(n) => {
            *res = n;
            allow(place, at, step)
        }
        Err(r) => {
            *res = 0;
            refuse(r, place, at, step)
        }
    }
}

// How many pairs the first failing list has, 0 where the plan is resistant.
fn pairs_of(ruling: Result<Option<usize>, Refusal>) -> Result<usize, Refusal>
    ensures { outcome_of result ≡ ruled ruling }
{
    let found = ruling?;
    match found {
        None => Ok(0),
        Some(pairs) => Ok(pairs),
    }
}

// How many pairs the list has that explains a capture, and one more: so 0 is left to say that there is none.
fn one_more(explanation: Result<Option<usize>, Refusal>) -> Result<usize, Refusal>
    requires { Few explanation }
    ensures { outcome_of result ≡ explained explanation }
{
    let found = explanation?;
    match found {
        None => Ok(0),
        Some(pairs) => Ok(pairs + 1),
    }
}

// Refusals 1 to 10 and 14 to 19 of a row, or how many numbers it has.
pub fn nuthatchet_judge(
    row: &[u16],
    place: &mut usize,
    at: &mut usize,
    step: &mut usize,
    res: &mut usize,
) -> usize
    ensures { Told (judge row.now) result place.new at.new step.new res.new }
{
    let answer = plan::judge(row);
    tell(answer, place, at, step, res)
}

// A file read into a lent row: how many numbers, or refusal 1, 2, 4 to 10, 14 to 19, 13.
pub fn nuthatchet_read_file(
    file: &[u8],
    row: &mut [u16],
    place: &mut usize,
    at: &mut usize,
    step: &mut usize,
    res: &mut usize,
) -> usize
    ensures { TellsRead file.now row.old row.new result
        place.new at.new step.new res.new }
{
    let answer = plan::read_file(file, row);
    tell(answer, place, at, step, res)
}

// A row written into lent bytes: how many, or refusal 1 to 10, 14 to 19, 13.
pub fn nuthatchet_write_file(
    row: &[u16],
    file: &mut [u8],
    place: &mut usize,
    at: &mut usize,
    step: &mut usize,
    res: &mut usize,
) -> usize
    ensures { TellsWritten row.now file.old file.new result
        place.new at.new step.new res.new }
{
    let answer = plan::write_file(row, file);
    tell(answer, place, at, step, res)
}

// The second path of message m from place p: how many links it has, and the index in the row where they begin; 0 and 0 where there is
// none or the row is bad.
pub fn nuthatchet_second_path(row: &[u16], m: usize, p: usize, index: &mut usize) -> usize
    ensures { TellsPart row.now m p result index.new }
{
    let part = plan::second_path(row, m, p);
    let n = part.len();
    if n == 0 {
        *index = 0;
        return 0;
    }
    *index = rows::place_index(row, m, p) + 4;
    n
}

// The replay of a row under a cut list: the arrivals, with the row of events, or refusal 1 to 10, 14 to 19, 12, 13.
pub fn nuthatchet_replay(
    row: &[u16],
    cuts: &[u16],
    events: &mut [u16],
    place: &mut usize,
    at: &mut usize,
    step: &mut usize,
    res: &mut usize,
) -> usize
    ensures { TellsReplay row.now cuts.now events.old events.new result
        place.new at.new step.new res.new }
{
    let answer = cut_replay::replay(row, cuts, events);
    tell(answer, place, at, step, res)
}

// The verdict on a row for k and l: 0 pairs if it is resistant, or how many pairs the first failing list has, with that list; or refusal
// 1 to 10, 14 to 19, 11, 13.
pub fn nuthatchet_verdict(
    row: &[u16],
    k: usize,
    l: usize,
    list: &mut [u16],
    place: &mut usize,
    at: &mut usize,
    step: &mut usize,
    pairs: &mut usize,
) -> usize
    ensures { TellsRuling row.now k l list.old list.new result
        place.new at.new step.new pairs.new }
{
    let ruling = verdicts::verdict(row, k, l, list);
    tell(pairs_of(ruling), place, at, step, pairs)
}

// Which cuts explain a capture: 0 if no list of at most k pairs does, or one more than the pairs of the first list that does, with that
// list; or refusal 1 to 10, 14 to 19, 11, 23, 13.
pub fn nuthatchet_explain(
    row: &[u16],
    k: usize,
    capture: &[u16],
    list: &mut [u16],
    place: &mut usize,
    at: &mut usize,
    step: &mut usize,
    res: &mut usize,
) -> usize
    ensures { TellsExplanation row.now k capture.now list.old list.new result
        place.new at.new step.new res.new }
{
    let explanation = explanations::explain(row, k, capture, list);
    tell(one_more(explanation), place, at, step, res)
}

// All answers of a row for k, seven numbers for each l from 0 to M: how many numbers, or refusal 1 to 10, 14 to 19, 11, 13.
pub fn nuthatchet_all_answers(
    row: &[u16],
    k: usize,
    out: &mut [u16],
    place: &mut usize,
    at: &mut usize,
    step: &mut usize,
    res: &mut usize,
) -> usize
    ensures { TellsAll row.now k out.old out.new result
        place.new at.new step.new res.new }
{
    let answer = all_verdicts::all_answers(row, k, out);
    tell(answer, place, at, step, res)
}

// The figure of a row for k, the least number of arrivals over all cut lists of at most k pairs; or refusal 1 to 10, 14 to 19, 11.
pub fn nuthatchet_figure(
    row: &[u16],
    k: usize,
    place: &mut usize,
    at: &mut usize,
    step: &mut usize,
    res: &mut usize,
) -> usize
    ensures { Told (figure_of row.now k) result
        place.new at.new step.new res.new }
{
    let answer = figures::figure(row, k);
    tell(answer, place, at, step, res)
}

// The figures of a row for 0 to k: how many there are, or refusal 1 to 10, 14 to 19, 11, 13.
pub fn nuthatchet_figures(
    row: &[u16],
    k: usize,
    out: &mut [u16],
    place: &mut usize,
    at: &mut usize,
    step: &mut usize,
    res: &mut usize,
) -> usize
    ensures { TellsFigures row.now k out.old out.new result
        place.new at.new step.new res.new }
{
    let answer = figures::figures(row, k, out);
    tell(answer, place, at, step, res)
}

// The slack of the second path of message m from place p, or refusal 1 to 10, 14 to 19, 11.
pub fn nuthatchet_slack(
    row: &[u16],
    m: usize,
    p: usize,
    place: &mut usize,
    at: &mut usize,
    step: &mut usize,
    slots: &mut i32,
) -> usize
    ensures { TellsSlack row.now m p result place.new at.new step.new slots.new }
{
    match spare::slack(row, m, p) {
        Ok(z) => {
            *slots = z;
            allow(place, at, step)
        }
        Err(r) => {
            *slots = 0;
            refuse(r, place, at, step)
        }
    }
}

// The listing of the replay of a plan file under the cuts of an input: how many bytes, or refusal 1, 2, 4 to 10, 14 to 19, 12, 13.
pub fn nuthatchet_replay_text(
    file: &[u8],
    input: &[u8],
    out: &mut [u8],
    place: &mut usize,
    at: &mut usize,
    step: &mut usize,
    res: &mut usize,
) -> usize
    ensures { TellsText (may_list file.now input.now) (replay_text file.now input.now)
        out.old out.new result place.new at.new step.new res.new }
{
    let answer = replay_text::replay_text(file, input, out);
    tell(answer, place, at, step, res)
}

// A plan file's row as a line of decimals: how many bytes, or refusal 1, 2, 4 to 10, 14 to 19, 13.
pub fn nuthatchet_row_text(
    file: &[u8],
    out: &mut [u8],
    place: &mut usize,
    at: &mut usize,
    step: &mut usize,
    res: &mut usize,
) -> usize
    ensures { TellsText (read_file file.now longest_row) (row_text file.now) out.old out.new result
        place.new at.new step.new res.new }
{
    let answer = row_text::row_text(file, out);
    tell(answer, place, at, step, res)
}

// The line that a program prints for a refusal, by its number n, place p, at q and step s: how many bytes, or refusal 13.
pub fn nuthatchet_refusal_text(
    n: usize,
    p: usize,
    q: usize,
    s: usize,
    out: &mut [u8],
    place: &mut usize,
    at: &mut usize,
    step: &mut usize,
    res: &mut usize,
) -> usize
    ensures { TellsText (gives 0) (refused_line (refusal_on n p q s)) out.old out.new result
        place.new at.new step.new res.new }
{
    let answer = listing::refusal_text(refusal_on(n, p, q, s), out);
    tell(answer, place, at, step, res)
}

// The plan file of the row that a text says: how many bytes, or refusal 1 to 10, 14 to 19, 13.
pub fn nuthatchet_pack_text(
    text: &[u8],
    file: &mut [u8],
    place: &mut usize,
    at: &mut usize,
    step: &mut usize,
    res: &mut usize,
) -> usize
    ensures { TellsWritten (numbers_of text.now) file.old file.new result
        place.new at.new step.new res.new }
{
    let answer = row_text::pack_text(text, file);
    tell(answer, place, at, step, res)
}
