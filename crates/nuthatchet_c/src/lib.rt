// What C and Rust call: include/nuthatchet.h, docs/FACE.md. Each function is the one of its name in the crate `nuthatchet`, which says what the five
// numbers are, with the same clause.

#![tactic(auto)]

ghost use Rattle.scope.specs.Limits.{longest_row};
ghost use Rattle.scope.specs.Lines.{replay_text, refused_line};
ghost use Rattle.scope.specs.Outcome.{gives, refusal_on};
ghost use Rattle.scope.specs.Questions.{judge, read_file, figure_of};
ghost use Rattle.replay_text.specs.Text.{may_list};
ghost use Rattle.row_text.specs.Rows.{row_text, numbers_of};
ghost use Rattle.nuthatchet.specs.Told.{Told, TellsRead, TellsWritten, TellsReplay, TellsText};
ghost use Rattle.nuthatchet.specs.Told.{TellsAll, TellsFigures, TellsSlack};
ghost use Rattle.nuthatchet.specs.Part.{TellsPart};
ghost use Rattle.nuthatchet.specs.Ruled.{TellsRuling};
ghost use Rattle.nuthatchet.specs.Explained.{TellsExplanation};

// Refusals 1 to 10 and 14 to 19 of a row, or how many numbers it has.
#[unsafe(no_mangle)]
pub extern "C" fn nuthatchet_judge(
    row: &[u16],
    place: &mut usize,
    at: &mut usize,
    step: &mut usize,
    res: &mut usize,
) -> usize
    ensures { Told (judge row.now) result place.new at.new step.new res.new }
{
    nuthatchet::nuthatchet_judge(row, place, at, step, res)
}

// A file read into a lent row: how many numbers, or refusal 1, 2, 4 to 10, 14 to 19, 13.
#[unsafe(no_mangle)]
pub extern "C" fn nuthatchet_read_file(
    file: &[u8],
    row: &mut [u16],
    place: &mut usize,
    at: &mut usize,
    step: &mut usize,
    res: &mut usize,
) -> usize
    ensures { TellsRead file.now row.old row.new result
        place.new at.new step.new res.new }
{
    nuthatchet::nuthatchet_read_file(file, row, place, at, step, res)
}

// A row written into lent bytes: how many, or refusal 1 to 10, 14 to 19, 13.
#[unsafe(no_mangle)]
pub extern "C" fn nuthatchet_write_file(
    row: &[u16],
    file: &mut [u8],
    place: &mut usize,
    at: &mut usize,
    step: &mut usize,
    res: &mut usize,
) -> usize
    ensures { TellsWritten row.now file.old file.new result
        place.new at.new step.new res.new }
{
    nuthatchet::nuthatchet_write_file(row, file, place, at, step, res)
}

// The second path of message m from place p: how many links it has, and the index in the row where they begin; 0 and 0 where there is
// none or the row is bad.
#[unsafe(no_mangle)]
pub extern "C" fn nuthatchet_second_path(
    row: &[u16],
    m: usize,
    p: usize,
    index: &mut usize,
) -> usize
    ensures { TellsPart row.now m p result index.new }
{
    nuthatchet::nuthatchet_second_path(row, m, p, index)
}

// The replay of a row under a cut list: the arrivals, with the row of events, or refusal 1 to 10, 14 to 19, 12, 13.
#[unsafe(no_mangle)]
pub extern "C" fn nuthatchet_replay(
    row: &[u16],
    cuts: &[u16],
    events: &mut [u16],
    place: &mut usize,
    at: &mut usize,
    step: &mut usize,
    res: &mut usize,
) -> usize
    ensures { TellsReplay row.now cuts.now events.old events.new result
        place.new at.new step.new res.new }
{
    nuthatchet::nuthatchet_replay(row, cuts, events, place, at, step, res)
}

// The verdict on a row for k and l: 0 pairs if it is resistant, or how many pairs the first failing list has, with that list; or refusal
// 1 to 10, 14 to 19, 11, 13.
#[unsafe(no_mangle)]
pub extern "C" fn nuthatchet_verdict(
    row: &[u16],
    k: usize,
    l: usize,
    list: &mut [u16],
    place: &mut usize,
    at: &mut usize,
    step: &mut usize,
    pairs: &mut usize,
) -> usize
    ensures { TellsRuling row.now k l list.old list.new result
        place.new at.new step.new pairs.new }
{
    nuthatchet::nuthatchet_verdict(row, k, l, list, place, at, step, pairs)
}

// Which cuts explain a capture: 0 if no list of at most k pairs does, or one more than the pairs of the first list that does, with that
// list; or refusal 1 to 10, 14 to 19, 11, 23, 13.
#[unsafe(no_mangle)]
pub extern "C" fn nuthatchet_explain(
    row: &[u16],
    k: usize,
    capture: &[u16],
    list: &mut [u16],
    place: &mut usize,
    at: &mut usize,
    step: &mut usize,
    res: &mut usize,
) -> usize
    ensures { TellsExplanation row.now k capture.now list.old list.new result
        place.new at.new step.new res.new }
{
    nuthatchet::nuthatchet_explain(row, k, capture, list, place, at, step, res)
}

// All answers of a row for k, seven numbers for each l from 0 to M: how many numbers, or refusal 1 to 10, 14 to 19, 11, 13.
#[unsafe(no_mangle)]
pub extern "C" fn nuthatchet_all_answers(
    row: &[u16],
    k: usize,
    out: &mut [u16],
    place: &mut usize,
    at: &mut usize,
    step: &mut usize,
    res: &mut usize,
) -> usize
    ensures { TellsAll row.now k out.old out.new result
        place.new at.new step.new res.new }
{
    nuthatchet::nuthatchet_all_answers(row, k, out, place, at, step, res)
}

// The figure of a row for k, the least number of arrivals over all cut lists of at most k pairs; or refusal 1 to 10, 14 to 19, 11.
#[unsafe(no_mangle)]
pub extern "C" fn nuthatchet_figure(
    row: &[u16],
    k: usize,
    place: &mut usize,
    at: &mut usize,
    step: &mut usize,
    res: &mut usize,
) -> usize
    ensures { Told (figure_of row.now k) result
        place.new at.new step.new res.new }
{
    nuthatchet::nuthatchet_figure(row, k, place, at, step, res)
}

// The figures of a row for 0 to k: how many there are, or refusal 1 to 10, 14 to 19, 11, 13.
#[unsafe(no_mangle)]
pub extern "C" fn nuthatchet_figures(
    row: &[u16],
    k: usize,
    out: &mut [u16],
    place: &mut usize,
    at: &mut usize,
    step: &mut usize,
    res: &mut usize,
) -> usize
    ensures { TellsFigures row.now k out.old out.new result
        place.new at.new step.new res.new }
{
    nuthatchet::nuthatchet_figures(row, k, out, place, at, step, res)
}

// The slack of the second path of message m from place p, or refusal 1 to 10, 14 to 19, 11.
#[unsafe(no_mangle)]
pub extern "C" fn nuthatchet_slack(
    row: &[u16],
    m: usize,
    p: usize,
    place: &mut usize,
    at: &mut usize,
    step: &mut usize,
    slots: &mut i32,
) -> usize
    ensures { TellsSlack row.now m p result place.new at.new step.new slots.new }
{
    nuthatchet::nuthatchet_slack(row, m, p, place, at, step, slots)
}

// The listing of the replay of a plan file under the cuts of an input: how many bytes, or refusal 1, 2, 4 to 10, 14 to 19, 12, 13.
#[unsafe(no_mangle)]
pub extern "C" fn nuthatchet_replay_text(
    file: &[u8],
    input: &[u8],
    out: &mut [u8],
    place: &mut usize,
    at: &mut usize,
    step: &mut usize,
    res: &mut usize,
) -> usize
    ensures { TellsText (may_list file.now input.now) (replay_text file.now input.now)
        out.old out.new result place.new at.new step.new res.new }
{
    nuthatchet::nuthatchet_replay_text(file, input, out, place, at, step, res)
}

// A plan file's row as a line of decimals: how many bytes, or refusal 1, 2, 4 to 10, 14 to 19, 13.
#[unsafe(no_mangle)]
pub extern "C" fn nuthatchet_row_text(
    file: &[u8],
    out: &mut [u8],
    place: &mut usize,
    at: &mut usize,
    step: &mut usize,
    res: &mut usize,
) -> usize
    ensures { TellsText (read_file file.now longest_row) (row_text file.now) out.old out.new result
        place.new at.new step.new res.new }
{
    nuthatchet::nuthatchet_row_text(file, out, place, at, step, res)
}

// The line that a program prints for a refusal, by its number n, place p, at q and step s: how many bytes, or refusal 13.
#[unsafe(no_mangle)]
pub extern "C" fn nuthatchet_refusal_text(
    n: usize,
    p: usize,
    q: usize,
    s: usize,
    out: &mut [u8],
    place: &mut usize,
    at: &mut usize,
    step: &mut usize,
    res: &mut usize,
) -> usize
    ensures { TellsText (gives 0) (refused_line (refusal_on n p q s)) out.old out.new result
        place.new at.new step.new res.new }
{
    nuthatchet::nuthatchet_refusal_text(n, p, q, s, out, place, at, step, res)
}

// The plan file of the row that a text says: how many bytes, or refusal 1 to 10, 14 to 19, 13.
#[unsafe(no_mangle)]
pub extern "C" fn nuthatchet_pack_text(
    text: &[u8],
    file: &mut [u8],
    place: &mut usize,
    at: &mut usize,
    step: &mut usize,
    res: &mut usize,
) -> usize
    ensures { TellsWritten (numbers_of text.now) file.old file.new result
        place.new at.new step.new res.new }
{
    nuthatchet::nuthatchet_pack_text(text, file, place, at, step, res)
}
