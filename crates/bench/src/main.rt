// Asks one question of the plan in `plan.bin` many times, for `./nuthatchet bench`: `bench read N`, `bench judge N` (the row), `bench replay N`
// (link 0 cut in slot 0), `bench onlyK N L` (the verdict for k K and l L), `bench verdictK N` (all answers for k K), `bench figuresK N` (the
// figures for 0 to K) and `bench inferK N` (at most K cuts that explain the capture on standard input, a byte a number); a space stands before
// N and L. It prints a checksum of the answers, of the row and of the numbers that the last one wrote, which the C program beside it
// (bench/bench.c) prints too.

#![tactic(auto)]

ghost use Rattle.std.specs.Prelude.{◌≤◌, ◌<◌, length};
ghost use Rattle.scope.specs.Limits.{longest_row};

use scope::Refusal;
use std::io;
use std::rt::Env;

// The numbers of as many crossings as a cycle can have.
const CAPTURE: usize = 3 * scope::limits::CROSSED;

// What is asked.
#[derive(Clone, Copy)]
enum Asks {
    Read,
    Judge,
    Replay,
    Only,
    Verdict,
    Figures,
    Infer,
}

impl Asks {
    // By the third letter of its word, which tells questions apart (reAd, juDge, rePlay, onLy, veRdict, fiGures, inFer).
    fn of(letter: u8) -> Asks {
        match letter {
            b'a' => Asks::Read,
            b'd' => Asks::Judge,
            b'p' => Asks::Replay,
            b'l' => Asks::Only,
            b'g' => Asks::Figures,
            b'f' => Asks::Infer,
            _ => Asks::Verdict,
        }
    }
}

// A question: what is asked, k and l.
#[derive(Clone, Copy)]
struct Question {
    asks: Asks,
    k: usize,
    l: usize,
}

// A refusal as a small number.
fn refused(r: Refusal) -> usize
    ensures { result < 65536 }
{
    ((r.no % 32 * 1024 + r.place % 1024) * 31 + r.at % 16 * 16 + r.step % 16) % 65536
}

// An answer as a small number.
fn small(answer: Result<usize, Refusal>) -> usize
    ensures { result < 65536 }
{
    match answer {
        Ok(n) => n % 65536,
        Err(r) => refused(r),
    }
}

// A list that is found, or none, as a small number.
fn found(list: Result<Option<usize>, Refusal>) -> usize
    ensures { result < 65536 }
{
    match list {
        Ok(None) => 0,
        Ok(Some(pairs)) => 1 + pairs % 16,
        Err(r) => refused(r),
    }
}

// A checksum, with more numbers.
fn mixed(sum: usize, numbers: &[u16]) -> usize
    requires { sum < 1000003 }
    ensures { result < 1000003 }
{
    let mut all = sum;
    for &n in numbers {
        all = (all * 31 + usize::from(n)) % 1000003;
    }
    all
}

// One question of a file, or of its row, the first n numbers of what is lent: its answer as a small number.
fn ask(
    q: Question,
    file: &[u8],
    row: &mut [u16],
    n: usize,
    capture: &[u16],
    out: &mut [u16],
) -> usize
    requires { n ≤ length row.old }
    ensures { result < 65536 }
{
    match q.asks {
        Asks::Read => small(plan::read_file(file, row)),
        Asks::Judge => small(plan::judge(&row[..n])),
        Asks::Replay => small(cut_replay::replay(&row[..n], &[0, 0], out)),
        Asks::Only => found(verdicts::verdict(&row[..n], q.k, q.l, out)),
        Asks::Verdict => small(all_verdicts::all_answers(&row[..n], q.k, out)),
        Asks::Figures => small(figures::figures(&row[..n], q.k, out)),
        Asks::Infer => found(explanations::explain(&row[..n], q.k, capture, out)),
    }
}

// The row of a file, by its form alone, so that one that breaks a rule can be judged too: how many numbers it has, 65536 where the form is
// refused.
fn unpacked(file: &[u8], row: &mut [u16]) -> usize
    requires { longest_row ≤ length row.old }
{
    let unpacked = forms::unpack(file, row);
    let answer = unpacked.answer;
    let n = unpacked.count;
    match answer {
        Ok(_) => n,
        Err(_) => 65536,
    }
}

// The same question so many times, and the checksum.
fn ask_all(
    q: Question,
    turns: usize,
    file: &[u8],
    row: &mut [u16],
    capture: &[u16],
    out: &mut [u16],
) -> usize
    requires { longest_row ≤ length row.old }
{
    let n = unpacked(file, row);
    if row.len() < n {
        return 0;
    }
    let mut sum = 0;
    for _turn in 0..turns {
        sum = (sum + ask(q, file, row, n, capture, out)) % 65536;
    }
    mixed(mixed(sum, row), out)
}

// The number that an argument says, behind a space.
fn number(rt: &impl Env, i: usize) -> usize {
    let mut word = [0u8; 8];
    let n = rt.arg(i, &mut word).unwrap_or(0);
    probe_words::number(&word[..n], 0).map_or(0, |found| found.value)
}

// What the first argument asks; its last letter is k. The third one is l.
fn asked(rt: &impl Env) -> Question {
    let mut name = [0u8; 8];
    let n = rt.arg(1, &mut name).unwrap_or(0);
    if n == 0 {
        return Question {
            asks: Asks::Verdict,
            k: 0,
            l: 0,
        };
    }
    Question {
        asks: Asks::of(name[2]),
        k: usize::from(name[n - 1] % 16),
        l: number(rt, 3),
    }
}

// The capture on standard input, a byte a number, where it is asked about.
fn read_capture<'a>(rt: &HostRuntime, q: Question, capture: &'a mut [u16; CAPTURE]) -> &'a [u16]
    ensures { length result.now ≤ length capture.old }
{
    let mut bytes = [0u8; CAPTURE];
    let n = match q.asks {
        Asks::Infer => program_io::read_input(rt, b"bench", &mut bytes).unwrap_or(0),
        _ => 0,
    };
    for (number, byte) in capture.iter_mut().zip(&bytes) {
        *number = u16::from(*byte);
    }
    &capture[..n]
}

fn main(rt: HostRuntime) -> io::Result<()> {
    let mut file = [0u8; scope::limits::PLAN_ROOM];
    let mut row = [0u16; scope::limits::ROW];
    let mut out = [0u16; scope::limits::EVENTS];
    let n = program_io::read_plan(&rt, b"bench", &mut file);
    let q = asked(&rt);
    let mut capture = [0u16; CAPTURE];
    let given = read_capture(&rt, q, &mut capture);
    let sum = ask_all(q, number(&rt, 2), &file[..n], &mut row, given, &mut out);
    println!(rt; "{sum}")
}
