// The probe: every public question of the libraries as a line of text, answered in one line, in order, until the input ends
// (docs/TESTING.md). It is for tests, above all for the comparison with the second program. What is answered to a line is `probe_dispatch`'s;
// here is how lines come in and answers go out, proved to be safe and to end. Where a read or a write fails, no answer is made up: nothing is said
// of the buffers then, and `main` ends with that error, which is the only one. It leans on `probe_words` too.

#![tactic(auto)]

ghost use Rattle.std.specs.Prelude.{◌≤◌, length, IfOk};
ghost use Rattle.probe.specs.Stands.{Stands, StandsStill};

use std::io;
use std::ops::ControlFlow;

// Where the program stands: the input that is left lies from `from` to `to`, without a line feed before `seen`; so many bytes of
// answers wait to be written. `skips`: what comes up to the next line feed is the rest of a line that was too long.
#[derive(Clone, Copy)]
struct Place {
    from: usize,
    seen: usize,
    to: usize,
    waiting: usize,
    skips: bool,
}

// What a line's answer is lent: room for its numbers, for a row or a list, for a file, and for the answers that wait.
#[derive(Drop)]
struct Lent {
    given: [u16; 65536],
    row: [u16; 65600],
    file: [u8; 65600],
    out: [u8; 262144],
}

// One read into a buffer: how many bytes came, none at the end of the input.
fn read(rt: &HostRuntime, into: &mut [u8]) -> io::Result<usize>
    ensures { IfOk result (λ n. n ≤ length into.old) }
{
    io::Read::read(&mut rt.stdin(), into)
}

fn flush(rt: &HostRuntime, out: &[u8], waiting: usize) -> io::Result<()> {
    io::Print::write_all(&rt.stdout(), probe_words::part(out, 0, waiting))
}

// There is no whole line left. What there is goes to the front, and more is read behind it; no answer waits for that.
// Where nothing comes, the input has ended.
fn refill(
    rt: &HostRuntime,
    p: Place,
    input: &mut [u8],
    out: &[u8],
) -> io::Result<ControlFlow<Place, Place>>
    ensures { IfOk result (StandsStill (length input.old)) }
{
    flush(rt, out, p.waiting)?;
    let moved = probe_words::shift(input, p.from, p.to);
    let left = moved.min(input.len());
    let got = read(rt, &mut input[left..])?;
    let place = Place {
        from: 0,
        seen: left,
        to: left + got,
        waiting: 0,
        skips: p.skips,
    };
    Ok(if got == 0 {
        ControlFlow::Break(place)
    } else {
        ControlFlow::Continue(place)
    })
}

// A line fills the whole buffer: it is no question, and the rest of it is skipped.
fn overlong(p: Place, out: &mut [u8]) -> Place
    ensures { Stands 0 result }
{
    let mut waiting = p.waiting;
    if !p.skips {
        waiting = probe_words::put(out, waiting, b"?\n");
    }
    Place {
        from: 0,
        seen: 0,
        to: 0,
        waiting,
        skips: true,
    }
}

// The answer of a line goes behind those that wait, which are written first if it might not fit there. How many bytes then wait.
fn answer(rt: &HostRuntime, p: Place, line: &[u8], lent: &mut Lent) -> io::Result<usize> {
    if p.skips {
        return Ok(p.waiting);
    }
    let mut at = p.waiting;
    if lent.out.len() / 2 < at {
        flush(rt, &lent.out, at)?;
        at = 0;
    }
    Ok(probe_dispatch::answer(
        line,
        &mut lent.given,
        &mut lent.row,
        &mut lent.file,
        &mut lent.out,
        at,
    ))
}

// Where the line ends that has no line feed before an index: at its line feed, or at the end of the input where none has come.
fn line_end(input: &[u8], seen: usize, to: usize) -> usize
    requires { (seen ≤ to) × (to ≤ length input.now) }
    ensures { (seen ≤ result) × (result ≤ to) }
{
    match memchr::memchr(b'\n', &input[seen..to]) {
        Some(i) => seen + i,
        None => to,
    }
}

// One line answered, or more input read.
fn turn(
    rt: &HostRuntime,
    p: Place,
    input: &mut [u8],
    lent: &mut Lent,
) -> io::Result<ControlFlow<Place, Place>>
    requires { Stands (length input.old) p }
    ensures { IfOk result (StandsStill (length input.old)) }
{
    let from = p.from;
    let to = p.to;
    let end = line_end(input, p.seen, to);
    if end < to {
        return Ok(ControlFlow::Continue(Place {
            from: end + 1,
            seen: end + 1,
            to,
            waiting: answer(rt, p, &input[from..end], lent)?,
            skips: false,
        }));
    }
    if to - from == input.len() {
        return Ok(ControlFlow::Continue(overlong(p, &mut lent.out)));
    }
    refill(rt, p, input, &lent.out)
}

// All turns. A proved loop has to end, and nothing says that the input does: the turns are counted down from a number that no run
// uses up. A last line may lack its line feed.
fn run(rt: &HostRuntime, input: &mut [u8], lent: &mut Lent) -> io::Result<()> {
    let mut p = Place {
        from: 0,
        seen: 0,
        to: 0,
        waiting: 0,
        skips: false,
    };
    for _turn in 0..u64::MAX {
        match turn(rt, p, input, lent)? {
            ControlFlow::Continue(next) => p = next,
            ControlFlow::Break(end) => return last(rt, end, input, lent),
        }
    }
    last(rt, p, input, lent)
}

// What is left when the input has ended.
fn last(rt: &HostRuntime, p: Place, input: &[u8], lent: &mut Lent) -> io::Result<()> {
    let mut waiting = p.waiting;
    if p.from < p.to {
        let line = probe_words::part(input, p.from, p.to);
        waiting = answer(rt, p, line, lent)?;
    }
    flush(rt, &lent.out, waiting)
}

// The buffers: a line has room for 131,072 bytes, hence for no more than 65,536 numbers, and every buffer that a question lends for
// its margin too.
fn main(rt: HostRuntime) -> io::Result<()> {
    let mut input = [0u8; 131072];
    let mut lent = Lent {
        given: [0; 65536],
        row: [0; 65600],
        file: [0; 65600],
        out: [0; 262144],
    };
    run(&rt, &mut input, &mut lent)
}
