// What the programs read and write: the file `plan.bin`, files by name, standard input, standard output, and what they say on standard
// error. No contract can say which bytes were read or written; that each count lies within its buffer and came from a read that did not
// fail is proved. It leans on `std`, whose calls of the operating system are assumed. Nothing else here writes, and only `print` writes
// standard output.

#![tactic(auto)]

ghost use Rattle.std.specs.Prelude.{◌≤◌, ◌<◌, ◌≡◌, length, OnOk, true};
ghost use Rattle.program_io.specs.Came.{Came, named, plan_file, Reads, Prints};
ghost use Rattle.program_io.specs.Counts.{IsPrefixLen};
ghost use Rattle.program_io.specs.More.{says, More};
ghost use Rattle.program_io.specs.Pieces.{ReadsPiece};

use scope::Refusal;
use std::fs::{File, OpenOptions};
use std::io::{Cursor, Write};
use std::rt::Clock;
use std::{fs, io, str};

// The operating system's numbers for what it is not asked: a file whose name has a zero byte, and one whose name is no text, which `std` has
// no call for.
const INVALID: i32 = 22;

const NO_TEXT: i32 = 84;

// A name beside `plan.bin`, with letters behind the dot.
const BESIDE: [u8; 15] = *b"plan.bin.xxxxxx";

// How many such names are tried.
const TRIED: u64 = 238328;

// One read behind the first bytes of a buffer.
fn read_more<R: io::Read>(source: &mut R, buf: &mut [u8], from: usize) -> io::Result<usize>
    requires { from ≤ length buf.old }
    ensures { More result from buf.new }
{
    io::Read::read(source, &mut buf[from..])
}

// Reads until the buffer is full or nothing more comes.
fn read_all<R: io::Read>(source: &mut R, buf: &mut [u8]) -> io::Result<usize>
    ensures { More result 0 buf.new }
{
    let mut done = 0;
    while done < buf.len() {
        let n = read_more(source, buf, done)?;
        if n == 0 {
            return Ok(done);
        }
        done += n;
    }
    Ok(done)
}

// Bytes on standard error. Where they cannot be written, there is nobody to tell.
fn to_stderr(rt: &HostRuntime, bytes: &[u8]) {
    let _ = io::Print::write_all(&rt.stderr(), bytes);
}

// Why a call failed, in the operating system's words: as `std` prints it, without the number behind them.
fn reason(rt: &HostRuntime, why: io::Error) {
    let mut text = Cursor::new([0u8; 256]);
    let _ = write!(text, "{why}");
    let n = text.position() as usize;
    let bytes = text.into_inner();
    if n <= bytes.len() {
        let printed = str::from_utf8(&bytes[..n]).unwrap_or("");
        let (words, _) = printed.split_once(" (os error ").unwrap_or((printed, ""));
        to_stderr(rt, words.as_bytes());
    }
}

// A line on standard error: a program's name, what went wrong, and why.
fn tell(rt: &HostRuntime, name: &[u8], what: &[u8], why: io::Error) {
    to_stderr(rt, name);
    to_stderr(rt, what);
    to_stderr(rt, b": ");
    reason(rt, why);
    to_stderr(rt, b"\n");
}

// A line on standard error: a file that counts as empty, and why.
fn tell_empty(rt: &HostRuntime, program: &[u8], name: &[u8], why: io::Error) {
    to_stderr(rt, program);
    to_stderr(rt, b": ");
    tell(rt, name, b" counts as empty", why);
}

// The name of a file as text, which is how `std` takes it.
fn text(name: &[u8]) -> io::Result<&str> {
    if name.contains(&0) {
        return Err(io::Error::from_raw_os_error(INVALID));
    }
    str::from_utf8(name).map_err(|_| io::Error::from_raw_os_error(NO_TEXT))
}

// The file of a name, to be read.
fn open(rt: &HostRuntime, name: &[u8]) -> io::Result<File> {
    File::open(rt, text(name)?)
}

// Reads the file of a name until the buffer is full or the file ends.
fn read_file(rt: &HostRuntime, name: &[u8], buf: &mut [u8]) -> io::Result<usize>
    ensures { More result 0 buf.new }
{
    let mut file = open(rt, name)?;
    read_all(&mut file, buf)
}

// Reads a file in this way, and answers how many bytes it put at the buffer's start. A file that is missing or cannot be read, or whose name is
// no text, which `std` opens no file by, counts as empty, and a line on standard error says which.
pub fn read_named(rt: &HostRuntime, program: &[u8], name: &[u8], buf: &mut [u8]) -> usize
    ensures { Came (named name.now) result buf.new × IsPrefixLen result buf.new }
{
    match read_file(rt, name, buf) {
        Ok(n) => n,
        Err(why) => {
            tell_empty(rt, program, name, why);
            0
        }
    }
}

// Reads `plan.bin` in this way.
pub fn read_plan(rt: &HostRuntime, program: &[u8], buf: &mut [u8]) -> usize
    ensures { Came plan_file result buf.new × IsPrefixLen result buf.new }
{
    read_named(rt, program, b"plan.bin", buf)
}

// What a read of standard input says of the bytes that it was handed: how many of them came, 0 at the end. An error is never an end: there is
// no count, and a line on standard error says why.
fn said(rt: &HostRuntime, name: &[u8], got: io::Result<usize>, rest: &[u8]) -> Option<usize>
    ensures { result ≡ says got (length rest.now) }
{
    match got {
        Ok(n) => Some(n.min(rest.len())),
        Err(why) => {
            tell(rt, name, b": standard input cannot be read", why);
            None
        }
    }
}

// Reads standard input in the same way. A read that fails is no end of it: a line on standard error says so, and there is no count.
pub fn read_input(rt: &HostRuntime, name: &[u8], buf: &mut [u8]) -> Option<usize>
    ensures { Reads result buf.new }
{
    let got = read_all(&mut rt.stdin(), buf);
    said(rt, name, got, buf)
}

// One read of standard input, after `turn` others: as many bytes as came, at least one, or none at its end.
// A read that fails is no end of it, as above. Only the promise looks at `turn`: what came is what came in all turns before, and this piece.
#[tactic(auto, using(crate::proofs::Reading::reads_piece))]
pub fn read_piece(rt: &HostRuntime, name: &[u8], turn: u64, buf: &mut [u8]) -> Option<usize>
    requires { 0 < length buf.old }
    ensures { ReadsPiece result turn buf.new }
{
    let piece = read_more(&mut rt.stdin(), buf, 0);
    said(rt, name, piece, buf)
}

// As many bytes of a buffer as an answer says, in one go, on standard output.
fn write_answer(rt: &HostRuntime, answer: Result<usize, Refusal>, buf: &[u8]) -> io::Result<()>
    ensures { OnOk result (Prints true answer buf.now) }
{
    if let Ok(n) = answer {
        if n <= buf.len() {
            return io::Print::write_all(&rt.stdout(), &buf[..n]);
        }
    }
    Err(io::Error::from_raw_os_error(INVALID))
}

// Writes as many bytes of a buffer as an answer says, in one go, on standard output: whether all were written. Where they were not, a line
// on standard error says so.
pub fn print(rt: &HostRuntime, name: &[u8], answer: Result<usize, Refusal>, buf: &[u8]) -> bool
    ensures { Prints result answer buf.now }
{
    match write_answer(rt, answer, buf) {
        Ok(()) => true,
        Err(why) => {
            tell(rt, name, b": standard output cannot be written", why);
            false
        }
    }
}

// The second that the clock shows, if it can be read.
pub fn seconds(rt: &HostRuntime) -> Option<u64> {
    match rt.since_1970() {
        Ok(now) => Some(now.as_secs()),
        Err(_) => None,
    }
}

// A line on standard error, and nowhere else: a program's name, and words with a number between them.
pub fn say(rt: &HostRuntime, name: &[u8], before: &[u8], n: u64, after: &[u8]) {
    to_stderr(rt, name);
    to_stderr(rt, before);
    let _ = io::Print::print(&rt.stderr(), n);
    to_stderr(rt, after);
}

// A file that is made anew, with the mode that files have here; none where the name is taken.
fn create(rt: &HostRuntime, path: &str) -> io::Result<File> {
    OpenOptions::new()
        .write(true)
        .create_new(true)
        .open(rt, path)
}

// The letters of a number, at the end of a name.
fn spell(path: &mut [u8; 15], n: u64) {
    let mut rest = n;
    for i in 9..15 {
        path[i] = b'a' + (rest % 26) as u8;
        rest /= 26;
    }
}

// A new file of a name that nobody has: the first free one of those from the clock's nanosecond on.
fn new_file(rt: &HostRuntime, path: &mut [u8; 15]) -> io::Result<File> {
    let first = match rt.since_1970() {
        Ok(now) => u64::from(now.subsec_nanos()),
        Err(_) => 0,
    };
    for turn in 0..TRIED {
        spell(path, first.wrapping_add(turn));
        match create(rt, text(path)?) {
            Err(why) if why.kind() == io::ErrorKind::AlreadyExists => {}
            made => return made,
        }
    }
    Err(io::Error::from(io::ErrorKind::AlreadyExists))
}

// All of the bytes into a file that was opened, which is closed.
fn fill(mut file: File, bytes: &[u8]) -> io::Result<()> {
    file.write_all(bytes)?;
    file.sync_all()
}

// A file that was filled gets the name `plan.bin`, if nobody has it: an empty file takes the name first, which fails where there is one.
fn take_name(rt: &HostRuntime, path: &str) -> io::Result<()> {
    create(rt, "plan.bin")?;
    let renamed = fs::rename(rt, path, "plan.bin");
    if renamed.is_err() {
        let _ = fs::remove_file(rt, "plan.bin");
    }
    renamed
}

// What `save` does, and why it fails.
fn save_beside(rt: &HostRuntime, plan: &[u8]) -> io::Result<()> {
    let mut path = BESIDE;
    let file = new_file(rt, &mut path)?;
    let path = str::from_utf8(&path).unwrap_or("");
    let saved = fill(file, plan).and_then(|()| take_name(rt, path));
    if saved.is_err() {
        let _ = fs::remove_file(rt, path);
    }
    saved
}

// The bytes of a plan as `plan.bin`, whole or not at all, and never over a file of that name: they are written beside it, and what was begun
// is removed where that fails, with a line on standard error.
pub fn save(rt: &HostRuntime, name: &[u8], plan: &[u8]) {
    if let Err(why) = save_beside(rt, plan) {
        tell(rt, name, b": plan.bin is not written", why);
    }
}
