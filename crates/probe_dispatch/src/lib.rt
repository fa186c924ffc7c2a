// A line of the probe and its answer: which question the line is, by its leading word, the numbers that stand behind the word, and the
// question's answer, laid into lent bytes from an index on. What a line asks and what is said to it is in specs/Line. It leans on
// `probe_words` for what is read and on `probe_questions` for what is answered.

#![tactic(auto)]

ghost use Rattle.std.specs.Prelude.{◌≤◌, ◌^◌, ◌≡◌, length};
ghost use Rattle.text.specs.Text.{Puts};
ghost use Rattle.probe_questions.specs.Asked.{Lays};
ghost use Rattle.probe_dispatch.specs.Line.{question_of, word_of, read_asked, Says, Answers};

use probe_lines::unknown;
use probe_questions::{OfPlace, of_place};
use text::stands;

// The questions.
#[derive(Clone, Copy)]
pub enum Question {
    Read,
    Write,
    Replay,
    Verdict,
    Explain,
    Figures,
    Figure,
    Slack,
    Second,
    Where,
    Spoil,
    Unknown,
}

// All but the last, in the order in which a line is asked for their words.
const QUESTIONS: [Question; 11] = [
    Question::Read,
    Question::Write,
    Question::Replay,
    Question::Verdict,
    Question::Explain,
    Question::Figures,
    Question::Figure,
    Question::Slack,
    Question::Second,
    Question::Where,
    Question::Spoil,
];

impl Question {
    // The word that it begins with.
    fn word(self) -> &'static [u8]
        ensures { result.now ≡ word_of self }
    {
        match self {
            Question::Read => b"read",
            Question::Write => b"write",
            Question::Replay => b"replay",
            Question::Verdict => b"verdict",
            Question::Explain => b"explain",
            Question::Figures => b"figures",
            Question::Figure => b"figure",
            Question::Slack => b"slack",
            Question::Second => b"second",
            Question::Where => b"where",
            Question::Spoil => b"spoil",
            Question::Unknown => b"",
        }
    }
}

// Which of them a line is: the first whose word it begins with.
fn which(line: &[u8]) -> Question
    ensures { result ≡ question_of line.now }
{
    for question in QUESTIONS {
        if stands(line, 0, question.word()) {
            return question;
        }
    }
    Question::Unknown
}

// ROOM HEX
fn read(line: &[u8], lent: &mut [u16], file: &mut [u8], out: &mut [u8], at: usize) -> usize
    requires { at ≤ 2 ^ 63 }
    ensures { Puts (read_asked (length lent.old) (length file.old) line.now)
        out.old out.new at result }
{
    let Some(room) = probe_words::number(line, 4) else {
        return unknown(out, at);
    };
    let word = probe_words::last_word(line, room.next);
    match probe_words::bytes(word, file) {
        Ok(n) => probe_questions::read(&file[..n], room.value, lent, out, at),
        Err(_) => unknown(out, at),
    }
}

// The answer of a question with these numbers.
fn asked(
    question: Question,
    line: &[u8],
    given: &[u16],
    lent: &mut [u16],
    file: &mut [u8],
    out: &mut [u8],
    at: usize,
) -> usize
    requires { at ≤ 2 ^ 63 }
    ensures { Lays (Says question line.now given.now (length lent.old) (length file.old))
        out.old out.new at result }
{
    match question {
        Question::Read => read(line, lent, file, out, at),
        Question::Write => probe_questions::write(given, file, out, at),
        Question::Replay => probe_questions::replay(given, lent, out, at),
        Question::Verdict => probe_questions::verdict(given, lent, out, at),
        Question::Explain => probe_questions::explain(given, lent, out, at),
        Question::Figures => probe_questions::figures(given, lent, out, at),
        Question::Figure => probe_questions::figure(given, out, at),
        Question::Slack => of_place(OfPlace::Slack, given, out, at),
        Question::Second => of_place(OfPlace::Second, given, out, at),
        Question::Where => of_place(OfPlace::Where, given, out, at),
        Question::Spoil => probe_questions::spoil(given, lent, file, out, at),
        Question::Unknown => unknown(out, at),
    }
}

// The answer of a line.
pub fn answer(
    line: &[u8],
    given: &mut [u16],
    lent: &mut [u16],
    file: &mut [u8],
    out: &mut [u8],
    at: usize,
) -> usize
    requires { at ≤ 2 ^ 63 }
    ensures { Lays (Answers line.now (length given.old) (length lent.old) (length file.old))
        out.old out.new at result }
{
    let question = which(line);
    let n = probe_words::numbers(line, question.word().len(), given);
    asked(question, line, &given[..n], lent, file, out, at)
}
