// The reader of a prescription file: opened once over the whole file, then one call hands out one record.
#![tactic(auto)]

ghost use Rattle.std.specs.Prelude.{◌≡◌};
ghost use Rattle.record_line.specs.Line.{refusal as refusal_of};
ghost use Rattle.reader.specs.Open.{version_line};
ghost use Rattle.reader.specs.Said.{said, said_check};
ghost use Rattle.reader.specs.File.{check_file};
ghost use Rattle.reader.specs.Reader.{opened as opened_of, open_file, refuses, end_at, said_again, closing, next_record};
ghost use Rattle.reader.specs.Code.Gone.{moves_on, gone_of};

use cells::Fault;
use record::{Record, Refusal, Sofar};

// Where the reader is in the file, and what the records before leave. A file that was refused on opening keeps its number here (20, 21 or 22;
// 0 where it is open), and the offset in `at`. Any other number is that of a reader that was never opened.
#[derive(Clone, Copy)]
pub struct State {
    pub number: u16,
    pub at: usize,
    pub sofar: Sofar,
}

// An answer and the state to go on with.
#[derive(Clone, Copy)]
pub struct Step {
    pub next: Result<Option<Record>, Refusal>,
    pub state: State,
}

// The first line is JAHIS5.
fn is_version(s: &[u8]) -> bool
    ensures { result ≡ version_line s.now }
{
    s.starts_with(b"JAHIS5\r")
}

fn opened(number: u16, at: usize) -> State
    ensures { result ≡ opened_of number at }
{
    State {
        number: number,
        at: at,
        sofar: record::start(),
    }
}

// Tests 20, 21 and 22 over the whole file.
pub fn open(s: &[u8]) -> State
    ensures { result ≡ open_file s.now }
{
    if 16384 < s.len() {
        return opened(20, 0);
    }
    if let Err(f) = line::frame_fault(s) {
        return opened(21, f.place);
    }
    if is_version(s) {
        return opened(0, 8);
    }
    opened(22, 0)
}

// A refusal at a place of the file.
fn refusal_at(number: u16, at: usize) -> Refusal
    ensures { result ≡ refusal_of number at }
{
    Refusal {
        fault: Fault {
            number: number,
            place: 0,
        },
        at: at,
        field: 0,
        code: 0,
    }
}

fn refused(t: State, number: u16) -> Step
    ensures { said result ≡ refuses t number }
{
    Step {
        next: Err(refusal_at(number, t.at)),
        state: t,
    }
}

// What a reader that is not open says: the refusal that it keeps; 24 where opening told none.
fn said_again(number: u16) -> u16
    ensures { result ≡ said_again number }
{
    if (20 == number) | ((21 == number) | ((22 == number) | false)) {
        return number;
    }
    24
}

// Is the 1Ah at a place? Outside the file nothing is.
fn ends(s: &[u8], at: usize) -> bool
    ensures { result ≡ end_at s.now at }
{
    if at < s.len() {
        return s[at] == 0x1a;
    }
    false
}

// At the 1Ah: the end, or 32 where a record is missing.
fn close(t: State) -> Step
    ensures { said result ≡ closing t }
{
    if order::closes(t.sofar.last) {
        return Step {
            next: Ok(None),
            state: t,
        };
    }
    refused(t, 32)
}

// A record and the state after it, or a refusal and the state as it was. `sofar` is what the line leaves, after a refusal what it came with: taken
// from one place in both arms, it need not be kept in memory.
fn moved(t: State, answer: Result<Record, Refusal>, next: usize, sofar: Sofar) -> Step
    ensures { said result ≡ moves_on t answer next sofar }
{
    match answer {
        Ok(r) => Step {
            next: Ok(Some(r)),
            state: State {
                number: 0,
                at: next,
                sofar: sofar,
            },
        },
        Err(f) => Step {
            next: Err(f),
            state: State {
                number: t.number,
                at: t.at,
                sofar: sofar,
            },
        },
    }
}

// The next record, the refusal or the end.
pub fn next(s: &[u8], t: State) -> Step
    ensures { said result ≡ next_record s.now t }
{
    let at = t.at;
    if t.number != 0 {
        return refused(t, said_again(t.number));
    }
    if ends(s, at) {
        return close(t);
    }
    let l = record_line::read(t.sofar, s, at);
    let answer = l.answer;
    moved(t, answer, l.next, l.sofar)
}

// ---- a file checked, with no record made

// Passes the next record: the state after it, or nothing at the end.
fn pass(s: &[u8], t: State) -> Result<Option<State>, Refusal>
    ensures { result ≡ gone_of (next_record s.now t) }
{
    let at = t.at;
    if t.number != 0 {
        return Err(refusal_at(said_again(t.number), at));
    }
    if !ends(s, at) {
        let passed = record_line::pass(t.sofar, s, at)?;
        return Ok(Some(State {
            number: 0,
            at: passed.next,
            sofar: passed.sofar,
        }));
    }
    if order::closes(t.sofar.last) {
        return Ok(None);
    }
    Err(refusal_at(32, at))
}

// Reads a whole file, record by record: how many records it has with its version line, or its refusal.
pub fn check(s: &[u8]) -> Result<usize, Refusal>
    ensures { said_check result ≡ check_file s.now }
{
    let mut t = open(s);
    let mut n: usize = 1;
    while let Some(after) = pass(s, t)? {
        t = after;
        n += 1;
    }
    Ok(n)
}
