// Lines and fields: the frame of a file, where a field ends, and the fields of a line.
#![tactic(auto)]

ghost use Rattle.std.specs.Prelude.{◌≡◌, true};
ghost use Rattle.cells.specs.Test.{fault};
ghost use Rattle.line.specs.Frame.{plain as plain_of, in_line, next as next_of, frame_fault};
ghost use Rattle.cells.specs.Test.{passes};
ghost use Rattle.line.specs.Code.Pairs.{may_follow};
ghost use Rattle.line.specs.Code.States.{number, reached};
ghost use Rattle.line.specs.Fields.{ends as ends_of, field_end, fields_at, line_ends, nth};

use cells::Fault;

// What has been read of a file: a part of a line or nothing, a line and its CR, lines with their CR LF, all.
#[derive(Clone, Copy)]
enum State {
    Line,
    Return,
    Lines,
    All,
}

// A byte that may stand in a line.
fn plain(b: u8) -> bool
    ensures { result ≡ plain_of b }
{
    (0x20 <= b) & (b != 0x7f)
}

// After a byte of a line, or the CR at its end.
fn in_line(b: u8) -> Option<State>
    ensures { reached result ≡ in_line b }
{
    if b == b'\r' {
        return Some(State::Return);
    }
    if plain(b) { Some(State::Line) } else { None }
}

// What has been read with one more byte; none where no file begins with it.
fn next(state: State, b: u8) -> Option<State>
    ensures { reached result ≡ next_of (number state) b }
{
    match state {
        State::Line => in_line(b),
        State::Return => if b == b'\n' { Some(State::Lines) } else { None },
        State::Lines => if b == 0x1a {
            Some(State::All)
        } else {
            in_line(b)
        },
        State::All => None,
    }
}

// May b stand right after a in a well framed file? An LF stands after each CR and nowhere else, 1Ah after an LF only, and nothing after 1Ah.
fn may_follow(a: u8, b: u8) -> bool
    ensures { result ≡ may_follow a b }
{
    ((a == b'\r') == (b == b'\n'))
        & (plain(b) | (b == b'\r') | (b == b'\n') | ((a == b'\n') & (b == 0x1a)))
        & (a != 0x1a)
}

// Is a file well framed? The first byte, the last, and each byte by the one before it are tested in one pass that stops nowhere, so that a
// processor takes many bytes at a time; where a fault is, the pass does not say.
fn framed(s: &[u8]) -> bool
    ensures { result ≡ true → frame_fault s.now ≡ fault 0 0 }
{
    if s.len() < 2 {
        return false;
    }
    let last = s.len() - 1;
    let mut ok = (plain(s[0]) | (s[0] == b'\r')) & (s[last] == 0x1a);
    for i in 0..last {
        ok &= may_follow(s[i], s[i + 1]);
    }
    ok
}

// The first byte that no well framed file has there: 21 at its offset, or at the end.
fn find_fault(s: &[u8]) -> Result<(), Fault>
    ensures { result ≡ passes (frame_fault s.now) }
{
    let mut state = State::Line;
    for (i, &b) in s.iter().enumerate() {
        let Some(more) = next(state, b) else {
            return Err(Fault {
                number: 21,
                place: i,
            });
        };
        state = more;
    }
    match state {
        State::All => Ok(()),
        _ => Err(Fault {
            number: 21,
            place: s.len(),
        }),
    }
}

// The fault of a file's frame; only a file that has one is read for it byte by byte.
pub fn frame_fault(s: &[u8]) -> Result<(), Fault>
    ensures { result ≡ passes (frame_fault s.now) }
{
    if framed(s) { Ok(()) } else { find_fault(s) }
}

// The comma after a field, or the CR after the last.
fn ends(b: u8) -> bool
    ensures { result ≡ ends_of b }
{
    if b <= b',' {
        return (b == b',') | (b == b'\r'); // most bytes of a field are above both
    }
    false
}

// The offset of the first comma or CR from an offset on, or the length. A function of its own: laid into each of the nine turns of `row::part_line` it
// steps some thirty counters with every byte.
#[inline(never)]
pub fn field_end(s: &[u8], at: usize) -> usize
    ensures { result ≡ field_end s.now at }
{
    for i in at..s.len() {
        if ends(s[i]) {
            return i;
        }
    }
    s.len()
}

// Does the last field of a line end at a place: at a CR, or at the end of the file? A comma stands after any other.
pub fn line_ends(s: &[u8], at: usize) -> bool
    ensures { result ≡ line_ends s.now at }
{
    if at < s.len() {
        return s[at] != b',';
    }
    true
}

// The nth field, counted from 1, of those at a place; nothing where there are fewer.
pub fn nth_field(s: &[u8], at: usize, n: usize) -> &[u8]
    ensures { result.now ≡ nth n (fields_at s.now at) }
{
    if s.len() < at {
        return &s[0..0];
    }
    let mut from = at;
    for _ in 1..n {
        let end = field_end(s, from);
        if line_ends(s, end) {
            return &s[0..0];
        }
        from = end + 1;
    }
    let to = field_end(s, from);
    &s[from..to]
}
