// The writer of a prescription file: opened over a lent buffer, then one call puts one record, and closing writes the end.
#![tactic(auto)]

ghost use Rattle.std.specs.Prelude.{◌≡◌, ◌≤◌, length};
ghost use Rattle.std.proofs.lemmas.List.Edits.{sets};
ghost use Rattle.cells.specs.Text.{bytes};
ghost use Rattle.writer.specs.Writer.{state, ended, open_buffer, put_record, close_buffer};

use laid::PARTS;
use record::{Record, Sofar};

// Where the writer is in the buffer, whether it is closed, and what the records before leave.
#[derive(Clone, Copy)]
pub struct State {
    pub at: usize,
    pub closed: bool,
    pub sofar: Sofar,
}

// The number 0, or a refusal's number and after 34 the reader's own; and the state to go on with.
#[derive(Clone, Copy)]
pub struct Told {
    pub number: u16,
    pub own: u16,
    pub state: State,
}

// A refusal: the state as it was.
fn refused(t: State, number: u16, own: u16) -> Told
    ensures { result ≡ record { number = number; own = own; state = t } }
{
    Told {
        number: number,
        own: own,
        state: t,
    }
}

fn wrote(at: usize, closed: bool, c: Sofar) -> Told
    ensures { result ≡ record { number = 0; own = 0; state = state at closed c } }
{
    Told {
        number: 0,
        own: 0,
        state: State {
            at: at,
            closed: closed,
            sofar: c,
        },
    }
}

// The version line.
fn put_version(out: &mut [u8])
    requires { 8 ≤ length out.old }
    ensures { out.new ≡ sets out.old 0 (ended (bytes "JAHIS5")) }
{
    out[..8].copy_from_slice(b"JAHIS5\r\n");
}

// Puts a record, whose texts lie in the lent bytes, with arrays for its parts, which no call on the way has a copy of.
fn put_parts(
    out: &mut [u8],
    t: State,
    r: Record,
    lent: &[u8],
    kinds: &mut [u8; PARTS],
    numbers: &mut [u16; PARTS],
    from: &mut [usize; PARTS],
    to: &mut [usize; PARTS],
    own: &mut [u8; 24],
) -> Told
    ensures { record { put = result; buffer = out.new } ≡ put_record out.old t r lent.now }
{
    if t.closed {
        return refused(t, 34, 24);
    }
    let c = t.sofar;
    let e = entry::of(c, r, lent, kinds, numbers, from, to, own);
    if e.wrong != 0 {
        return refused(t, 34, e.wrong);
    }
    let at = laid::put(out, t.at, e.count, lent, kinds, numbers, from, to, own);
    if at == t.at {
        return refused(t, 33, 0);
    }
    wrote(at, false, record::after(c.before, r))
}

// ---- the calls

// Opens a buffer: the version line.
pub fn open(out: &mut [u8]) -> Told
    ensures { record { put = result; buffer = out.new } ≡ open_buffer out.old }
{
    let c = record::start();
    if laid::limit(out.len()) < 9 {
        return refused(
            State {
                at: 0,
                closed: true,
                sofar: c,
            },
            33,
            0,
        );
    }
    put_version(out);
    wrote(8, false, c)
}

// Puts a record, whose texts lie in the lent bytes.
pub fn put(out: &mut [u8], t: State, r: Record, lent: &[u8]) -> Told
    ensures { record { put = result; buffer = out.new } ≡ put_record out.old t r lent.now }
{
    let mut kinds = [0; PARTS];
    let mut numbers = [0; PARTS];
    let mut from = [0; PARTS];
    let mut to = [0; PARTS];
    let mut own = [0; 24];
    put_parts(
        out,
        t,
        r,
        lent,
        &mut kinds,
        &mut numbers,
        &mut from,
        &mut to,
        &mut own,
    )
}

// Writes the end: the 1Ah.
pub fn close(out: &mut [u8], t: State) -> Told
    ensures { record { put = result; buffer = out.new } ≡ close_buffer out.old t }
{
    if t.closed {
        return refused(t, 34, 24);
    }
    if !order::closes(t.sofar.last) {
        return refused(t, 34, 32);
    }
    let at = t.at;
    if laid::limit(out.len()) <= at {
        return refused(t, 33, 0);
    }
    out[at] = 0x1a;
    wrote(at + 1, true, t.sofar)
}
