// Writes usage codes: the sixteen characters that read as an instruction.
#![tactic(auto, using(cells::proofs::Tests::tests), unfolding(crate::specs::Print::hour_letter, crate::specs::Print::mark, crate::specs::Print::tail))]

ghost use Rattle.std.specs.Prelude.{◌≡◌};
ghost use Rattle.usage_writer.specs.Writes.{WritesUsage};
ghost use Rattle.usage_writer.specs.Print.{hour_letter, mark as mark_of, day_tail, clock_tail, event_tail, lone_tail, tail as tail_of, raw as raw_of};

use cells::Fault;
use usage::{Event, Hours, Instruction, Occasions};

// An hour's character; 0 for none.
fn hour_letter(h: u8) -> u8
    ensures { result ≡ hour_letter h }
{
    match h {
        0..=23 => b'A' + h,
        _ => b'0',
    }
}

// The character of what is meant or not: 9 or 0.
fn mark(w: u8) -> u8
    ensures { result ≡ mark_of w }
{
    match w {
        0 => b'0',
        _ => b'9',
    }
}

// The 5th to the 16th character, for each kind. Kinds 1 and 6 differ in lunch.
fn day_tail(o: Occasions, lunch: u8) -> [u8; 12]
    ensures { result ≡ day_tail o lunch }
{
    [
        cells::letter(o.bedtime),
        cells::letter(o.supper),
        lunch,
        cells::letter(o.breakfast),
        mark(o.waking),
        hour_letter(o.hour),
        b'0',
        b'0',
        b'0',
        b'0',
        b'0',
        b'0',
    ]
}

fn clock_tail(h: Hours) -> [u8; 12]
    ensures { result ≡ clock_tail h }
{
    [
        hour_letter(h.h1),
        hour_letter(h.h2),
        hour_letter(h.h3),
        hour_letter(h.h4),
        hour_letter(h.h5),
        hour_letter(h.h6),
        hour_letter(h.h7),
        hour_letter(h.h8),
        b'0',
        b'0',
        b'0',
        b'0',
    ]
}

fn event_tail(e: Event) -> [u8; 12]
    ensures { result ≡ event_tail e }
{
    [
        cells::letter(e.group),
        cells::letter(e.event),
        cells::letter(e.condition),
        cells::letter(e.interval),
        cells::letter(e.limit),
        b'0',
        b'0',
        b'0',
        b'0',
        b'0',
        b'0',
        b'0',
    ]
}

// One character, then 0s.
fn lone_tail(c: u8) -> [u8; 12]
    ensures { result ≡ lone_tail c }
{
    [
        c, b'0', b'0', b'0', b'0', b'0', b'0', b'0', b'0', b'0', b'0', b'0',
    ]
}

fn tail(i: Instruction) -> [u8; 12]
    ensures { result ≡ tail_of i }
{
    match i.kind {
        1 => day_tail(i.occasions, cells::letter(i.occasions.lunch)),
        2 => lone_tail(hour_letter(i.start)),
        3 => clock_tail(i.hours),
        5 => event_tail(i.event),
        6 => day_tail(i.occasions, mark(i.occasions.lunch)),
        _ => lone_tail(cells::letter(i.about)),
    }
}

// The sixteen characters that read as an instruction, where any do; what cannot be written gives characters that read as something else.
fn raw(i: Instruction) -> [u8; 16]
    ensures { result ≡ raw_of i }
{
    let t = tail(i);
    [
        cells::letter(i.class),
        cells::letter(i.detail),
        cells::letter(i.kind),
        cells::letter(i.times),
        t[0],
        t[1],
        t[2],
        t[3],
        t[4],
        t[5],
        t[6],
        t[7],
        t[8],
        t[9],
        t[10],
        t[11],
    ]
}

// Writes an instruction: the code that reads as it, or 35 where none does.
pub fn write(i: Instruction) -> Result<[u8; 16], Fault>
    ensures { WritesUsage i result }
{
    let code = raw(i);
    match usage::read(&code) {
        Ok(j) if j == i => Ok(code),
        _ => Err(Fault {
            number: 35,
            place: 0,
        }),
    }
}
