// Numbers and codes as plain numbers, for callers in C: what a number of an array is held as, and the numbers of codes.
#![tactic(auto)]

ghost use Rattle.std.specs.Prelude.{◌≡◌, get_or};
ghost use Rattle.std.proofs.lemmas.List.Edits.{sets};
ghost use Rattle.plain.specs.Held.{byte as byte_of, half as half_of, word as word_of, flag as flag_of};
ghost use Rattle.plain.specs.Codes.{occasions_numbers, event_numbers, hours_numbers, usage_numbers, occasions_of, event_of, hours_of, instruction_of, week_numbers, days_numbers, supplement_numbers, week_of, days_of, supplement_of};

use supplement::{Days, Supplement, Week};
use usage::{Event, Hours, Instruction, Occasions};

// How many numbers a usage code has.
pub const USAGE: usize = 29;

// How many a supplementary code has.
pub const SUPPLEMENT: usize = 22;

// ---- one number

// The number at a place; 0 where there is none.
pub fn at(n: &[u64], i: usize) -> u64
    ensures { result ≡ get_or n.now i 0 }
{
    match n.get(i) {
        Some(v) => *v,
        None => 0,
    }
}

// As a byte: 255 for all above it, which is in no field's range.
fn byte(n: u64) -> u8
    ensures { result ≡ byte_of n }
{
    u8::try_from(n).unwrap_or(u8::MAX)
}

// As sixteen bits, in the same way.
fn half(n: u64) -> u16
    ensures { result ≡ half_of n }
{
    u16::try_from(n).unwrap_or(u16::MAX)
}

// As thirty-two bits, in the same way.
fn word(n: u64) -> u32
    ensures { result ≡ word_of n }
{
    u32::try_from(n).unwrap_or(u32::MAX)
}

// The number at a place as a byte, as sixteen bits, as yes or no.
pub fn byte_at(n: &[u64], i: usize) -> u8
    ensures { result ≡ byte_of (get_or n.now i 0) }
{
    byte(at(n, i))
}

pub fn half_at(n: &[u64], i: usize) -> u16
    ensures { result ≡ half_of (get_or n.now i 0) }
{
    half(at(n, i))
}

pub fn flag_at(n: &[u64], i: usize) -> bool
    ensures { result ≡ flag_of (get_or n.now i 0) }
{
    at(n, i) != 0
}

// ---- codes

fn occasions(n: &[u64]) -> Occasions
    ensures { result ≡ occasions_of n.now }
{
    Occasions {
        bedtime: byte_at(n, 4),
        supper: byte_at(n, 5),
        lunch: byte_at(n, 6),
        breakfast: byte_at(n, 7),
        waking: byte_at(n, 8),
        hour: byte_at(n, 9),
    }
}

fn event(n: &[u64]) -> Event
    ensures { result ≡ event_of n.now }
{
    Event {
        group: byte_at(n, 11),
        event: byte_at(n, 12),
        condition: byte_at(n, 13),
        interval: byte_at(n, 14),
        limit: byte_at(n, 15),
    }
}

fn hours(n: &[u64]) -> Hours
    ensures { result ≡ hours_of n.now }
{
    Hours {
        h1: byte_at(n, 17),
        h2: byte_at(n, 18),
        h3: byte_at(n, 19),
        h4: byte_at(n, 20),
        h5: byte_at(n, 21),
        h6: byte_at(n, 22),
        h7: byte_at(n, 23),
        h8: byte_at(n, 24),
    }
}

// The instruction of a usage code's numbers.
pub fn instruction(n: &[u64]) -> Instruction
    ensures { result ≡ instruction_of n.now }
{
    Instruction {
        class: byte_at(n, 0),
        detail: byte_at(n, 1),
        kind: byte_at(n, 2),
        times: byte_at(n, 3),
        occasions: occasions(n),
        start: byte_at(n, 10),
        hours: hours(n),
        event: event(n),
        about: byte_at(n, 16),
    }
}

fn put_occasions(o: Occasions, n: &mut [u64; USAGE])
    ensures { n.new ≡ sets n.old 4 (occasions_numbers o) }
{
    n[4] = u64::from(o.bedtime);
    n[5] = u64::from(o.supper);
    n[6] = u64::from(o.lunch);
    n[7] = u64::from(o.breakfast);
    n[8] = u64::from(o.waking);
    n[9] = u64::from(o.hour);
}

fn put_event(e: Event, n: &mut [u64; USAGE])
    ensures { n.new ≡ sets n.old 11 (event_numbers e) }
{
    n[11] = u64::from(e.group);
    n[12] = u64::from(e.event);
    n[13] = u64::from(e.condition);
    n[14] = u64::from(e.interval);
    n[15] = u64::from(e.limit);
}

fn put_hours(h: Hours, n: &mut [u64; USAGE])
    ensures { n.new ≡ sets n.old 17 (hours_numbers h) }
{
    n[17] = u64::from(h.h1);
    n[18] = u64::from(h.h2);
    n[19] = u64::from(h.h3);
    n[20] = u64::from(h.h4);
    n[21] = u64::from(h.h5);
    n[22] = u64::from(h.h6);
    n[23] = u64::from(h.h7);
    n[24] = u64::from(h.h8);
}

// Its numbers, in the caller's array.
pub fn put_usage(i: Instruction, n: &mut [u64; USAGE])
    ensures { n.new ≡ usage_numbers i }
{
    *n = [0; USAGE];
    n[0] = u64::from(i.class);
    n[1] = u64::from(i.detail);
    n[2] = u64::from(i.kind);
    n[3] = u64::from(i.times);
    n[10] = u64::from(i.start);
    n[16] = u64::from(i.about);
    put_occasions(i.occasions, n);
    put_event(i.event, n);
    put_hours(i.hours, n);
}

fn week(n: &[u64]) -> Week
    ensures { result ≡ week_of n.now }
{
    Week {
        sunday: byte_at(n, 3),
        monday: byte_at(n, 4),
        tuesday: byte_at(n, 5),
        wednesday: byte_at(n, 6),
        thursday: byte_at(n, 7),
        friday: byte_at(n, 8),
        saturday: byte_at(n, 9),
    }
}

fn days(n: &[u64]) -> Days
    ensures { result ≡ days_of n.now }
{
    Days {
        d1: byte_at(n, 11),
        d2: byte_at(n, 12),
        d3: byte_at(n, 13),
        d4: byte_at(n, 14),
        d5: byte_at(n, 15),
        d6: byte_at(n, 16),
    }
}

// What a supplementary code's numbers say.
pub fn supplement(n: &[u64]) -> Supplement
    ensures { result ≡ supplement_of n.now }
{
    Supplement {
        letter: byte_at(n, 0),
        on: byte_at(n, 1),
        off: byte_at(n, 2),
        week: week(n),
        month: byte_at(n, 10),
        days: days(n),
        period: byte_at(n, 17),
        count: byte_at(n, 18),
        order: byte_at(n, 19),
        figures: word(at(n, 20)),
        places: byte_at(n, 21),
    }
}

fn put_week(w: Week, n: &mut [u64; SUPPLEMENT])
    ensures { n.new ≡ sets n.old 3 (week_numbers w) }
{
    n[3] = u64::from(w.sunday);
    n[4] = u64::from(w.monday);
    n[5] = u64::from(w.tuesday);
    n[6] = u64::from(w.wednesday);
    n[7] = u64::from(w.thursday);
    n[8] = u64::from(w.friday);
    n[9] = u64::from(w.saturday);
}

fn put_days(d: Days, n: &mut [u64; SUPPLEMENT])
    ensures { n.new ≡ sets n.old 11 (days_numbers d) }
{
    n[11] = u64::from(d.d1);
    n[12] = u64::from(d.d2);
    n[13] = u64::from(d.d3);
    n[14] = u64::from(d.d4);
    n[15] = u64::from(d.d5);
    n[16] = u64::from(d.d6);
}

// Its numbers, in the caller's array.
pub fn put_supplement(x: Supplement, n: &mut [u64; SUPPLEMENT])
    ensures { n.new ≡ supplement_numbers x }
{
    *n = [0; SUPPLEMENT];
    n[0] = u64::from(x.letter);
    n[1] = u64::from(x.on);
    n[2] = u64::from(x.off);
    n[10] = u64::from(x.month);
    n[17] = u64::from(x.period);
    n[18] = u64::from(x.count);
    n[19] = u64::from(x.order);
    n[20] = u64::from(x.figures);
    n[21] = u64::from(x.places);
    put_week(x.week, n);
    put_days(x.days, n);
}
