// Writes sets of days: the run of date codes that reads as the set.
#![tactic(auto)]

ghost use Rattle.std.specs.Prelude.{◌≡◌, ◌+◌, ◌*◌, ◌≤◌, ◌<◌, length, drop, set};
ghost use Rattle.std.proofs.lemmas.List.Edits.{sets};
ghost use Rattle.days.specs.Code.Good.{column, code_bytes};
ghost use Rattle.days_writer.specs.Set.{empty, no_such_day, writable, WritesSet};
ghost use Rattle.days_writer.specs.Code.Mask.{since, First};
ghost use Rattle.days_writer.specs.Code.Print.{month_at, in_sixes, run_of, bytes_of};

use cells::Fault;
use days::DaySet;

// An issue month.
#[derive(Clone, Copy)]
struct Month {
    number: u8,
    ghost in_year: { (1 ≤ number) × (number ≤ 12) },
}

// 2 to the number of days of every month, then of months 1 to 12: the first mask with a day that the month has not.
const BEYOND: [u32; 13] = [
    0x8000_0000,
    0x8000_0000,
    0x2000_0000,
    0x8000_0000,
    0x4000_0000,
    0x8000_0000,
    0x4000_0000,
    0x8000_0000,
    0x8000_0000,
    0x4000_0000,
    0x8000_0000,
    0x4000_0000,
    0x8000_0000,
];

// The first day of a mask from day d on; 32 where there is none.
// Kept: 32 is also the day after the last, from which a loop finds no more.
fn next_day(mask: u32, d: u8) -> u8
    requires { (1 ≤ d) × (d ≤ 32) }
    ensures { First mask d result }
{
    for e in d..32 {
        if (mask >> (e - 1)) % 2 == 1 {
            return e;
        }
    }
    32
}

fn day_count(mask: u32) -> usize
    ensures { (result ≡ length (since mask 1)) × (result ≤ 31) }
{
    let mut n = 0;
    for e in 1u8..32 {
        if (mask >> (e - 1)) % 2 == 1 {
            n += 1;
        }
    }
    n
}

// The month at a place of a run: every month first, then the issue month and those after it.
fn month_at(issue: Month, p: u8) -> u8
    requires { p ≤ 12 }
    ensures { (result ≡ month_at issue.number p) × (result ≤ 12) }
{
    if p == 0 {
        return 0;
    }
    (issue.number + p + 10) % 12 + 1
}

// The next day of a mask from d on in one column, or 0; the day to go on from.
fn put_day(out: &mut [u8], at: usize, mask: u32, d: u8) -> u8
    requires { (1 ≤ d) × (d ≤ 32) × (at < length out.old) }
    ensures { (1 ≤ result) × (result ≤ 32) × (since mask result ≡ drop 1 (since mask d)) × (out.new ≡ set out.old at (column (since mask d))) }
{
    let f = next_day(mask, d);
    if f < 32 {
        out[at] = cells::letter(f);
        return f + 1;
    }
    out[at] = b'0';
    32
}

// One code for the days of a mask from d on; the day to go on from.
fn put_code(out: &mut [u8], at: usize, month: u8, mask: u32, d: u8) -> u8
    requires { (1 ≤ d) × (d ≤ 32) × (at + 8 ≤ length out.old) }
    ensures { (1 ≤ result) × (result ≤ 32) × (since mask result ≡ drop 6 (since mask d)) × (out.new ≡ sets out.old at (code_bytes month (since mask d))) }
{
    out[at] = b'D';
    out[at + 1] = cells::letter(month);
    let mut e = d;
    for i in 0..6 {
        e = put_day(out, at + 2 + i, mask, e);
    }
    e
}

// The codes of one month; the place after them.
fn put_month(out: &mut [u8], at: usize, month: u8, mask: u32) -> usize
    requires { at + 8 * length (in_sixes month (since mask 1)) ≤ length out.old }
    ensures { (result ≡ at + 8 * length (in_sixes month (since mask 1))) × (out.new ≡ sets out.old at (bytes_of (in_sixes month (since mask 1)))) }
{
    let mut j = at;
    let mut d = next_day(mask, 1);
    // Kept: a turn goes six days of the mask on, wherever they stand.
    while d < 32 {
        let e = put_code(out, j, month, mask, d);
        j += 8;
        d = next_day(mask, e);
    }
    j
}

// The codes of all months, from the front of the buffer on.
fn put_run(out: &mut [u8], issue: Month, days: DaySet)
    requires { 8 * length (run_of issue.number days.cells) ≤ length out.old }
    ensures { out.new ≡ sets out.old 0 (bytes_of (run_of issue.number days.cells)) }
{
    let mut j = 0;
    for place in 0..13 {
        let m = month_at(issue, place);
        j = put_month(out, j, m, days.cells[m as usize]);
    }
}

// How many codes the run has.
fn count_codes(issue: Month, days: DaySet) -> usize
    ensures { (result ≡ length (run_of issue.number days.cells)) × (result ≤ 78) }
{
    let mut n = 0;
    for p in 0..13 {
        let m = month_at(issue, p);
        n += (day_count(days.cells[m as usize]) + 5) / 6;
    }
    n
}

// Does some cell hold a day that its month has not?
fn no_such_day(days: DaySet) -> bool
    ensures { result ≡ no_such_day 0 days.cells }
{
    for m in 0..13 {
        if BEYOND[m] <= days.cells[m] {
            return true;
        }
    }
    false
}

// Does no cell from one on hold a day?
fn empty_from(days: DaySet, from: usize) -> bool
    ensures { result ≡ empty (drop from days.cells) }
{
    for m in from..13 {
        if days.cells[m] != 0 {
            return false;
        }
    }
    true
}

fn can_write(days: DaySet) -> bool
    ensures { result ≡ writable days.cells }
{
    if empty_from(days, 0) {
        return false;
    }
    if no_such_day(days) {
        return false;
    }
    (days.cells[0] == 0) || empty_from(days, 1)
}

fn not_written(number: u16) -> Result<usize, Fault>
    ensures { result ≡ Err (record { number = number; place = 0 }) }
{
    Err(Fault { number, place: 0 })
}

// Writes the run for a set into the front of the buffer.
pub fn write_run(issue: u8, days: DaySet, out: &mut [u8]) -> Result<usize, Fault>
    ensures { WritesSet issue days.cells out.old out.new result }
{
    if issue == 0 {
        return not_written(10);
    }
    if 12 < issue {
        return not_written(10);
    }
    let issue = Month { number: issue };
    if can_write(days) {
        let n = count_codes(issue, days);
        if out.len() < 8 * n {
            return not_written(33);
        }
        put_run(out, issue, days);
        return Ok(n);
    }
    not_written(11)
}
