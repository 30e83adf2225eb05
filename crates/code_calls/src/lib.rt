// The calls on codes, runs, sets of days and dates, on numbers and bytes. A refusal leaves every lent array as it was, but for the one that says
// where and why.
#![tactic(auto)]

ghost use Rattle.std.specs.Prelude.{◌≡◌};
ghost use Rattle.usage.specs.Usage.{read_usage};
ghost use Rattle.usage.specs.declared.Instruction.{Instruction};
ghost use Rattle.supplement.specs.Supplement.{read_supplement};
ghost use Rattle.supplement.specs.declared.Supplement.{Supplement};
ghost use Rattle.days.specs.Run.{read_run};
ghost use Rattle.days_writer.specs.Set.{said};
ghost use Rattle.date.specs.Date.{said as said_date};
ghost use Rattle.plain.specs.Codes.{usage_numbers, instruction_of, supplement_numbers, supplement_of};
ghost use Rattle.code_calls.specs.Answers.{number, or_before, or_count, make_styled, date_numbers, date_text};
ghost use Rattle.code_calls.specs.Calls.{Reads, ReadsRun, TellsSet, Makes, Writes};

use cells::Fault;
use date::Date;
use days::DaySet;
use plain::{SUPPLEMENT, USAGE};

// ---- usage codes

// Reads a usage code.
pub fn usage_read(code: &[u8], numbers: &mut [u64; USAGE], place: &mut u64) -> u16
    ensures { Reads Instruction usage_numbers (read_usage code.now) numbers.old result place.new numbers.new }
{
    match usage::read(code) {
        Ok(i) => {
            *place = 0;
            plain::put_usage(i, numbers);
            0
        }
        Err(f) => {
            *place = f.place as u64;
            f.number
        }
    }
}

// Writes a usage code.
pub fn usage_write(numbers: &[u64; USAGE], code: &mut [u8; 16]) -> u16
    ensures { Writes Instruction read_usage code.old (instruction_of numbers.now) result code.new }
{
    match usage_writer::write(plain::instruction(numbers)) {
        Ok(written) => {
            *code = written;
            0
        }
        Err(f) => f.number,
    }
}

// ---- supplementary codes

// Reads a supplementary code.
pub fn supplement_read(code: &[u8], numbers: &mut [u64; SUPPLEMENT], place: &mut u64) -> u16
    ensures { Reads Supplement supplement_numbers (read_supplement code.now) numbers.old result place.new numbers.new }
{
    match supplement::read(code) {
        Ok(x) => {
            *place = 0;
            plain::put_supplement(x, numbers);
            0
        }
        Err(e) => {
            *place = e.place as u64;
            e.number
        }
    }
}

// Writes a supplementary code.
pub fn supplement_write(numbers: &[u64; SUPPLEMENT], code: &mut [u8; 8]) -> u16
    ensures { Writes Supplement read_supplement code.old (supplement_of numbers.now) result code.new }
{
    match supplement_writer::write(plain::supplement(numbers)) {
        Ok(written) => {
            *code = written;
            0
        }
        Err(f) => f.number,
    }
}

// ---- runs and sets of days

// The number of an answer: 0, or the refusal's.
fn wrote_number(w: Result<usize, Fault>) -> u16
    ensures { result ≡ number (said w) }
{
    match w {
        Ok(_) => 0,
        Err(f) => f.number,
    }
}

// How many codes; after a refusal what was there, here and below.
fn count_after(w: Result<usize, Fault>, before: u64) -> u64
    ensures { result ≡ or_count (said w) before }
{
    match w {
        Ok(n) => n as u64,
        Err(_) => before,
    }
}

// Reads a run of date codes.
pub fn run_read(issue: u8, codes: &[u8], days: &mut [u32; 13], refusal: &mut [u64; 2]) -> u16
    ensures { ReadsRun (read_run issue codes.now) days.old result refusal.new days.new }
{
    match days::read_run(issue, codes) {
        Ok(set) => {
            *refusal = [0; 2];
            let cells = set.cells;
            *days = cells;
            0
        }
        Err(h) => {
            *refusal = [h.place as u64, h.code as u64];
            h.number
        }
    }
}

// Writes the run for a set of days.
pub fn set_write(issue: u8, days: &[u32; 13], out: &mut [u8], count: &mut u64) -> u16
    ensures { TellsSet issue days.now out.old out.new result count.old count.new }
{
    let cells = *days;
    let w = days_writer::write_run(issue, DaySet { cells: cells }, out);
    *count = count_after(w, *count);
    wrote_number(w)
}

// ---- dates

// A date in a style: 1 western, 2 era, any other number for none named.
fn made(year: u16, month: u8, day: u8, style: u8) -> Result<Date, Fault>
    ensures { said_date result ≡ make_styled year month day style }
{
    if style == 1 {
        return Date::western(year, month, day);
    }
    if style == 2 {
        return Date::era(year, month, day);
    }
    Date::of(year, month, day)
}

fn made_number(m: Result<Date, Fault>) -> u16
    ensures { result ≡ number (said_date m) }
{
    match m {
        Ok(_) => 0,
        Err(f) => f.number,
    }
}

fn made_numbers(m: Result<Date, Fault>, before: [u64; 4]) -> [u64; 4]
    ensures { result ≡ or_before date_numbers (said_date m) before }
{
    match m {
        Ok(t) => [
            u64::from(t.era),
            u64::from(t.year),
            u64::from(t.month),
            u64::from(t.day),
        ],
        Err(_) => before,
    }
}

fn made_text(m: Result<Date, Fault>, before: [u8; 8]) -> [u8; 8]
    ensures { result ≡ or_before date_text (said_date m) before }
{
    match m {
        Ok(t) => match date::print(t) {
            Some(text) => text.bytes,
            None => [0; 8],
        },
        Err(_) => before,
    }
}

// Makes a date.
pub fn date_make(
    year: u16,
    month: u8,
    day: u8,
    style: u8,
    numbers: &mut [u64; 4],
    text: &mut [u8; 8],
) -> u16
    ensures { Makes (make_styled year month day style) numbers.old text.old result numbers.new text.new }
{
    let m = made(year, month, day, style);
    *numbers = made_numbers(m, *numbers);
    *text = made_text(m, *text);
    made_number(m)
}
