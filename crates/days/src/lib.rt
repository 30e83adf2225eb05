// Sets of days, and the runs of date codes that name them, read.
#![tactic(auto)]

ghost use Rattle.std.specs.Prelude.{◌≡◌, [], ◌+◌, ◌%◌, ◌^◌, ◌≤◌, ◌<◌, length, get_or, take, drop, set};
ghost use Rattle.supplement.specs.Supplement.{read_supplement, said as said_of};
ghost use Rattle.days.specs.Run.{columns, six_of, distance as distance_of, mask_of as mask_of_days, last_date, goes_on as goes_on_of, stop, answers_in, codes_of, set_of, concluded, read_run, answered};
ghost use Rattle.days.specs.Code.Good.{code, Good};
ghost use Rattle.days.specs.Code.Walk.{Told, HasText, Dated, may_follow, step_at};

use cells::Fault;
use supplement::{Days, Supplement};

// Thirteen masks, cell 0 for every month and cell m for month m; in a mask day d is bit d - 1.
#[derive(Clone, Copy)]
pub struct DaySet {
    pub cells: [u32; 13],
}

// What stops a run: a number of document 01 with its place, and for a code's own refusal the code's number, else 0.
#[derive(Clone, Copy)]
pub struct Halt {
    pub number: u16,
    pub place: usize,
    pub code: usize,
}

// What a date code is followed by: its month, 0 for every month, its last day, and whether it has six days.
#[derive(Clone, Copy)]
pub struct Last {
    pub month: u8,
    pub day: u8,
    pub full: bool,
}

// A D code as numbers.
#[derive(Clone, Copy)]
struct Date {
    ends: Last,
    first: u8,
    mask: u32,
}

// How many months a month is ahead of the issue month.
pub fn distance(issue: u8, m: u8) -> u16
    ensures { result ≡ distance_of issue m }
{
    (u16::from(m) + 12).saturating_sub(u16::from(issue)) % 12
}

fn six(days: Days) -> [u8; 6]
    ensures { result ≡ columns days }
{
    [days.d1, days.d2, days.d3, days.d4, days.d5, days.d6]
}

impl Last {
    // A code's days end at its first 0.
    pub fn of(month: u8, days: Days) -> Last
        ensures { result ≡ last_date month (six_of days) }
    {
        let mut day = 0;
        for d in six(days) {
            if d == 0 {
                return Last {
                    month,
                    day,
                    full: false,
                };
            }
            day = d;
        }
        Last {
            month,
            day,
            full: true,
        }
    }

    // May a date code of a month and a first day stand just after this one?
    pub fn goes_on(self, issue: u8, month: u8, first: u8) -> bool
        ensures { result ≡ goes_on_of issue self month first }
    {
        if self.month == month {
            return self.full & (self.day < first);
        }
        (0 < self.month) & ((0 < month) & (distance(issue, self.month) < distance(issue, month)))
    }
}

fn mask_of(month: u8, days: Days) -> u32
    requires { Good (code month (six_of days)) }
    ensures { result ≡ mask_of_days (six_of days) }
{
    let mut mask: u32 = 0;
    for d in six(days) {
        if d == 0 {
            return mask;
        }
        mask += 1 << (d - 1);
    }
    mask
}

fn date_of(month: u8, days: Days) -> Date
    requires { Good (code month (six_of days)) }
    ensures { Told (code month (six_of days)) result }
{
    Date {
        ends: Last::of(month, days),
        first: days.d1,
        mask: mask_of(month, days),
    }
}

// A code as a D code, where it is one.
fn date_in(r: Result<Supplement, Fault>) -> Result<Option<Date>, Fault>
    requires { HasText r }
    ensures { Dated (said_of r) result }
{
    match r {
        Err(f) => Err(f),
        Ok(x) => if x.letter == b'D' {
            Ok(Some(date_of(x.month, x.days)))
        } else {
            Ok(None)
        },
    }
}

// The code at an offset.
fn code_at(s: &[u8], at: usize) -> Result<Option<Date>, Fault>
    requires { at + 8 ≤ length s.now }
    ensures { Dated (read_supplement (take 8 (drop at s.now))) result }
{
    let end = at + 8;
    date_in(supplement::read(&s[at..end]))
}

// May b stand just after a, or first where there is no a?
fn may_follow(issue: u8, a: Option<Date>, b: Date) -> bool
    ensures { result ≡ may_follow issue a b }
{
    match a {
        None => true,
        Some(a) => a.ends.goes_on(issue, b.ends.month, b.first),
    }
}

fn refuse(number: u16, place: usize, code: usize) -> Halt
    ensures { result ≡ record { number = number; place = place; code = code } }
{
    Halt {
        number,
        place,
        code,
    }
}

// The kth code of a run, after the code a, unless it stops the run.
fn step_at(
    issue: u8,
    k: usize,
    a: Option<Date>,
    r: Result<Option<Date>, Fault>,
) -> Result<Date, Halt>
    ensures { result ≡ step_at issue k a r }
{
    match r {
        Err(f) => Err(refuse(f.number, f.place, k)),
        Ok(read) => match read {
            Some(d) => if may_follow(issue, a, d) {
                Ok(d)
            } else {
                Err(refuse(12, k, 0))
            },
            None => Err(refuse(12, k, 0)),
        },
    }
}

// A set with the days of a code put in.
fn with_days(days: DaySet, month: u8, mask: u32) -> DaySet
    requires { (month ≤ 12) × (get_or days.cells month 0 + mask < 2 ^ 32) }
    ensures { result.cells ≡ set days.cells month (get_or days.cells month 0 + mask) }
{
    let mut d = days;
    let m = usize::from(month);
    d.cells[m] += mask;
    d
}

// Code by code, with the code before as numbers and the days so far.
fn read_codes(issue: u8, s: &[u8]) -> Result<DaySet, Halt>
    requires { length s.now % 8 ≡ 0 }
    ensures { result ≡ answered (concluded (stop issue [] 1 (answers_in s.now)) (set_of (codes_of (answers_in s.now)))) }
{
    let mut days = DaySet { cells: [0; 13] };
    let mut prior = None;
    for k in 0..s.len() / 8 {
        let d = step_at(issue, k + 1, prior, code_at(s, 8 * k))?;
        days = with_days(days, d.ends.month, d.mask);
        prior = Some(d);
    }
    Ok(days)
}

// Reads a run for an issue month.
pub fn read_run(issue: u8, s: &[u8]) -> Result<DaySet, Halt>
    ensures { result ≡ answered (read_run issue s.now) }
{
    if issue == 0 {
        return Err(refuse(10, 0, 0));
    }
    if 12 < issue {
        return Err(refuse(10, 0, 0));
    }
    if s.len() % 8 != 0 {
        return Err(refuse(1, 0, 0));
    }
    if s.len() == 0 {
        return Err(refuse(12, 0, 0));
    }
    read_codes(issue, s)
}
