// What is kept of one RP, and the doses of its days from a start date on.
#![tactic(auto)]

ghost use Rattle.std.specs.Prelude.{◌≡◌, ◌&&◌, ◌++◌, ◌≤◌, length, take, drop};
ghost use Rattle.std.proofs.lemmas.List.Edits.{sets};
ghost use Rattle.day.specs.Day.{day as day_by, Exists, weekday as weekday_of};
ghost use Rattle.course.specs.Calendar.{in_turn, in_week, in_window, valid_days, valid_start, no_place, Refuses, said, answers};
ghost use Rattle.course.specs.Kept.{place as place_of, on_mark, given_by, dose_on, doses_by, counted_by, calendar_by};
ghost use Rattle.course.specs.Code.First.{first_of, start_of};

use cells::Fault;
use day::Day;
use record::Refusal;
use supplement::Week;

// On which days there is a dose.
#[derive(Clone, Copy)]
pub enum Rule {
    Every,
    // I: days on, days off.
    Turns(u8, u8),
    // W
    Weekly(Week),
    // D: those that are marked.
    Dates,
    // C: so often in a time, on no days that are named.
    Counted,
}

// What the records so far say of the RP: the issue date, whether it begins, whether its usage fixes how often a day, and how often; its rule.
#[derive(Clone, Copy)]
pub struct Course {
    pub issue: Day,
    pub begins: bool,
    pub fixed: bool,
    pub times: u8,
    pub rule: Rule,
}

fn wide(n: u8) -> usize
    ensures { result ≡ n }
{
    n as usize
}

// Where the mark of a day stands; month 0 is every month.
pub fn place(month: u8, day: u8) -> usize
    ensures { result ≡ place_of month day }
{
    wide(month) * 32 + wide(day)
}

// ---- the days

fn in_turn(on: u8, off: u8, k: usize) -> bool
    ensures { result ≡ in_turn on off k }
{
    if on == 0 {
        return false;
    }
    k % (wide(on) + wide(off)) < wide(on)
}

fn in_week(w: Week, weekday: u8) -> bool
    ensures { result ≡ in_week w weekday }
{
    let meant = [
        w.sunday,
        w.monday,
        w.tuesday,
        w.wednesday,
        w.thursday,
        w.friday,
        w.saturday,
    ];
    match meant.get(wide(weekday)) {
        Some(m) => *m == 1,
        None => false,
    }
}

// Is a day in the twelve months that begin with the issue month?
fn in_window(issue: Day, t: Day) -> bool
    ensures { result ≡ in_window issue t }
{
    let from = (issue.year as u32) * 12 + (issue.month as u32);
    let at = (t.year as u32) * 12 + (t.month as u32);
    (from <= at) & (at < from + 12)
}

// Is a day marked, for every month, or for its own in the window?
fn on_mark(marks: &[bool; 416], issue: Day, t: Day) -> bool
    requires { Exists t }
    ensures { result ≡ on_mark marks.now issue t }
{
    let every = marks[wide(t.day)];
    let own = place(t.month, t.day);
    let named = marks[own];
    every | (in_window(issue, t) & named)
}

// Is there a dose on a day, which is k days after the start?
fn given(rule: Rule, marks: &[bool; 416], issue: Day, t: Day, weekday: u8, k: usize) -> bool
    requires { Exists t × (weekday ≡ weekday_of t) }
    ensures { result ≡ given_by rule marks.now issue t k }
{
    match rule {
        Rule::Every => true,
        Rule::Turns(on, off) => in_turn(on, off, k),
        Rule::Weekly(w) => in_week(w, weekday),
        Rule::Dates => on_mark(marks, issue, t),
        Rule::Counted => false,
    }
}

fn dose(c: Course, marks: &[bool; 416], t: Day, weekday: u8, k: usize) -> u8
    requires { Exists t × (weekday ≡ weekday_of t) }
    ensures { result ≡ dose_on c marks.now t k }
{
    let rule = c.rule;
    let issue = c.issue;
    if given(rule, marks, issue, t, weekday, k) {
        return c.times;
    }
    0
}

// Day by day.
fn fill_days(days: &mut [u8; 366], c: Course, marks: &[bool; 416], start: Day, n: usize)
    requires { (n ≤ 366) × (start.year ≤ 2099) × Exists start }
    ensures { days.new ≡ sets days.old 0 (doses_by c marks.now start 0 n) }
{
    let mut t = start;
    let mut weekday = day::weekday(start);
    for k in 0..n {
        days[k] = dose(c, marks, t, weekday, k);
        t = day::next(t);
        weekday = (weekday + 1) % 7;
    }
}

// The first n places.
fn copy(out: &mut [u8], days: &[u8; 366], n: usize)
    requires { (n ≤ length days.now) × (n ≤ 366) × (n ≤ length out.old) }
    ensures { out.new ≡ sets out.old 0 (take n days.now) }
{
    out[..n].copy_from_slice(&days[..n]);
}

// The calendar begins as 366 days without a dose, and is then filled.
fn lay(c: Course, marks: &[bool; 416], start: Day, n: usize, out: &mut [u8])
    requires { (n ≤ 366) × (n ≤ length out.old) × (start.year ≤ 2099) × Exists start }
    ensures { out.new ≡ doses_by c marks.now start 0 n ++ drop n out.old }
{
    let mut days = [0u8; 366];
    fill_days(&mut days, c, marks, start, n);
    copy(out, &days, n);
}

// ---- the call

// A start date; no day at all, where its numbers are too large for one that is taken.
fn start_of(year: u32, month: u32, day: u32) -> Day
    ensures { result ≡ start_of year month day }
{
    if (year <= 2099) & ((month <= 12) & (day <= 31)) {
        return Day {
            year: year as u16,
            month: month as u8,
            day: day as u8,
        };
    }
    Day {
        year: 0,
        month: 0,
        day: 0,
    }
}

fn valid(issue: Day, start: Day, n: u32) -> bool
    ensures { result ≡ (valid_days n && valid_start issue start) }
{
    let real = date::exists(start.year, start.month, start.day);
    let late = day::between(start, issue) == 0;
    ((1 <= n) & (n <= 366)) & ((1868 <= start.year) & ((start.year <= 2099) & (real & late)))
}

// Is the rule that of a C supplement?
fn counted(rule: Rule) -> bool
    ensures { result ≡ counted_by rule }
{
    matches!(rule, Rule::Counted)
}

// The first refusal; 0 where there is none.
fn first(begins: bool, valid: bool, fixed: bool, n: u32, room: usize) -> u16
    ensures { result ≡ first_of begins valid fixed n room }
{
    if !begins {
        return 53;
    }
    if !valid {
        return 51;
    }
    if !fixed {
        return 50;
    }
    if room < n as usize {
        return 33;
    }
    0
}

fn refused(number: u16) -> Result<(), Refusal>
    ensures { said result ≡ Refuses (no_place number) }
{
    Err(Refusal {
        fault: Fault { number, place: 0 },
        at: 0,
        field: 0,
        code: 0,
    })
}

// The calendar of a course.
fn tell(c: Course, marks: &[bool; 416], start: Day, n: u32, out: &mut [u8]) -> Result<(), Refusal>
    ensures { record { told = said result; output = out.new } ≡ answers (calendar_by c marks.now start n (length out.old)) out.old }
{
    let rule = c.rule;
    let issue = c.issue;
    let refusal = first(
        c.begins,
        valid(issue, start, n),
        c.fixed & !counted(rule),
        n,
        out.len(),
    );
    if refusal != 0 {
        return refused(refusal);
    }
    lay(c, marks, start, n as usize, out);
    Ok(())
}

// The doses of each of so many days of an RP, from a start date on, into the first places of `out`; or the refusal, and `out` as it was.
pub fn fill(
    c: Course,
    marks: &[bool; 416],
    year: u32,
    month: u32,
    day: u32,
    n: u32,
    out: &mut [u8],
) -> Result<(), Refusal>
    ensures { record { told = said result; output = out.new } ≡ answers (calendar_by c marks.now (day_by year month day) n (length out.old)) out.old }
{
    tell(c, marks, start_of(year, month, day), n, out)
}
