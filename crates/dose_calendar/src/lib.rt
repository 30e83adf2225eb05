// The dose calendar of one RP of a sheet, for the packing machine: how many doses each day has, from a start date on.
#![tactic(auto)]

ghost use Rattle.std.specs.Prelude.{◌≡◌, false, [], ◌∷◌, length, replicate};
ghost use Rattle.usage.specs.Times.{fixes_times};
ghost use Rattle.days.specs.Run.{upto0};
ghost use Rattle.record.specs.declared.Record.TheVariants.{Rp, Usage, Supplement as Supply};
ghost use Rattle.day.specs.Day.{day as day_by};
ghost use Rattle.course.specs.Calendar.{said, answers};
ghost use Rattle.course.specs.Kept.{rule_of};
ghost use Rattle.dose_calendar.specs.Found.{owns as owns_of, day_of};
ghost use Rattle.dose_calendar.specs.Calendar.{calendar_of};
ghost use Rattle.dose_calendar.specs.Code.Gather.{joined as joined_of, joined_by, mark_day, mark_days, marked_by, course as course_by, no_course, with_usage_of, with_rule, course_with, marks_with, Gives};

use counter::RpNumber;
use course::{Course, Rule};
use date::Date;
use day::Day;
use record::{Record, Record101, Record111, Record181, Refusal};
use supplement::{Days, Supplement};
use usage::Instruction;

// ---- the records

// Does a record carry the RP's number?
fn owns(rp: u32, n: RpNumber) -> bool
    ensures { result ≡ owns_of rp n }
{
    u32::from(n.0) == rp
}

fn mark_day(marks: &mut [bool; 416], month: u8, day: u8)
    ensures { marks.new ≡ mark_day marks.old month day }
{
    if (month < 13) & (day < 32) {
        marks[course::place(month, day)] = true;
    }
}

// Marks the days of a date code, which end at its first 0.
fn mark_days(marks: &mut [bool; 416], month: u8, days: Days)
    ensures { marks.new ≡ mark_days marks.old month (upto0 (days.d1 ∷ days.d2 ∷ days.d3 ∷ days.d4 ∷ days.d5 ∷ days.d6 ∷ [])) }
{
    let six = [days.d1, days.d2, days.d3, days.d4, days.d5, days.d6];
    for d in six {
        if d == 0 {
            return;
        }
        mark_day(marks, month, d);
    }
}

// The rule of a supplement.
fn rule_of(x: Supplement) -> Rule
    ensures { result ≡ rule_of x }
{
    if x.letter == b'I' {
        return Rule::Turns(x.on, x.off);
    }
    if x.letter == b'W' {
        let w = x.week;
        return Rule::Weekly(w);
    }
    if x.letter == b'C' {
        return Rule::Counted;
    }
    Rule::Dates
}

// The first supplement makes the rule; after it come only date codes of one run.
fn joined(rule: Rule, x: Supplement) -> Rule
    ensures { result ≡ joined_of rule x }
{
    match rule {
        Rule::Every => rule_of(x),
        _ => rule,
    }
}

fn no_course() -> Course
    ensures { result ≡ no_course }
{
    Course {
        issue: Day {
            year: 0,
            month: 0,
            day: 0,
        },
        begins: false,
        fixed: false,
        times: 0,
        rule: Rule::Every,
    }
}

// Does a usage code fix how often a day?
fn fixes_times(i: Instruction) -> bool
    ensures { result ≡ fixes_times i }
{
    let k = i.kind;
    (k == 1) | ((k == 2) | ((k == 3) | ((k == 6) | ((k == 7) & (i.about == 0)))))
}

fn with_times(c: Course, fixed: bool, times: u8) -> Course
    ensures { result ≡ course_by c.issue c.begins fixed times c.rule }
{
    let mut t = c;
    t.fixed = fixed;
    t.times = times;
    t
}

fn with_usage(c: Course, code: Option<Instruction>) -> Course
    ensures { result ≡ with_usage_of c code }
{
    match code {
        Some(i) => with_times(c, fixes_times(i), i.times),
        None => with_times(c, false, 0),
    }
}

fn with_rule(c: Course, rule: Rule) -> Course
    ensures { result ≡ with_rule c rule }
{
    let issue = c.issue;
    Course {
        issue,
        begins: c.begins,
        fixed: c.fixed,
        times: c.times,
        rule,
    }
}

fn with_supplement(c: Course, marks: &mut [bool; 416], code: Option<Supplement>) -> Course
    ensures { (result ≡ with_rule c (joined_by c.rule code)) × (marks.new ≡ marked_by marks.old code) }
{
    match code {
        Some(x) => {
            let days = x.days;
            mark_days(marks, x.month, days);
            let rule = c.rule;
            with_rule(c, joined(rule, x))
        }
        None => c,
    }
}

// What each kind of record says: the date of issue its day,
fn after_issue(c: Course, date: Date) -> Course
    ensures { result ≡ course_by (day_of date) c.begins c.fixed c.times c.rule }
{
    let issue = Day {
        year: date.year,
        month: date.month,
        day: date.day,
    };
    let mut t = c;
    t.issue = issue;
    t
}

// the RP that it begins,
fn after_rp(c: Course, rp: u32, x: Record101) -> Course
    ensures { result ≡ course_with rp c (Rp x) }
{
    if owns(rp, x.rp) {
        let mut t = c;
        t.begins = true;
        return t;
    }
    c
}

// its usage,
fn after_usage(c: Course, rp: u32, x: Record111) -> Course
    ensures { result ≡ course_with rp c (Usage x) }
{
    if owns(rp, x.rp) {
        let code = x.code;
        return with_usage(c, code);
    }
    c
}

// and each of its supplements.
fn after_supplement(c: Course, marks: &mut [bool; 416], rp: u32, x: Record181) -> Course
    ensures { (result ≡ course_with rp c (Supply x)) × (marks.new ≡ marks_with rp marks.old (Supply x)) }
{
    if owns(rp, x.rp) {
        let code = x.code;
        return with_supplement(c, marks, code);
    }
    c
}

fn with_record(c: Course, marks: &mut [bool; 416], rp: u32, r: Record) -> Course
    ensures { (result ≡ course_with rp c r) × (marks.new ≡ marks_with rp marks.old r) }
{
    match r {
        Record::Issue(x) => after_issue(c, x.date),
        Record::Rp(x) => after_rp(c, rp, x),
        Record::Usage(x) => after_usage(c, rp, x),
        Record::Supplement(x) => after_supplement(c, marks, rp, x),
        Record::Drug(_) => c,
        Record::Kept(_) => c,
    }
}

// Reads the file once, record by record, to its end.
fn gather(file: &[u8], rp: u32, marks: &mut [bool; 416]) -> Result<Course, Refusal>
    requires { marks.old ≡ replicate 416 false }
    ensures { Gives file.now rp marks.new result }
{
    let mut from = reader::open(file);
    let mut c = no_course();
    loop {
        let step = reader::next(file, from);
        match step.next? {
            Some(r) => {
                c = with_record(c, marks, rp, r);
                from = step.state;
            }
            None => {
                return Ok(c);
            }
        }
    }
}

// The doses of each of so many days of an RP, from a start date on, into the first places of `out`; or the refusal, and `out` as it was.
pub fn fill(
    file: &[u8],
    rp: u32,
    year: u32,
    month: u32,
    day: u32,
    days: u32,
    out: &mut [u8],
) -> Result<(), Refusal>
    ensures { record { told = said result; output = out.new } ≡ answers (calendar_of file.now rp (day_by year month day) days (length out.old)) out.old }
{
    let mut marks = [false; 416];
    let c = gather(file, rp, &mut marks)?;
    course::fill(c, &marks, year, month, day, days, out)
}
