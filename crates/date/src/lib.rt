// Dates: western and era style, read, kept, made and printed.
#![tactic(auto)]

ghost use Rattle.std.specs.Prelude.{◌≡◌, true, ◌+◌, ◌≤◌, length};
ghost use Rattle.number.specs.Number.{figures as figures_of};
ghost use Rattle.date.specs.Date.{leap as leap_of, last_day, exists as exists_of, era_adds, day_number, in_force, in_style, in_its_era, is_date, said, held as held_of, two as two_of, read_date, make_western, make_era, make_date};
ghost use Rattle.date.specs.Print.{figure as figure_of, in_western, in_era, print_date, text, printed};

use cells::Fault;

// A day, and the style that it is written in: era 0 is western style, 1 to 5 are the eras. The year is the western one.
#[derive(Clone, Copy)]
pub struct Date {
    // Kept: an era is the digit that its fields begin with, and its number for C.
    pub era: u8,
    pub year: u16,
    pub month: u8,
    pub day: u8,
}

// A date's characters, and 0 bytes after them.
#[derive(Clone, Copy)]
pub struct Text {
    pub length: u8,
    pub bytes: [u8; 8],
}

// No such day or year.
const NONE: Fault = Fault {
    number: 27,
    place: 0,
};

// The last day of months 1 to 12 in a year that is no leap year.
const LAST_DAYS: [u8; 13] = [0, 31, 28, 31, 30, 31, 30, 31, 31, 30, 31, 30, 31];

impl Date {
    // What each era adds to its own years, and its first day, YYYYMMDD. It ends the day before the next begins.
    pub const MEIJI: u16 = 1867;

    pub const MEIJI_FIRST: u32 = 18680101;

    pub const TAISHO: u16 = 1911;

    pub const TAISHO_FIRST: u32 = 19120730;

    pub const SHOWA: u16 = 1925;

    pub const SHOWA_FIRST: u32 = 19261225;

    pub const HEISEI: u16 = 1988;

    pub const HEISEI_FIRST: u32 = 19890108;

    pub const REIWA: u16 = 2018;

    pub const REIWA_FIRST: u32 = 20190501;

    // The first day on which no era is in force any more.
    pub const REIWA_OVER: u32 = 21000101;

    // A date in western style.
    pub fn western(year: u16, month: u8, day: u8) -> Result<Date, Fault>
        ensures { said result ≡ make_western year month day }
    {
        held(Date {
            era: 0,
            year,
            month,
            day,
        })
    }

    // A date in the era in force on the day.
    pub fn era(year: u16, month: u8, day: u8) -> Result<Date, Fault>
        ensures { said result ≡ make_era year month day }
    {
        held(Date {
            era: in_force(year, month, day),
            year,
            month,
            day,
        })
    }

    // A date with no style named.
    pub fn of(year: u16, month: u8, day: u8) -> Result<Date, Fault>
        ensures { said result ≡ make_date year month day }
    {
        Date::era(year, month, day)
    }
}

// Every fourth year, but of full centuries only every fourth.
pub fn leap(year: u16) -> bool
    ensures { result ≡ leap_of year }
{
    (year % 4 == 0) & ((year % 100 != 0) | (year % 400 == 0))
}

// The last day of a month; 0 where there is no such month.
// Kept: no day is up to 0, so that no caller asks whether there is such a month.
pub fn last_day(year: u16, month: u8) -> u8
    ensures { result ≡ last_day year month }
{
    if (month == 2) & leap(year) {
        return 29;
    }
    if month < 13 {
        return LAST_DAYS[month as usize];
    }
    0
}

// Is there such a day?
pub fn exists(year: u16, month: u8, day: u8) -> bool
    ensures { result ≡ exists_of year month day }
{
    let last = last_day(year, month);
    (1 <= month) & ((month <= 12) & ((1 <= day) & (day <= last)))
}

// What an era adds to its years; 0 where there is no such era.
fn era_adds(era: u8) -> u16
    ensures { (result ≡ era_adds era) × (result ≤ 2018) }
{
    match era {
        1 => Date::MEIJI,
        2 => Date::TAISHO,
        3 => Date::SHOWA,
        4 => Date::HEISEI,
        5 => Date::REIWA,
        _ => 0,
    }
}

// Can the year be written in the style?
fn in_style(t: Date) -> bool
    ensures { result ≡ in_style t }
{
    let year = t.year;
    if t.era == 0 {
        return (1868 <= year) & (year <= 2099);
    }
    let adds = era_adds(t.era);
    (t.era <= 5) & ((adds + 1 <= year) & (year <= adds + 99))
}

// A day as the number YYYYMMDD.
fn day_number(year: u16, month: u8, day: u8) -> u32
    ensures { result ≡ day_number year month day }
{
    u32::from(year) * 10000 + u32::from(month) * 100 + u32::from(day)
}

// The era in force on a day; 0 where none is.
// Kept: a table of the eras would be searched from its end, and the last era's end would stand beside it.
fn in_force(year: u16, month: u8, day: u8) -> u8
    ensures { result ≡ in_force year month day }
{
    let on = day_number(year, month, day);
    if Date::REIWA_OVER <= on {
        return 0;
    }
    if Date::REIWA_FIRST <= on {
        return 5;
    }
    if Date::HEISEI_FIRST <= on {
        return 4;
    }
    if Date::SHOWA_FIRST <= on {
        return 3;
    }
    if Date::TAISHO_FIRST <= on {
        return 2;
    }
    if Date::MEIJI_FIRST <= on {
        return 1;
    }
    0
}

// Does a date in era style lie in its era? The ticket's order: it is asked once the day exists. No answer depends on that.
fn in_its_era(t: Date) -> bool
    requires { exists_of t.year t.month t.day ≡ true }
    ensures { result ≡ in_its_era t }
{
    if t.era == 0 {
        return true;
    }
    t.era == in_force(t.year, t.month, t.day)
}

fn is_date(t: Date) -> bool
    ensures { result ≡ is_date t }
{
    if !in_style(t) {
        return false;
    }
    if exists(t.year, t.month, t.day) {
        return in_its_era(t);
    }
    false
}

fn held(t: Date) -> Result<Date, Fault>
    ensures { said result ≡ held_of t }
{
    if is_date(t) { Ok(t) } else { Err(NONE) }
}

// The number of two digits.
fn two(s: &[u8], at: usize) -> u8
    requires { (figures_of s.now ≡ true) × (at + 2 ≤ length s.now) }
    ensures { (result ≡ two_of s.now at) × (result ≤ 99) }
{
    (s[at] - b'0') * 10 + (s[at + 1] - b'0')
}

// Eight digits, YYYYMMDD.
fn read_western(s: &[u8]) -> Result<Date, Fault>
    requires { (figures_of s.now ≡ true) × (length s.now ≡ 8) }
    ensures { said result ≡ read_date s.now }
{
    held(Date {
        era: 0,
        year: u16::from(two(s, 0)) * 100 + u16::from(two(s, 2)),
        month: two(s, 4),
        day: two(s, 6),
    })
}

// Seven digits: era, two-digit year, MMDD.
fn read_era(s: &[u8]) -> Result<Date, Fault>
    requires { (figures_of s.now ≡ true) × (length s.now ≡ 7) }
    ensures { said result ≡ read_date s.now }
{
    let era = s[0] - b'0';
    if era == 0 {
        return Err(NONE);
    }
    held(Date {
        era,
        year: era_adds(era) + u16::from(two(s, 1)),
        month: two(s, 3),
        day: two(s, 5),
    })
}

// A field's date.
pub fn read(s: &[u8]) -> Result<Date, Fault>
    ensures { said result ≡ read_date s.now }
{
    if !number::figures(s) {
        return Err(NONE);
    }
    match s.len() {
        8 => read_western(s),
        7 => read_era(s),
        _ => Err(NONE),
    }
}

// The last digit of a number.
fn figure(n: u16) -> u8
    ensures { result ≡ figure_of n }
{
    b'0' + (n % 10) as u8
}

fn print_western(t: Date) -> Text
    ensures { result ≡ text (in_western t) }
{
    let month = u16::from(t.month);
    let day = u16::from(t.day);
    Text {
        length: 8,
        bytes: [
            figure(t.year / 1000),
            figure(t.year / 100),
            figure(t.year / 10),
            figure(t.year),
            figure(month / 10),
            figure(month),
            figure(day / 10),
            figure(day),
        ],
    }
}

fn print_era(t: Date) -> Text
    requires { era_adds t.era ≤ t.year }
    ensures { result ≡ text (in_era t) }
{
    let year = t.year - era_adds(t.era);
    let month = u16::from(t.month);
    let day = u16::from(t.day);
    Text {
        length: 7,
        bytes: [
            figure(u16::from(t.era)),
            figure(year / 10),
            figure(year),
            figure(month / 10),
            figure(month),
            figure(day / 10),
            figure(day),
            0,
        ],
    }
}

// The field that a date is written as.
pub fn print(t: Date) -> Option<Text>
    ensures { result ≡ printed (print_date t) }
{
    if !is_date(t) {
        return None;
    }
    if t.era == 0 {
        Some(print_western(t))
    } else {
        Some(print_era(t))
    }
}
