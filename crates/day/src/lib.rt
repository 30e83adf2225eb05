// Days of the calendar: the day after one, the days between two, the weekday.
#![tactic(auto)]

ghost use Rattle.std.specs.Prelude.{◌≡◌, ◌*◌, ◌≤◌};
ghost use Rattle.day.specs.Day.{next as next_of, months, years, count as count_of, between as between_of, weekday as weekday_of};

#[derive(Clone, Copy)]
pub struct Day {
    pub year: u16,
    pub month: u8,
    pub day: u8,
}

// How many days of a year that is no leap year stand before a month.
const BEFORE: [u16; 13] = [0, 0, 31, 59, 90, 120, 151, 181, 212, 243, 273, 304, 334];

// The day after.
pub fn next(t: Day) -> Day
    ensures { result ≡ next_of t }
{
    let last = date::last_day(t.year, t.month);
    if t.day < last {
        return Day {
            day: t.day + 1,
            ..t
        };
    }
    if t.month < 12 {
        return Day {
            month: t.month + 1,
            day: 1,
            ..t
        };
    }
    if t.year < 65535 {
        return Day {
            year: t.year + 1,
            month: 1,
            day: 1,
        };
    }
    t
}

// The days of the years before a year.
fn years_before(year: u16) -> u32
    ensures { (result ≡ years year) × (result ≤ 65536 * 366) }
{
    let y = u32::from(year);
    y * 365 + (y + 3) / 4 + (y + 399) / 400 - (y + 99) / 100
}

// The days of a year before a month; all of them, where it has no such month.
fn months_before(year: u16, month: u8) -> u16
    ensures { (result ≡ months year month) × (result ≤ 366) }
{
    if 12 < month {
        return if date::leap(year) { 366 } else { 365 };
    }
    let days = BEFORE[month as usize];
    if (2 < month) & date::leap(year) {
        days + 1
    } else {
        days
    }
}

// The number of a day, counted on from the first day of year 0.
fn count(t: Day) -> u32
    ensures { (result ≡ count_of t) × (result ≤ 65538 * 366) }
{
    let y = years_before(t.year);
    let m = months_before(t.year, t.month);
    y + u32::from(m) + u32::from(t.day)
}

// How many days after one another comes; 0 where it comes before it.
pub fn between(a: Day, b: Day) -> u32
    ensures { result ≡ between_of a b }
{
    count(b).saturating_sub(count(a))
}

// Sunday is 0.
pub fn weekday(t: Day) -> u8
    ensures { result ≡ weekday_of t }
{
    ((count(t) + 5) % 7) as u8
}
