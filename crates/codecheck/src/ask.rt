// A question, and how its line asks it.
use days::DaySet;

// A date's style.
#[derive(Clone, Copy)]
pub enum Style {
    None,
    Era,
    Western,
}

#[derive(Clone, Copy)]
pub enum Asked<'a> {
    Usage(&'a [u8]),
    Supplement(&'a [u8]),
    Again(&'a [u8]),
    Run(u8, &'a [u8]),
    Set(u8, DaySet, usize),
    Date(Style, u16, u8, u8),
}

// The question of a line: a word, a space, and what it asks of.
pub fn question(line: &[u8]) -> Option<Asked<'_>> {
    let (word, rest) = streams::split_once(line, b' ')?;
    match word {
        b"usage" => Some(Asked::Usage(rest)),
        b"supplement" => Some(Asked::Supplement(rest)),
        b"again" => Some(Asked::Again(rest)),
        b"run" => of_run(rest),
        b"set" => of_set(rest),
        b"date" => of_date(rest),
        _ => None,
    }
}

// `MONTH CODES`.
fn of_run(rest: &[u8]) -> Option<Asked<'_>> {
    let (month, codes) = streams::split_once(rest, b' ')?;
    Some(Asked::Run(short(streams::number(month)?), codes))
}

// `MONTH SET ROOM`. A room above that of 67 codes is as good as that.
fn of_set(rest: &[u8]) -> Option<Asked<'_>> {
    let (month, rest) = streams::split_once(rest, b' ')?;
    let (set, room) = streams::split_once(rest, b' ')?;
    let month = short(streams::number(month)?);
    let room = streams::number(room)?.min(536);
    Some(Asked::Set(month, set_of(set)?, room as usize))
}

// `YEAR MONTH DAY STYLE`.
fn of_date(rest: &[u8]) -> Option<Asked<'_>> {
    let (year, rest) = streams::split_once(rest, b' ')?;
    let (month, rest) = streams::split_once(rest, b' ')?;
    let (day, style) = streams::split_once(rest, b' ')?;
    let year = u16::try_from(streams::number(year)?).unwrap_or(u16::MAX);
    let month = short(streams::number(month)?);
    let day = short(streams::number(day)?);
    Some(Asked::Date(style_of(style)?, year, month, day))
}

fn style_of(word: &[u8]) -> Option<Style> {
    match word {
        b"none" => Some(Style::None),
        b"era" => Some(Style::Era),
        b"western" => Some(Style::Western),
        _ => None,
    }
}

// A month or a day as the library takes it; a larger number is none either, and neither is a year that two bytes lack room for.
fn short(n: u32) -> u8 {
    u8::try_from(n).unwrap_or(u8::MAX)
}

// A set: `-`, or cells parted by `/`, each with its number, `:` and its days, parted by commas.
fn set_of(text: &[u8]) -> Option<DaySet> {
    let mut set = DaySet { cells: [0; 13] };
    if text == b"-".as_slice() {
        return Some(set);
    }
    for part in text.split(|c| *c == b'/') {
        let (cell, days) = streams::split_once(part, b':')?;
        let cell = streams::number(cell)?;
        for day in days.split(|c| *c == b',') {
            put(&mut set, cell, streams::number(day)?);
        }
    }
    Some(set)
}

// A day that no mask or no cell has room for is kept as day 32 of every month, which no calendar has either.
fn put(set: &mut DaySet, cell: u32, day: u32) {
    if cell <= 12 && 1 <= day && day <= 31 {
        set.cells[cell as usize] |= 1 << (day - 1);
    } else {
        set.cells[0] |= 1 << 31;
    }
}
