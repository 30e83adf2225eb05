// Answers questions about codes from standard input, a line each, on standard output, a line each:
//   usage CODE           supplement CODE        CODE is every byte after the first space
//   again CODE                                  a code of sixteen or eight characters, read and written again
//   run MONTH CODES      set MONTH SET ROOM     SET is CELL:DAY,DAY/CELL:DAY.. or -
//   date YEAR MONTH DAY STYLE                   STYLE is none, era or western
#![tactic(auto)]

mod ask;
mod say;

use ask::{Asked, Style};
use cells::Fault;
use date::Date;
use days::DaySet;

// Room for 1 MiB of questions, and for one byte more by which a longer input is known.
fn main(rt: HostRuntime) {
    let mut room = [0u8; 1048577];
    answer_input(&rt, &mut room)
}

// Kept: a call of its own, where the room's length is known by its type; in `main` the check looks at a million bytes and runs out of stack.
fn answer_input(rt: &(impl Input + Print), room: &mut [u8; 1048577]) {
    let mut input = rt.reader();
    let n = streams::read_full(&mut input, room);
    if 1048576 < n {
        return say::words(rt, b"input longer than 1048576 bytes\n");
    }
    answer_all(rt, &room[..n])
}

// LF ends a line; the last may lack it.
fn answer_all(rt: &impl Print, input: &[u8]) {
    for line in input.split_inclusive(|c| *c == b'\n') {
        answer(rt, line.strip_suffix(b"\n").unwrap_or(line));
        say::words(rt, b"\n");
    }
}

fn answer(rt: &impl Print, line: &[u8]) {
    match ask::question(line) {
        Some(asked) => {
            if let Err(f) = tell(rt, asked) {
                say::refusal(rt, f)
            }
        }
        None => say::unknown(rt),
    }
}

// What is taken is printed; a refusal is handed back.
fn tell(rt: &impl Print, asked: Asked<'_>) -> Result<(), Fault> {
    match asked {
        Asked::Usage(code) => say::instruction(rt, usage::read(code)?),
        Asked::Supplement(code) => say::supplement(rt, supplement::read(code)?),
        Asked::Again(code) => say::same(rt, again(code)?),
        Asked::Run(month, codes) => say::run(rt, days::read_run(month, codes)),
        Asked::Set(month, set, room) => write_set(rt, month, set, room)?,
        Asked::Date(style, year, month, day) => say::date(rt, date_of(style, year, month, day)?),
    }
    Ok(())
}

// Is a code that was read the one that is written for it? A code of eight characters is a supplementary code, any other a usage code, which
// refuses every length but sixteen.
fn again(code: &[u8]) -> Result<bool, Fault> {
    if code.len() == 8 {
        let written = supplement_writer::write(supplement::read(code)?);
        return Ok(written.is_ok_and(|w| cells::same_bytes(&w, code)));
    }
    let written = usage_writer::write(usage::read(code)?);
    Ok(written.is_ok_and(|w| cells::same_bytes(&w, code)))
}

// The set written into a buffer of so many bytes.
fn write_set(rt: &impl Print, month: u8, set: DaySet, room: usize) -> Result<(), Fault> {
    let mut codes = [0u8; 536];
    if room <= 536 {
        let n = days_writer::write_run(month, set, &mut codes[..room])?;
        say::codes(rt, n, &codes);
    }
    Ok(())
}

fn date_of(style: Style, year: u16, month: u8, day: u8) -> Result<Date, Fault> {
    match style {
        Style::None => Date::of(year, month, day),
        Style::Era => Date::era(year, month, day),
        Style::Western => Date::western(year, month, day),
    }
}
