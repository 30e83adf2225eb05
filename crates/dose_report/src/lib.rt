// A question for a dose calendar, `RP YEAR MONTH DAY DAYS ROOM` on a line with the sheet behind it, answered in a line on standard output.
#![tactic(auto)]

ghost use Rattle.std.specs.Prelude.{◌≡◌};
ghost use Rattle.reader.specs.Said.{said_check};
ghost use Rattle.reader.specs.File.{check_file};
ghost use Rattle.dose_report.specs.Behind.{behind};

use record::Refusal;

// The longest first line that is a question.
const LINE: usize = 16382;

// The most days, and as many places: room for more is as good as that.
const DAYS: usize = 366;

// An RP, the start date, the days that are asked for, and the places lent for them.
#[derive(Clone, Copy)]
struct Asked {
    rp: u32,
    year: u32,
    month: u32,
    day: u32,
    days: u32,
    room: u32,
}

// Prints `doses D1 D2 ..`, the refusal, or `unknown question`, and hands back what the sheet is read as: its promise is about that, and what it prints
// is compared.
pub fn answer(rt: &impl Print, s: &[u8]) -> Result<usize, Refusal>
    ensures { said_check result ≡ check_file (behind s.now) }
{
    let (line, sheet) = parts(s);
    match question(line) {
        Some(asked) => tell(rt, sheet, asked),
        None => words(rt, b"unknown question\n"),
    }
    reader::check(sheet)
}

// The first line, up to its LF or to the end, and the sheet behind it; nothing where there is none.
fn parts(s: &[u8]) -> (&[u8], &[u8])
    ensures { result.1.now ≡ behind s.now }
{
    match streams::split_once(s, b'\n') {
        Some(p) => p,
        None => (s, &[]),
    }
}

// Six numbers, parted by single spaces.
fn question(line: &[u8]) -> Option<Asked> {
    if LINE < line.len() {
        return None;
    }
    let mut numbers = [0u32; 6];
    let mut words = line.split(|c| *c == b' ');
    for n in &mut numbers {
        *n = streams::number(words.next()?)?;
    }
    if words.next().is_some() {
        return None;
    }
    let [rp, year, month, day, days, room] = numbers;
    Some(Asked {
        rp,
        year,
        month,
        day,
        days,
        room,
    })
}

// The doses of each day, or why there are none. The file's own refusal is `report`'s line; the calendar's numbers have no place.
fn tell(rt: &impl Print, sheet: &[u8], q: Asked) {
    let mut doses = [0u8; DAYS];
    let room = DAYS.min(q.room as usize);
    let told = dose_calendar::fill(
        sheet,
        q.rp,
        q.year,
        q.month,
        q.day,
        q.days,
        &mut doses[..room],
    );
    match told {
        Ok(()) => print_doses(rt, &doses, q.days as usize),
        Err(f) if f.fault.number < 33 => {
            let _ = report::sheet(rt, sheet);
        }
        Err(f) => streams::print(rt, format_args!("refused {}\n", f.fault.number)),
    }
}

fn print_doses(rt: &impl Print, doses: &[u8], days: usize) {
    words(rt, b"doses");
    for dose in doses.iter().take(days) {
        streams::print(rt, format_args!(" {dose}"));
    }
    words(rt, b"\n")
}

fn words(rt: &impl Print, text: &[u8]) {
    streams::write_all(rt, text);
}
