// The bag labels of a sheet, on standard output: one for each RP, in the order of the file, which is that of RP numbers. A byte of Shift_JIS
// is a column, and no text is ever cut.
//
//   RP  12  4300702                                              columns 1-2 `RP`, 3-6 its number, from 9 the issue date
//     USAGE                                                      from 3 the usage's name
//     SUPPLEMENT                                                 from 3 each supplement in words, or else its text; the dates last
//     DRUG                                               3 TAB   3-42 the name, 43-55 the amount, from 57 the unit
//
// and an empty line. A name of more than 40 bytes has a line of its own, and the amount and the unit stand on the next; a drug without a name
// shows its code.
#![tactic(auto)]

ghost use Rattle.std.specs.Prelude.{◌≡◌, ◌<◌, take};
ghost use Rattle.reader.specs.Said.{said_check};
ghost use Rattle.reader.specs.File.{check_file};

use date::Date;
use days::DaySet;
use printed::Piece;
use record::{Record, Record101, Record181, Record201, Refusal};
use supplement::{Supplement, Week};

// The columns of a drug's name, and of its amount with the space before it.
const NAME: usize = 40;

const AMOUNT: usize = 13;

// The columns before the texts of a label.
const LEFT: &[u8] = b"  ";

// What the records so far leave for the label: whether one is begun, the issue date, and how many bytes of date codes wait.
#[derive(Clone, Copy)]
struct Bag {
    begun: bool,
    issue: Date,
    run: usize,
}

// Checks a sheet, prints its labels, or the line that `report` has for a refusal, and hands back what it is read as.
pub fn sheet(rt: &impl Print, s: &[u8]) -> Result<usize, Refusal>
    ensures { said_check result ≡ check_file s.now }
{
    let r = reader::check(s);
    match r {
        Ok(_) => {
            let _ = labels(rt, s);
        }
        Err(_) => {
            let _ = report::sheet(rt, s);
        }
    }
    r
}

// Record by record, through the sheet that carries its file; one that is taken ends with no refusal. The room is that of the longest run of date
// codes, 67 of them.
fn labels(rt: &impl Print, s: &[u8]) -> Result<(), Refusal> {
    let mut t = sheet::begin(s);
    let mut codes = [0u8; 536];
    let mut bag = no_bag();
    loop {
        let step = sheet::step(s, t);
        match step.next? {
            Some(r) => {
                add(rt, s, &mut bag, r, &mut codes);
                t = step.state;
            }
            None => {
                print(rt, b"\n");
                return Ok(());
            }
        }
    }
}

fn no_bag() -> Bag {
    Bag {
        begun: false,
        issue: Date {
            era: 0,
            year: 0,
            month: 0,
            day: 0,
        },
        run: 0,
    }
}

// What a record adds to the label is printed, and what it leaves is kept in the bag.
fn add(rt: &impl Print, s: &[u8], bag: &mut Bag, r: Record, codes: &mut [u8]) {
    match r {
        Record::Issue(x) => bag.issue = x.date,
        Record::Rp(x) => begin(rt, bag, x),
        Record::Usage(x) => print_line(rt, record::text(s, x.name)),
        Record::Supplement(x) => add_supplement(rt, s, bag, x, codes),
        Record::Drug(x) => {
            // Before the first drug of its RP the dates.
            dates(rt, bag.issue.month, first(codes, bag.run));
            bag.run = 0;
            drug(rt, s, x)
        }
        Record::Kept(_) => {}
    }
}

// An RP begins: an empty line ends the label before it.
fn begin(rt: &impl Print, bag: &mut Bag, x: Record101) {
    if bag.begun {
        print(rt, b"\n");
    }
    print(rt, b"RP");
    print_right(rt, printed::number(x.rp.0), 4);
    print(rt, LEFT);
    issue_date(rt, bag.issue);
    print(rt, b"\n");
    bag.begun = true
}

// The date made again with no style named.
fn issue_date(rt: &impl Print, t: Date) {
    if let Ok(d) = Date::of(t.year, t.month, t.day) {
        print_right(rt, printed::day(d), 0)
    }
}

// A date code waits for the others of its run.
fn add_supplement(rt: &impl Print, s: &[u8], bag: &mut Bag, x: Record181, codes: &mut [u8]) {
    match x.code {
        Some(c) if c.letter == b'D' => bag.run = put_code(codes, bag.run, c),
        Some(c) => print_schedule(rt, c),
        None => print_line(rt, record::text(s, x.text)),
    }
}

// A code behind those before it; the place after it. No run of a sheet that is taken lacks room.
fn put_code(codes: &mut [u8], at: usize, x: Supplement) -> usize {
    let code = supplement_writer::write(x).unwrap_or([0; 8]);
    if codes.len() < 8 || codes.len() - 8 < at {
        return at;
    }
    codes[at..at + 8].copy_from_slice(&code);
    at + 8
}

// The days of the whole run; none where no code waits.
fn dates(rt: &impl Print, issue: u8, codes: &[u8]) {
    if let Ok(set) = days::read_run(issue, codes) {
        print_days(rt, issue, set)
    }
}

fn drug(rt: &impl Print, s: &[u8], x: Record201) {
    drug_name(rt, title(s, x));
    print_right(rt, printed::amount(x.amount), AMOUNT);
    print(rt, b" ");
    print(rt, record::text(s, x.unit));
    print(rt, b"\n");
}

// What a drug is called: its name, or where it has none its code.
fn title(s: &[u8], x: Record201) -> &[u8] {
    let name = record::text(s, x.name);
    if name.is_empty() {
        return record::text(s, x.code);
    }
    name
}

// Up to the amount's columns, on the next line where the name passes its own.
fn drug_name(rt: &impl Print, t: &[u8]) {
    print(rt, LEFT);
    print(rt, t);
    if NAME < t.len() {
        print(rt, b"\n  ");
        return spaces(rt, NAME);
    }
    spaces(rt, NAME - t.len())
}

// ---- supplements in words, as they stand on a bag, in Shift_JIS: a line each

// I, W or C.
fn print_schedule(rt: &impl Print, x: Supplement) {
    match x.letter {
        b'I' => interval(rt, x.on, x.off),
        b'W' => week(rt, x.week),
        b'C' => times(rt, x.period, x.count),
        _ => {}
    }
}

fn interval(rt: &impl Print, on: u8, off: u8) {
    print(rt, LEFT);
    streams::print(rt, on);
    print(rt, b"\x93\xfa\x95\x9e\x97\x70 "); // 日服用
    streams::print(rt, off);
    print(rt, b"\x93\xfa\x8b\x78\x96\xf2\n"); // 日休薬
}

// 日, 月, 火, 水, 木, 金, 土.
const WEEKDAYS: [&[u8]; 7] = [
    b"\x93\xfa",
    b"\x8c\x8e",
    b"\x89\xce",
    b"\x90\x85",
    b"\x96\xd8",
    b"\x8b\xe0",
    b"\x93\x79",
];

fn week(rt: &impl Print, w: Week) {
    let meant = [
        w.sunday,
        w.monday,
        w.tuesday,
        w.wednesday,
        w.thursday,
        w.friday,
        w.saturday,
    ];
    print(rt, b" ");
    for (name, meant) in WEEKDAYS.iter().zip(meant) {
        if meant == 1 {
            print(rt, b" ");
            print(rt, name);
        }
    }
    print(rt, b"\n");
}

fn times(rt: &impl Print, period: u8, count: u8) {
    print(rt, LEFT);
    print(rt, each(period));
    streams::print(rt, count);
    print(rt, b"\x89\xf1\n"); // 回
}

fn each(period: u8) -> &'static [u8] {
    match period {
        b'Y' => b"\x94\x4e", // 年
        b'M' => b"\x8c\x8e", // 月
        _ => b"\x8f\x54", // 週
    }
}

// The days of every month, or those of the twelve months from the issue month on, a month a line.
fn print_days(rt: &impl Print, issue: u8, set: DaySet) {
    month(rt, 0, set.cells[0]);
    for ahead in 0..12u8 {
        let m = month_ahead(issue, ahead);
        month(rt, m, set.cells[m as usize]);
    }
}

fn month_ahead(issue: u8, ahead: u8) -> u8
    requires { ahead < 12 }
    ensures { result < 13 }
{
    (issue % 12 + ahead + 11) % 12 + 1
}

fn month(rt: &impl Print, m: u8, mask: u32) {
    if mask == 0 {
        return;
    }
    print(rt, LEFT);
    month_name(rt, m);
    for bit in 0..31u32 {
        if mask >> bit & 1 == 1 {
            streams::print(rt, format_args!(" {}", bit + 1));
            print(rt, b"\x93\xfa"); // 日
        }
    }
    print(rt, b"\n");
}

fn month_name(rt: &impl Print, m: u8) {
    if m == 0 {
        return print(rt, b"\x96\x88\x8c\x8e"); // 毎月
    }
    streams::print(rt, m);
    print(rt, b"\x8c\x8e") // 月
}

// ---- texts and columns

fn print(rt: &impl Print, t: &[u8]) {
    streams::write_all(rt, t);
}

// A text on a line of its own, from the third column on.
fn print_line(rt: &impl Print, t: &[u8]) {
    print(rt, LEFT);
    print(rt, t);
    print(rt, b"\n");
}

fn spaces(rt: &impl Print, n: usize) {
    for _ in 0..n {
        print(rt, b" ");
    }
}

// The bytes up to a place; all where there are fewer.
fn first(t: &[u8], n: usize) -> &[u8]
    ensures { result.now ≡ take n t.now }
{
    t.get(..n).unwrap_or(t)
}

// At the right end of so many columns, and past it rather than cut.
fn print_right(rt: &impl Print, p: Piece, width: usize) {
    spaces(rt, width.saturating_sub(p.length));
    print(rt, first(&p.bytes, p.length));
}
