// A line of a prescription file as its record: the fields as what they are read as, and what the record leaves.
#![tactic(auto)]

ghost use Rattle.std.specs.Prelude.{◌≡◌, ℕ, ◌+◌, ◌≤◌, ◌<◌, List, length};
ghost use Rattle.date.specs.Date.{read_date};
ghost use Rattle.usage.specs.Usage.{read_usage};
ghost use Rattle.supplement.specs.Supplement.{read_supplement};
ghost use Rattle.number.specs.Number.{read_number};
ghost use Rattle.field.specs.Field.{context};
ghost use Rattle.row.specs.Table.{wide};
ghost use Rattle.record.specs.Record.{text_at, date_in, usage_in, supplement_in};
ghost use Rattle.record.specs.declared.Place.{Place as At};
ghost use Rattle.record_line.specs.Fields.{kept_field};
ghost use Rattle.record_line.specs.Line.{refusal as refusal_of, row_refusal, number_in, line_at, passed_of};
ghost use Rattle.record_line.specs.Code.Built.{Room, place_in, first_place, built_of, refused_line, fields_line, Heads, Leaves};

use cells::Fault;
use counter::{DrugSerial, RpNumber, SupplementSerial};
use date::Date;
use field::Before;
use record::{
    Kept, Line, Onward, Place, Record, Record51, Record101, Record111, Record181, Record201,
    Refusal, Sofar,
};
use row::Row;
use supplement::Supplement;
use usage::Instruction;

// The nth field, counted from 1, of a record that is kept; nothing where it has fewer.
pub fn kept_field(s: &[u8], k: Kept, n: usize) -> &[u8]
    ensures { result.now ≡ kept_field s.now k n }
{
    let from = k.fields.from;
    line::nth_field(s, from, n)
}

// ---- what the fields are read as

// The place of the field with k before it, one or more, of those that end there: after the comma of the field before it.
fn placed(ends: &[usize; row::WIDE], k: usize) -> Place
    requires { (1 ≤ k) × (k < wide) × Room ends.now }
    ensures { result ≡ place_in (k + 1) ends.now }
{
    Place {
        from: ends[k - 1] + 1,
        to: ends[k],
    }
}

// The place of the first field, which begins at `from`.
fn placed_first(ends: &[usize; row::WIDE], from: usize) -> Place
    ensures { result ≡ first_place from ends.now }
{
    Place {
        from: from,
        to: ends[0],
    }
}

fn date_at(s: &[u8], p: Place) -> Date
    ensures { result ≡ date_in (read_date (text_at s.now p)) }
{
    match date::read(record::text(s, p)) {
        Ok(d) => d,
        Err(_) => Date {
            era: 0,
            year: 0,
            month: 0,
            day: 0,
        },
    }
}

fn usage_at(s: &[u8], p: Place) -> Option<Instruction>
    ensures { result ≡ usage_in (read_usage (text_at s.now p)) }
{
    usage::read(record::text(s, p)).ok()
}

fn supplement_at(s: &[u8], p: Place) -> Option<Supplement>
    ensures { result ≡ supplement_in (read_supplement (text_at s.now p)) }
{
    supplement::read(record::text(s, p)).ok()
}

fn record_51(s: &[u8], from: usize, ends: &[usize; row::WIDE]) -> Record
    ensures { (ns ms : List ℕ) (to : ℕ) → result ≡ built_of 51 s.now ns ms ends.now (record { from = from; to = to }) }
{
    Record::Issue(Record51 {
        date: date_at(s, placed_first(ends, from)),
    })
}

fn record_101(numbers: &[u16; row::WIDE], ends: &[usize; row::WIDE]) -> Record
    requires { Room ends.now }
    ensures { (s ms : List ℕ) (p : At) → result ≡ built_of 101 s numbers.now ms ends.now p }
{
    Record::Rp(Record101 {
        rp: RpNumber(numbers[0]),
        form: numbers[1],
        name: placed(ends, 2),
        quantity: numbers[3],
    })
}

fn record_111(s: &[u8], numbers: &[u16; row::WIDE], ends: &[usize; row::WIDE]) -> Record
    requires { Room ends.now }
    ensures { (ms : List ℕ) (p : At) → result ≡ built_of 111 s.now numbers.now ms ends.now p }
{
    Record::Usage(Record111 {
        rp: RpNumber(numbers[0]),
        kind: numbers[1],
        code: usage_at(s, placed(ends, 2)),
        name: placed(ends, 3),
        times: numbers[4],
    })
}

fn record_181(s: &[u8], numbers: &[u16; row::WIDE], ends: &[usize; row::WIDE]) -> Record
    requires { Room ends.now }
    ensures { (ms : List ℕ) (p : At) → result ≡ built_of 181 s.now numbers.now ms ends.now p }
{
    Record::Supplement(Record181 {
        rp: RpNumber(numbers[0]),
        serial: SupplementSerial(numbers[1]),
        kind: numbers[2],
        text: placed(ends, 3),
        code: supplement_at(s, placed(ends, 4)),
        site: placed(ends, 5),
    })
}

fn record_201(
    numbers: &[u16; row::WIDE],
    amounts: &[u64; row::WIDE],
    ends: &[usize; row::WIDE],
) -> Record
    requires { Room ends.now }
    ensures { (s : List ℕ) (p : At) → result ≡ built_of 201 s numbers.now amounts.now ends.now p }
{
    Record::Drug(Record201 {
        rp: RpNumber(numbers[0]),
        serial: DrugSerial(numbers[1]),
        kind: numbers[2],
        coding: numbers[3],
        code: placed(ends, 4),
        name: placed(ends, 5),
        amount: amounts[6],
        flag: numbers[7],
        unit: placed(ends, 8),
    })
}

// The record of a number and what its fields are read as; `fields` is the place of them all, by which a kept record keeps them.
fn record_of(
    n: u16,
    s: &[u8],
    numbers: &[u16; row::WIDE],
    amounts: &[u64; row::WIDE],
    ends: &[usize; row::WIDE],
    fields: Place,
) -> Record
    requires { Room ends.now }
    ensures { result ≡ built_of n s.now numbers.now amounts.now ends.now fields }
{
    if n == 51 {
        return record_51(s, fields.from, ends);
    }
    if n == 101 {
        return record_101(numbers, ends);
    }
    if n == 111 {
        return record_111(s, numbers, ends);
    }
    if n == 181 {
        return record_181(s, numbers, ends);
    }
    if n == 201 {
        return record_201(numbers, amounts, ends);
    }
    Record::Kept(Kept {
        number: n,
        fields: fields,
    })
}

// What the record of a number and what its fields are read as leaves, told without the record; the first field begins at `from`.
fn left(
    b: Before,
    n: u16,
    s: &[u8],
    from: usize,
    numbers: &[u16; row::WIDE],
    ends: &[usize; row::WIDE],
) -> Before
    requires { Room ends.now }
    ensures { Leaves b n s.now from numbers.now ends.now result }
{
    if n == 51 {
        let date = date_at(s, placed_first(ends, from));
        return record::after_issue(b, date.month);
    }
    if n == 101 {
        return record::after_rp(b, RpNumber(numbers[0]));
    }
    if n == 181 {
        return record::after_supplement(
            b,
            SupplementSerial(numbers[1]),
            supplement_at(s, placed(ends, 4)),
        );
    }
    if n == 201 {
        return record::after_drug(b, DrugSerial(numbers[1]));
    }
    b
}

// ---- lines

// A refusal of the record at a place.
fn refused_at(number: u16, at: usize) -> Refusal
    ensures { result ≡ refusal_of number at }
{
    Refusal {
        fault: Fault {
            number: number,
            place: 0,
        },
        at: at,
        field: 0,
        code: 0,
    }
}

// A refusal of its fields.
fn refused_fields(at: usize, w: Row) -> Refusal
    ensures { result ≡ row_refusal at w }
{
    let fault = w.fault;
    Refusal {
        fault: fault,
        at: at,
        field: w.field,
        code: w.code,
    }
}

fn refused_line(c: Sofar, f: Refusal) -> Line
    ensures { result ≡ refused_line c f }
{
    Line {
        answer: Err(f),
        next: 0,
        sofar: c,
    }
}

// The record's number, 0 where it is none.
fn record_number(f: &[u8]) -> u16
    ensures { result ≡ number_in (read_number 1 999 f.now) }
{
    match number::read(f, 1, 999) {
        Ok(n) => (n % 65536) as u16,
        Err(_) => 0,
    }
}

// What a line begins with: the record's number, and where its first field begins.
#[derive(Clone, Copy)]
struct Head {
    number: u16,
    from: usize,
}

// The tests of a line before those of its fields, after a record of the number `last`: 23, 24, 32, and 25 where it has none.
fn read_head(last: u16, s: &[u8], at: usize) -> Result<Head, Refusal>
    ensures { Heads last s.now at result }
{
    if s.len() < at {
        return Err(refused_at(23, at));
    }
    let end = line::field_end(s, at);
    let n = record_number(&s[at..end]);
    if let Err(verdict) = order::follow(last, n) {
        return Err(refused_at(verdict, at));
    }
    if line::line_ends(s, end) {
        return Err(refused_at(25, at));
    }
    Ok(Head {
        number: n,
        from: end + 1,
    })
}

// The fields of the record at a place, of which the first begins at `from`, where they are right.
fn read_fields(c: Sofar, s: &[u8], at: usize, n: u16, from: usize) -> Line
    requires { from ≤ length s.now }
    ensures { result ≡ fields_line c.last (context c.before) s.now at n from }
{
    let mut numbers = [0; row::WIDE];
    let mut amounts = [0; row::WIDE];
    let mut ends = [0; row::WIDE];
    let w = row::read(c.before, s, n, from, &mut numbers, &mut amounts, &mut ends);
    if w.fault.number != 0 {
        return refused_line(c, refused_fields(at, w));
    }
    let fields = Place {
        from: from,
        to: w.after - 1,
    };
    let r = record_of(n, s, &numbers, &amounts, &ends, fields);
    Line {
        answer: Ok(r),
        next: w.after + 1,
        sofar: record::after(c.before, r),
    }
}

// Reads the line at a place of the file, after what the records before leave.
pub fn read(c: Sofar, s: &[u8], at: usize) -> Line
    ensures { result ≡ line_at c.last (context c.before) s.now at }
{
    match read_head(c.last, s, at) {
        Ok(h) => read_fields(c, s, at, h.number, h.from),
        Err(f) => refused_line(c, f),
    }
}

fn pass_fields(c: Sofar, s: &[u8], at: usize, n: u16, from: usize) -> Result<Onward, Refusal>
    requires { from ≤ length s.now }
    ensures { result ≡ passed_of (fields_line c.last (context c.before) s.now at n from) }
{
    let mut numbers = [0; row::WIDE];
    let mut amounts = [0; row::WIDE];
    let mut ends = [0; row::WIDE];
    let w = row::read(c.before, s, n, from, &mut numbers, &mut amounts, &mut ends);
    if w.fault.number != 0 {
        return Err(refused_fields(at, w));
    }
    Ok(Onward {
        sofar: Sofar {
            last: n,
            before: left(c.before, n, s, from, &numbers, &ends),
        },
        next: w.after + 1,
    })
}

// Passes the line at a place of the file: what reading it and its record leave.
pub fn pass(c: Sofar, s: &[u8], at: usize) -> Result<Onward, Refusal>
    ensures { result ≡ passed_of (line_at c.last (context c.before) s.now at) }
{
    let h = read_head(c.last, s, at)?;
    pass_fields(c, s, at, h.number, h.from)
}
