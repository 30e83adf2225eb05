// Records as plain numbers, for callers in C: the numbers of a record in an array, and the record that any numbers are held as.
#![tactic(auto, using(cells::proofs::Tests::tests), unfolding(crate::specs::Records::usage_by, crate::specs::Records::supplement_by, crate::specs::Records::record_by))]

ghost use Rattle.std.specs.Prelude.{◌≡◌, ◌+◌, ◌-◌, ◌≤◌, length, drop, replicate};
ghost use Rattle.std.proofs.lemmas.List.Edits.{sets};
ghost use Rattle.record.specs.declared.Record.TheVariants.{Issue, Rp, Usage, Supplement as Supply, Drug, Kept as KeptRecord};
ghost use Rattle.plain_record.specs.Records.{usage_by, usage_code_of, supplement_by, supplement_code_of, numbers_of, record_numbers, place_at, record51, record101, record111, record181, record201, kept_of, record_by, record_of};
ghost use Rattle.plain_record.specs.Code.Front.{with_front};

use counter::{DrugSerial, RpNumber, SupplementSerial};
use date::Date;
use plain::{SUPPLEMENT, USAGE};
use record::{Kept, Place, Record, Record51, Record101, Record111, Record181, Record201};
use supplement::Supplement;
use usage::Instruction;

// How many numbers a record has.
pub const RECORD: usize = 40;

// As many as the longest record has that has no code. What stands after them is cleared before the record is known, they themselves where it is:
// so the compiler writes every 0 in place; all forty at once would be a call for each record.
const FRONT: usize = 13;

// Kept: a place is a usize, which std makes no u64 of by From, nor back: `as`, here and below.
fn place_at(n: &[u64], from: usize, to: usize) -> Place
    ensures { result ≡ place_at n.now from to }
{
    Place {
        from: plain::at(n, from) as usize,
        to: plain::at(n, to) as usize,
    }
}

// Clears the numbers from a place up to another.
fn clear(n: &mut [u64], from: usize, to: usize)
    requires { (from ≤ to) × (to ≤ length n.old) }
    ensures { n.new ≡ sets n.old from (replicate (to - from) 0) }
{
    n[from..to].fill(0);
}

// Puts numbers, as those of a code, from a place on.
fn put(n: &mut [u64], at: usize, s: &[u64])
    requires { at + length s.now ≤ length n.old }
    ensures { n.new ≡ sets n.old at s.now }
{
    n[at..at + s.len()].copy_from_slice(s);
}

fn put_51(x: Record51, n: &mut [u64; RECORD])
    ensures { n.new ≡ with_front (numbers_of (Issue x)) n.old }
{
    n[0] = 51;
    n[1] = u64::from(x.date.era);
    n[2] = u64::from(x.date.year);
    n[3] = u64::from(x.date.month);
    n[4] = u64::from(x.date.day);
    clear(n, 5, FRONT);
}

fn put_101(x: Record101, n: &mut [u64; RECORD])
    ensures { n.new ≡ with_front (numbers_of (Rp x)) n.old }
{
    n[0] = 101;
    n[1] = u64::from(x.rp.0);
    n[2] = u64::from(x.form);
    n[3] = x.name.from as u64;
    n[4] = x.name.to as u64;
    n[5] = u64::from(x.quantity);
    clear(n, 6, FRONT);
}

fn put_111(x: Record111, n: &mut [u64; RECORD])
    ensures { n.new ≡ with_front (numbers_of (Usage x)) n.old }
{
    n[0] = 111;
    n[1] = u64::from(x.rp.0);
    n[2] = u64::from(x.kind);
    n[3] = x.name.from as u64;
    n[4] = x.name.to as u64;
    n[5] = u64::from(x.times);
    if let Some(i) = x.code {
        let mut c = [0; USAGE];
        plain::put_usage(i, &mut c);
        put(n, 6, &c);
    } else {
        clear(n, 6, FRONT);
    }
}

fn put_181(x: Record181, n: &mut [u64; RECORD])
    ensures { n.new ≡ with_front (numbers_of (Supply x)) n.old }
{
    n[0] = 181;
    n[1] = u64::from(x.rp.0);
    n[2] = u64::from(x.serial.0);
    n[3] = u64::from(x.kind);
    n[4] = x.text.from as u64;
    n[5] = x.text.to as u64;
    n[6] = x.site.from as u64;
    n[7] = x.site.to as u64;
    if let Some(s) = x.code {
        let mut c = [0; SUPPLEMENT];
        plain::put_supplement(s, &mut c);
        put(n, 8, &c);
    } else {
        clear(n, 8, FRONT);
    }
}

fn put_201(x: Record201, n: &mut [u64; RECORD])
    ensures { n.new ≡ with_front (numbers_of (Drug x)) n.old }
{
    n[0] = 201;
    n[1] = u64::from(x.rp.0);
    n[2] = u64::from(x.serial.0);
    n[3] = u64::from(x.kind);
    n[4] = u64::from(x.coding);
    n[5] = x.code.from as u64;
    n[6] = x.code.to as u64;
    n[7] = x.name.from as u64;
    n[8] = x.name.to as u64;
    n[9] = x.amount;
    n[10] = u64::from(x.flag);
    n[11] = x.unit.from as u64;
    n[12] = x.unit.to as u64;
}

fn put_kept(x: Kept, n: &mut [u64; RECORD])
    ensures { n.new ≡ with_front (numbers_of (KeptRecord x)) n.old }
{
    n[0] = u64::from(x.number);
    n[1] = x.fields.from as u64;
    n[2] = x.fields.to as u64;
    clear(n, 3, FRONT);
}

// A record's numbers, in the caller's array: its own number, then its fields, its code last, then 0s.
pub fn put_record(r: Record, n: &mut [u64; RECORD])
    ensures { n.new ≡ record_numbers r }
{
    clear(n, FRONT, RECORD);
    match r {
        Record::Issue(x) => put_51(x, n),
        Record::Rp(x) => put_101(x, n),
        Record::Usage(x) => put_111(x, n),
        Record::Supplement(x) => put_181(x, n),
        Record::Drug(x) => put_201(x, n),
        Record::Kept(x) => put_kept(x, n),
    }
}

// A code whose first number is 0 is empty.
fn usage_code_of(n: &[u64]) -> Option<Instruction>
    ensures { result ≡ usage_code_of n.now }
{
    if plain::at(n, 0) == 0 {
        return None;
    }
    Some(plain::instruction(n))
}

fn supplement_code_of(n: &[u64]) -> Option<Supplement>
    ensures { result ≡ supplement_code_of n.now }
{
    if plain::at(n, 0) == 0 {
        return None;
    }
    Some(plain::supplement(n))
}

// What stands from a place on; nothing, where there is no such place.
fn from(n: &[u64], i: usize) -> &[u64]
    ensures { result.now ≡ drop i n.now }
{
    if i <= n.len() {
        return &n[i..];
    }
    &n[0..0]
}

fn record_51(n: &[u64]) -> Record51
    ensures { result ≡ record51 n.now }
{
    Record51 {
        date: Date {
            era: plain::byte_at(n, 1),
            year: plain::half_at(n, 2),
            month: plain::byte_at(n, 3),
            day: plain::byte_at(n, 4),
        },
    }
}

fn record_101(n: &[u64]) -> Record101
    ensures { result ≡ record101 n.now }
{
    Record101 {
        rp: RpNumber(plain::half_at(n, 1)),
        form: plain::half_at(n, 2),
        name: place_at(n, 3, 4),
        quantity: plain::half_at(n, 5),
    }
}

fn record_111(n: &[u64]) -> Record111
    ensures { result ≡ record111 n.now }
{
    Record111 {
        rp: RpNumber(plain::half_at(n, 1)),
        kind: plain::half_at(n, 2),
        code: usage_code_of(from(n, 6)),
        name: place_at(n, 3, 4),
        times: plain::half_at(n, 5),
    }
}

fn record_181(n: &[u64]) -> Record181
    ensures { result ≡ record181 n.now }
{
    Record181 {
        rp: RpNumber(plain::half_at(n, 1)),
        serial: SupplementSerial(plain::half_at(n, 2)),
        kind: plain::half_at(n, 3),
        text: place_at(n, 4, 5),
        code: supplement_code_of(from(n, 8)),
        site: place_at(n, 6, 7),
    }
}

fn record_201(n: &[u64]) -> Record201
    ensures { result ≡ record201 n.now }
{
    Record201 {
        rp: RpNumber(plain::half_at(n, 1)),
        serial: DrugSerial(plain::half_at(n, 2)),
        kind: plain::half_at(n, 3),
        coding: plain::half_at(n, 4),
        code: place_at(n, 5, 6),
        name: place_at(n, 7, 8),
        amount: plain::at(n, 9),
        flag: plain::half_at(n, 10),
        unit: place_at(n, 11, 12),
    }
}

fn kept_of(n: &[u64]) -> Kept
    ensures { result ≡ kept_of n.now }
{
    Kept {
        number: plain::half_at(n, 0),
        fields: place_at(n, 1, 2),
    }
}

// The record of a record's numbers.
pub fn record(n: &[u64]) -> Record
    ensures { result ≡ record_of n.now }
{
    match plain::at(n, 0) {
        51 => Record::Issue(record_51(n)),
        101 => Record::Rp(record_101(n)),
        111 => Record::Usage(record_111(n)),
        181 => Record::Supplement(record_181(n)),
        201 => Record::Drug(record_201(n)),
        _ => Record::Kept(kept_of(n)),
    }
}
