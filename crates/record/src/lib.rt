// The records of a prescription file, and what a record leaves for those after it.
#![tactic(auto)]

ghost use Rattle.std.specs.Prelude.{◌≡◌};
ghost use Rattle.record.specs.Record.{text_at, with_drug, with_code, issued, begun, supplied, start as start_of, leaves as leaves_of, number_of, after as after_of};

use cells::Fault;
use counter::{DrugSerial, RpNumber, SupplementSerial};
use date::Date;
use field::Before;
use schedule::Schedule;
use supplement::Supplement;
use usage::Instruction;

// A text as its place in the file: from its first byte to the one after its last.
#[derive(Clone, Copy)]
pub struct Place {
    pub from: usize,
    pub to: usize,
}

// The date of issue.
#[derive(Clone, Copy)]
pub struct Record51 {
    pub date: Date,
}

// An RP begins: its dosage form, the form's name, its quantity.
#[derive(Clone, Copy)]
pub struct Record101 {
    pub rp: RpNumber,
    pub form: u16,
    pub name: Place,
    pub quantity: u16,
}

// Its usage. A number that may be empty is 0 then, here and below.
#[derive(Clone, Copy)]
pub struct Record111 {
    pub rp: RpNumber,
    pub kind: u16,
    pub code: Option<Instruction>,
    pub name: Place,
    pub times: u16,
}

// A supplement to it.
#[derive(Clone, Copy)]
pub struct Record181 {
    pub rp: RpNumber,
    pub serial: SupplementSerial,
    pub kind: u16,
    pub text: Place,
    pub code: Option<Supplement>,
    pub site: Place,
}

// A drug: `coding` is the code kind; its amount is in hundred-thousandths.
#[derive(Clone, Copy)]
pub struct Record201 {
    pub rp: RpNumber,
    pub serial: DrugSerial,
    pub kind: u16,
    pub coding: u16,
    pub code: Place,
    pub name: Place,
    pub amount: u64,
    pub flag: u16,
    pub unit: Place,
}

// Any other record: its number, and its fields with the commas between them.
#[derive(Clone, Copy)]
pub struct Kept {
    pub number: u16,
    pub fields: Place,
}

#[derive(Clone, Copy)]
pub enum Record {
    Issue(Record51),
    Rp(Record101),
    Usage(Record111),
    Supplement(Record181),
    Drug(Record201),
    Kept(Kept),
}

// What is wrong, one of document 01's numbers, and where in the field, of a code its character, else 0; the offset of the record's first byte (for 20 to
// 22, of the byte at fault); the field, counted from 1, or 0; for 29 the code's own number.
#[derive(Clone, Copy)]
pub struct Refusal {
    pub fault: Fault,
    pub at: usize,
    pub field: usize,
    pub code: u16,
}

// What the records before leave: for the order the last one's number, and what fields need of them.
#[derive(Clone, Copy)]
pub struct Sofar {
    pub last: u16,
    pub before: Before,
}

// What a line is read as, where the next one begins, and what the records up to it leave; after a refusal 0, and what they left before it.
#[derive(Clone, Copy)]
pub struct Line {
    pub answer: Result<Record, Refusal>,
    pub next: usize,
    pub sofar: Sofar,
}

// A line that is passed, with no record made of it: what the records up to it leave, and where the next line begins.
#[derive(Clone, Copy)]
pub struct Onward {
    pub sofar: Sofar,
    pub next: usize,
}

// A text of a record: that part of the file; nothing where the file has no such place.
pub fn text(s: &[u8], p: Place) -> &[u8]
    ensures { result.now ≡ text_at s.now p }
{
    text::at(s, &s[0..0], p.from, p.to)
}

// ---- what a record leaves

// What each kind of record leaves: the date of issue its month,
pub fn after_issue(b: Before, month: u8) -> Before
    ensures { result ≡ issued month b }
{
    let mut t = b;
    t.month = month;
    t.schedule = schedule::none();
    t
}

// an RP its number,
pub fn after_rp(b: Before, rp: RpNumber) -> Before
    ensures { result ≡ begun rp b }
{
    let drug = DrugSerial(0);
    let supplement = SupplementSerial(0);
    let mut t = b;
    t.rp = rp;
    t.drug = drug;
    t.supplement = supplement;
    t.schedule = schedule::none();
    t
}

// What is kept of the RP's supplements with one more, or with none.
fn scheduled(t: Schedule, code: Option<Supplement>) -> Schedule
    ensures { result ≡ with_code t code }
{
    match code {
        Some(x) => schedule::with(x),
        None => t,
    }
}

// A supplement leaves its serial and its code,
pub fn after_supplement(b: Before, serial: SupplementSerial, code: Option<Supplement>) -> Before
    ensures { result ≡ supplied serial code b }
{
    let before = b.schedule;
    let mut t = b;
    t.supplement = serial;
    t.schedule = scheduled(before, code);
    t
}

// a drug its serial.
pub fn after_drug(b: Before, serial: DrugSerial) -> Before
    ensures { result ≡ with_drug serial b }
{
    let mut t = b;
    t.drug = serial;
    t
}

// Before the first record.
pub fn start() -> Sofar
    ensures { result ≡ start_of }
{
    Sofar {
        last: 0,
        before: Before {
            month: 0,
            rp: RpNumber(0),
            drug: DrugSerial(0),
            supplement: SupplementSerial(0),
            schedule: schedule::none(),
        },
    }
}

// What a record leaves for the fields of those after it.
fn leaves(b: Before, r: Record) -> Before
    ensures { result ≡ leaves_of b r }
{
    match r {
        Record::Issue(x) => after_issue(b, x.date.month),
        Record::Rp(x) => after_rp(b, x.rp),
        Record::Usage(_) => b,
        Record::Supplement(x) => {
            let code = x.code;
            after_supplement(b, x.serial, code)
        }
        Record::Drug(x) => after_drug(b, x.serial),
        Record::Kept(_) => b,
    }
}

fn number(r: Record) -> u16
    ensures { result ≡ number_of r }
{
    match r {
        Record::Issue(_) => 51,
        Record::Rp(_) => 101,
        Record::Usage(_) => 111,
        Record::Supplement(_) => 181,
        Record::Drug(_) => 201,
        Record::Kept(x) => x.number,
    }
}

// What the records up to this one leave.
pub fn after(b: Before, r: Record) -> Sofar
    ensures { result ≡ after_of b r }
{
    Sofar {
        last: number(r),
        before: leaves(b, r),
    }
}
