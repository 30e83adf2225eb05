// One field of a record: whether it may be empty, what form it must have, and what it is read as.
#![tactic(auto)]

ghost use Rattle.std.specs.Prelude.{◌<◌, ◌≤◌, ◌≡◌};
ghost use Rattle.cells.specs.Text.{among};
ghost use Rattle.cells.specs.Test.{fault};
ghost use Rattle.number.specs.Amount.{read_amount};
ghost use Rattle.date.specs.Date.{read_date};
ghost use Rattle.usage.specs.Usage.{read_usage};
ghost use Rattle.supplement.specs.Supplement.{read_supplement};
ghost use Rattle.schedule.specs.Kept.{may_join};
ghost use Rattle.field.specs.Field.{Context, context, is_drug_code, is_site, ordered as ordered_of, refused_with, read_field};
ghost use Rattle.field.specs.Code.Read.{usage_field, supplement_field, code_field, formed_if, date_field, amount_field, read_filled};

use cells::Fault;
use counter::{DrugSerial, RpNumber, SupplementSerial};
use schedule::Schedule;

// Whether a field may be empty.
pub const FREE: u8 = 0;

pub const REQUIRED: u8 = 1;

pub const FORBIDDEN: u8 = 2;

// The forms of the fields; those from NUMBER on are numbers.
pub const TEXT: u8 = 0;

pub const DRUG_CODE: u8 = 1;

pub const DATE: u8 = 2;

pub const SITE: u8 = 3;

pub const USAGE_CODE: u8 = 4;

pub const SUPPLEMENT_CODE: u8 = 5;

pub const AMOUNT: u8 = 6;

pub const NUMBER: u8 = 7;

pub const CODE_KIND: u8 = 8;

pub const NEW_RP: u8 = 9;

pub const OWN_RP: u8 = 10;

pub const DRUG_SERIAL: u8 = 11;

pub const SUPPLEMENT_SERIAL: u8 = 12;

// What a record's table says of a field: may it be empty, its form, and the bounds of its number, or in `hi` its byte maximum.
#[derive(Clone, Copy)]
pub struct Rule {
    pub need: u8,
    pub form: u8,
    pub lo: u16,
    pub hi: u16,
}

// What the records before leave for a field: the month of record 51, the RP's number, its last serials and its supplements.
#[derive(Clone, Copy)]
pub struct Before {
    pub month: u8,
    pub rp: RpNumber,
    pub drug: DrugSerial,
    pub supplement: SupplementSerial,
    pub schedule: Schedule,
}

// What is wrong, the number 0 and what is read where nothing is; the fault's place is where in the field, of a code its character. `code` is for 29
// the code's own number.
#[derive(Clone, Copy)]
pub struct Field {
    pub fault: Fault,
    pub code: u16,
    pub n: u16,
    pub amount: u64,
}

// A digit or a capital.
fn capital(b: u8) -> bool
    ensures { result ≡ among "0123456789ABCDEFGHIJKLMNOPQRSTUVWXYZ" b }
{
    ((b'0' <= b) & (b <= b'9')) | ((b'A' <= b) & (b <= b'Z'))
}

// A digit, a letter of either case, point or hyphen.
fn drug_character(b: u8) -> bool
    ensures { result ≡ among "0123456789ABCDEFGHIJKLMNOPQRSTUVWXYZabcdefghijklmnopqrstuvwxyz.-" b }
{
    capital(b) | ((b'a' <= b) & (b <= b'z')) | (b == b'.') | (b == b'-')
}

fn is_drug_code(f: &[u8]) -> bool
    ensures { result ≡ is_drug_code f.now }
{
    let mut i: usize = 0;
    while i < f.len() {
        if drug_character(f[i]) {
            i += 1;
        } else {
            return false;
        }
    }
    true
}

fn is_site(f: &[u8]) -> bool
    ensures { result ≡ is_site f.now }
{
    if f.len() != 3 {
        return false;
    }
    capital(f[0]) & capital(f[1]) & capital(f[2])
}

// An RP number or a serial is as ordered.
pub fn ordered(b: Before, r: Rule, n: u16) -> bool
    ensures { result ≡ ordered_of b r n }
{
    if r.form == NEW_RP {
        return b.rp.rises(RpNumber(n));
    }
    if r.form == OWN_RP {
        return b.rp.carries(RpNumber(n));
    }
    if r.form == DRUG_SERIAL {
        return b.drug.next_drug(DrugSerial(n));
    }
    if r.form == SUPPLEMENT_SERIAL {
        return b.supplement.next_supplement(SupplementSerial(n));
    }
    true
}

// A field that is refused, or has nothing wrong and no number.
fn refused(number: u16, place: usize, code: u16) -> Field
    ensures { result ≡ refused_with (fault number place) code }
{
    Field {
        fault: Fault {
            number: number,
            place: place,
        },
        code: code,
        n: 0,
        amount: 0,
    }
}

fn read_usage(f: &[u8]) -> Field
    ensures { result ≡ usage_field (read_usage f.now) }
{
    match usage::read(f) {
        Ok(_) => refused(0, 0, 0),
        Err(x) => refused(29, x.place, x.number),
    }
}

// A supplement that is taken must stand well after those before it in its RP.
fn read_supplement(b: Before, f: &[u8]) -> Field
    ensures { result ≡ supplement_field (may_join b.month b.schedule) (read_supplement f.now) }
{
    let month = b.month;
    let before = b.schedule;
    match supplement::read(f) {
        Ok(x) => {
            if schedule::joins(month, before, x) {
                return refused(0, 0, 0);
            }
            refused(31, 0, 0)
        }
        Err(x) => refused(29, x.place, x.number),
    }
}

// A usage code, or else a supplementary code.
fn read_code(b: Before, r: Rule, f: &[u8]) -> Field
    ensures { result ≡ code_field (may_join b.month b.schedule) r f.now }
{
    if r.form == USAGE_CODE {
        return read_usage(f);
    }
    read_supplement(b, f)
}

// A number: in its range, a code kind not 5, and an RP number or a serial as ordered.
fn read_number(b: Before, r: Rule, f: &[u8]) -> Field
    requires { 7 ≤ r.form }
    ensures { result ≡ read_filled (context b) r f.now }
{
    match number::read(f, r.lo, r.hi) {
        Ok(m) => {
            let n = (m % 65536) as u16;
            if (r.form == CODE_KIND) & (n == 5) {
                return refused(27, 0, 0); // "code kind 1 2 3 4 6 7"
            }
            if !ordered(b, r, n) {
                return refused(30, 0, 0);
            }
            Field {
                fault: Fault {
                    number: 0,
                    place: 0,
                },
                code: 0,
                n: n,
                amount: 0,
            }
        }
        Err(x) => refused(x.number, x.place, 0),
    }
}

// A field with no reader of its own, by whether it is of its form.
fn formed(ok: bool) -> Field
    ensures { result ≡ formed_if ok }
{
    if ok {
        return refused(0, 0, 0);
    }
    refused(27, 0, 0)
}

// A text or a drug code is well formed and within its byte maximum.
fn read_text(r: Rule, f: &[u8]) -> Field
    requires { r.form ≤ 1 }
    ensures { (c : Context) → result ≡ read_filled c r f.now }
{
    if !text::is_text(f, r.hi as usize) {
        return refused(26, 0, 0);
    }
    if r.form == TEXT {
        return refused(0, 0, 0);
    }
    formed(is_drug_code(f))
}

// An amount, in hundred-thousandths.
fn read_amount(f: &[u8]) -> Field
    ensures { result ≡ amount_field (read_amount f.now) }
{
    match number::read_amount(f) {
        Ok(n) => Field {
            fault: Fault {
                number: 0,
                place: 0,
            },
            code: 0,
            n: 0,
            amount: n,
        },
        Err(x) => refused(x.number, x.place, 0),
    }
}

fn read_date(f: &[u8]) -> Field
    ensures { result ≡ date_field (read_date f.now) }
{
    match date::read(f) {
        Ok(_) => refused(0, 0, 0),
        Err(x) => refused(x.number, x.place, 0),
    }
}

// A date, a site, an amount or a code.
fn read_other(b: Before, r: Rule, f: &[u8]) -> Field
    requires { (1 < r.form) × (r.form < 7) }
    ensures { result ≡ read_filled (context b) r f.now }
{
    if r.form == AMOUNT {
        return read_amount(f);
    }
    if r.form == DATE {
        return read_date(f);
    }
    if r.form == SITE {
        return formed(is_site(f));
    }
    read_code(b, r, f)
}

// A field that is filled and may be.
fn read_filled(b: Before, r: Rule, f: &[u8]) -> Field
    ensures { result ≡ read_filled (context b) r f.now }
{
    if NUMBER <= r.form {
        return read_number(b, r, f);
    }
    if r.form <= DRUG_CODE {
        return read_text(r, f);
    }
    read_other(b, r, f)
}

// Reads a field by its rule, after what the records before leave.
pub fn read(b: Before, r: Rule, f: &[u8]) -> Field
    ensures { result ≡ read_field (context b) r f.now }
{
    if f.len() == 0 {
        if r.need == REQUIRED {
            return refused(28, 0, 0);
        }
        return refused(0, 0, 0); // nothing is wrong with it, and it has no number
    }
    if r.need == FORBIDDEN {
        return refused(28, 0, 0);
    }
    read_filled(b, r, f)
}
