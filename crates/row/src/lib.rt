// The fields of a record, by document 01's table: how many they are, what each must be, and what each is read as.
#![tactic(auto)]

ghost use Rattle.std.specs.Prelude.{◌≡◌, true, ◌≤◌, length};
ghost use Rattle.line.specs.Fields.{nth, fields_at, line_ends};
ghost use Rattle.cells.specs.Text.{bytes};
ghost use Rattle.cells.specs.Same.{eqs};
ghost use Rattle.field.specs.Field.{context, rule as rule_of};
ghost use Rattle.row.specs.Table.{mark as mark_of, wide, table_of, rules51, rules101, rules111, rules181, rules201, kind_field, code_field, rules_from, rules_of, kept_rule, typed as typed_of};
ghost use Rattle.row.specs.Row.{refused_at, miscounted as miscounted_row, fine as fine_row, read_row, zeros, numbers_of, amounts_of, ends_of};
ghost use Rattle.row.specs.Code.Walk.{need_with, drug_need, name_need_of, width_of, cut_count, cut_ends, marks, row_from, kept_from, Walked, Filled};

use cells::Fault;
use field::{Before, Field, Rule};

// A row has room for as many fields: the length of its arrays.
pub const WIDE: usize = 12;

// What is wrong, and in which field, counted from 1 (0 for 25), for 29 with the code's own number; the number 0 where nothing is, and the place after
// the CR that ends the fields.
#[derive(Clone, Copy)]
pub struct Row {
    pub fault: Fault,
    pub field: usize,
    pub code: u16,
    pub after: usize,
}

// The rules of a record's fields, as many as it has.
#[derive(Clone, Copy)]
pub struct Rules {
    pub count: usize,
    pub each: [Rule; WIDE],
}

fn rule(need: u8, form: u8, lo: u16, hi: u16) -> Rule
    ensures { result ≡ rule_of need form lo hi }
{
    Rule {
        need: need,
        form: form,
        lo: lo,
        hi: hi,
    }
}

// ---- the table

fn table_51() -> Rules
    ensures { result ≡ table_of rules51 }
{
    let unused = rule(0, 0, 0, 0);
    Rules {
        count: 1,
        each: [
            rule(field::REQUIRED, field::DATE, 0, 0),
            unused,
            unused,
            unused,
            unused,
            unused,
            unused,
            unused,
            unused,
            unused,
            unused,
            unused,
        ],
    }
}

fn table_101() -> Rules
    ensures { result ≡ table_of rules101 }
{
    let unused = rule(0, 0, 0, 0);
    Rules {
        count: 4,
        each: [
            rule(field::REQUIRED, field::NEW_RP, 1, 999),
            rule(field::REQUIRED, field::NUMBER, 1, 99),
            rule(field::FREE, field::TEXT, 0, 80),
            rule(field::REQUIRED, field::NUMBER, 1, 999),
            unused,
            unused,
            unused,
            unused,
            unused,
            unused,
            unused,
            unused,
        ],
    }
}

fn table_111(code: u8) -> Rules
    ensures { result ≡ table_of (rules111 code) }
{
    let unused = rule(0, 0, 0, 0);
    Rules {
        count: 5,
        each: [
            rule(field::REQUIRED, field::OWN_RP, 1, 999),
            rule(field::REQUIRED, field::NUMBER, 1, 2),
            rule(code, field::USAGE_CODE, 0, 0),
            rule(field::REQUIRED, field::TEXT, 0, 80),
            rule(field::FREE, field::NUMBER, 1, 99),
            unused,
            unused,
            unused,
            unused,
            unused,
            unused,
            unused,
        ],
    }
}

fn table_181(code: u8, site: u8) -> Rules
    ensures { result ≡ table_of (rules181 code site) }
{
    let unused = rule(0, 0, 0, 0);
    Rules {
        count: 6,
        each: [
            rule(field::REQUIRED, field::OWN_RP, 1, 999),
            rule(field::REQUIRED, field::SUPPLEMENT_SERIAL, 1, 99),
            rule(field::FREE, field::NUMBER, 1, 99),
            rule(field::REQUIRED, field::TEXT, 0, 100),
            rule(code, field::SUPPLEMENT_CODE, 0, 0),
            rule(site, field::SITE, 0, 0),
            unused,
            unused,
            unused,
            unused,
            unused,
            unused,
        ],
    }
}

fn table_201(code: u8, name: u8) -> Rules
    ensures { result ≡ table_of (rules201 code name) }
{
    let unused = rule(0, 0, 0, 0);
    Rules {
        count: 9,
        each: [
            rule(field::REQUIRED, field::OWN_RP, 1, 999),
            rule(field::REQUIRED, field::DRUG_SERIAL, 1, 99),
            rule(field::FREE, field::NUMBER, 1, 3),
            rule(field::REQUIRED, field::CODE_KIND, 1, 7),
            rule(code, field::DRUG_CODE, 0, 13),
            rule(name, field::TEXT, 0, 80),
            rule(field::REQUIRED, field::AMOUNT, 0, 0),
            rule(field::REQUIRED, field::NUMBER, 1, 2),
            rule(field::REQUIRED, field::TEXT, 0, 12),
            unused,
            unused,
            unused,
        ],
    }
}

// Required with the kind of this character, else forbidden.
fn need_with(named: u8, kind: u8) -> u8
    ensures { result ≡ need_with named kind }
{
    if kind == named {
        return field::REQUIRED;
    }
    field::FORBIDDEN
}

// Empty for code kind 1, free for 7, else required.
fn drug_code_need(kind: u8) -> u8
    ensures { result ≡ drug_need kind }
{
    if kind == b'1' {
        return field::FORBIDDEN;
    }
    if kind == b'7' {
        return field::FREE;
    }
    field::REQUIRED
}

// The name may be empty only for code kind 2, and not for the code that names no listed drug.
fn name_need(kind: u8, unlisted: bool) -> u8
    ensures { result ≡ name_need_of kind unlisted }
{
    if unlisted {
        return field::REQUIRED;
    }
    if kind == b'2' {
        return field::FREE;
    }
    field::REQUIRED
}

// The one character of a field, 0 where it has not one.
fn mark(f: &[u8]) -> u8
    ensures { result ≡ mark_of f.now }
{
    match f {
        [c] => *c,
        _ => 0,
    }
}

// The code 777770000, which names no listed drug.
fn is_unlisted(f: &[u8]) -> bool
    ensures { result ≡ eqs f.now (bytes "777770000") }
{
    f == b"777770000".as_slice()
}

// ---- the fields of a line

// Parts the line at a place, in one pass: how many its fields are, one more than a row has room for where they are more; and where those
// end that it has room for, into an array.
fn part_line(s: &[u8], at: usize, ends: &mut [usize; WIDE]) -> usize
    requires { at ≤ length s.now }
    ensures { (result ≡ cut_count 0 (fields_at s.now at)) × (ends.new ≡ cut_ends 0 at (fields_at s.now at) ends.old) }
{
    let mut from = at;
    for k in 0..WIDE {
        let end = line::field_end(s, from);
        ends[k] = end;
        if line::line_ends(s, end) {
            return k + 1;
        }
        from = end + 1;
    }
    WIDE + 1
}

// The nth field, counted from 1, of those that end there.
fn cut_field<'a>(s: &'a [u8], at: usize, ends: &[usize; WIDE], n: usize) -> &'a [u8]
    requires { (at ≤ length s.now) × (1 ≤ n) × (n ≤ length (fields_at s.now at)) × (n ≤ wide) × (marks ends.now 0 at (fields_at s.now at) ≡ true) }
    ensures { result.now ≡ nth n (fields_at s.now at) }
{
    let to = ends[n - 1];
    if n == 1 {
        return &s[at..to];
    }
    let from = ends[n - 2] + 1;
    &s[from..to]
}

fn table_of_usage(kind: u8) -> Rules
    ensures { result ≡ table_of (rules111 (need_with 50 kind)) }
{
    table_111(need_with(b'2', kind))
}

fn table_of_supplement(kind: u8) -> Rules
    ensures { result ≡ table_of (rules181 (need_with 56 kind) (need_with 57 kind)) }
{
    table_181(need_with(b'8', kind), need_with(b'9', kind))
}

fn table_of_drug(kind: u8, unlisted: bool) -> Rules
    ensures { result ≡ table_of (rules201 (drug_need kind) (name_need_of kind unlisted)) }
{
    table_201(drug_code_need(kind), name_need(kind, unlisted))
}

// The rules of a typed record, which for some fields go by its kind and its drug code.
pub fn rules_of(n: u16, kind: &[u8], code: &[u8]) -> Rules
    ensures { result ≡ table_of (rules_from n kind.now code.now) }
{
    if n == 51 {
        return table_51();
    }
    if n == 101 {
        return table_101();
    }
    if n == 111 {
        return table_of_usage(mark(kind));
    }
    if n == 181 {
        return table_of_supplement(mark(kind));
    }
    table_of_drug(mark(kind), is_unlisted(code))
}

// The field, counted from 1, that holds the kind by which others go.
pub fn kind_field(n: u16) -> usize
    ensures { result ≡ kind_field n }
{
    if n == 111 {
        return 2;
    }
    if n == 181 {
        return 3;
    }
    if n == 201 {
        return 4;
    }
    1
}

// The field that holds the drug code.
pub fn code_field(n: u16) -> usize
    ensures { result ≡ code_field n }
{
    if n == 201 {
        return 5;
    }
    1
}

// How many fields a typed record has.
fn width(n: u16) -> usize
    ensures { result ≡ width_of n }
{
    if n == 51 {
        return 1;
    }
    if n == 101 {
        return 4;
    }
    if n == 111 {
        return 5;
    }
    if n == 181 {
        return 6;
    }
    9
}

// The rules of the typed record whose fields stand at a place, as many as it has, and end there.
fn table(n: u16, s: &[u8], at: usize, ends: &[usize; WIDE]) -> Rules
    requires { (at ≤ length s.now) × (length (fields_at s.now at) ≡ width_of n) × (marks ends.now 0 at (fields_at s.now at) ≡ true) }
    ensures { result ≡ table_of (rules_of n (fields_at s.now at)) }
{
    rules_of(
        n,
        cut_field(s, at, ends, kind_field(n)),
        cut_field(s, at, ends, code_field(n)),
    )
}

// The rule of each field of a record that is kept.
pub fn kept_rule() -> Rule
    ensures { result ≡ kept_rule }
{
    rule(field::FREE, field::TEXT, 0, 200)
}

// Is a record of this number one of the table's?
pub fn typed(n: u16) -> bool
    ensures { result ≡ typed_of n }
{
    (n == 51) | ((n == 101) | ((n == 111) | ((n == 181) | (n == 201))))
}

// A refusal at a field.
fn refused(field: usize, f: Field) -> Row
    ensures { result ≡ refused_at field f }
{
    let fault = f.fault;
    Row {
        fault: fault,
        field: field,
        code: f.code,
        after: 0,
    }
}

// 25.
fn miscounted() -> Row
    ensures { result ≡ miscounted_row }
{
    Row {
        fault: Fault {
            number: 25,
            place: 0,
        },
        field: 0,
        code: 0,
        after: 0,
    }
}

// No refusal.
fn fine(after: usize) -> Row
    ensures { result ≡ fine_row after }
{
    Row {
        fault: Fault {
            number: 0,
            place: 0,
        },
        field: 0,
        code: 0,
        after: after,
    }
}

// Field by field, by the rules of a typed record; what the fields are read as goes into two arrays.
fn read_typed(
    b: Before,
    s: &[u8],
    at: usize,
    t: Rules,
    numbers: &mut [u16; WIDE],
    amounts: &mut [u64; WIDE],
    ends: &[usize; WIDE],
) -> Row
    requires { (at ≤ length s.now) × (t.count ≤ wide) × (length (fields_at s.now at) ≡ t.count) × (marks ends.now 0 at (fields_at s.now at) ≡ true) }
    ensures { (result ≡ row_from (context b) 0 at t.each (fields_at s.now at)) × Walked result t.each (fields_at s.now at) numbers.old amounts.old numbers.new amounts.new }
{
    let mut from = at;
    for i in 0..t.count {
        let to = ends[i];
        let f = field::read(b, t.each[i], &s[from..to]);
        if f.fault.number != 0 {
            return refused(i + 1, f);
        }
        numbers[i] = f.n;
        amounts[i] = f.amount;
        from = to + 1;
    }
    fine(from)
}

// Field by field, texts of at most 200 bytes.
fn read_kept(b: Before, s: &[u8], at: usize) -> Row
    requires { at ≤ length s.now }
    ensures { result ≡ kept_from (context b) 1 at (fields_at s.now at) }
{
    let mut from = at;
    let mut i: usize = 1;
    loop {
        let to = line::field_end(s, from);
        let f = field::read(b, kept_rule(), &s[from..to]);
        if f.fault.number != 0 {
            return refused(i, f);
        }
        if line::line_ends(s, to) {
            return fine(to + 1);
        }
        from = to + 1;
        i += 1;
    }
}

// A typed record that has as many fields as its table. The arrays come as zeros, and say nothing of a record that is refused.
fn read_counted(
    b: Before,
    s: &[u8],
    n: u16,
    at: usize,
    numbers: &mut [u16; WIDE],
    amounts: &mut [u64; WIDE],
    ends: &mut [usize; WIDE],
) -> Row
    requires { (at ≤ length s.now) × (typed_of n ≡ true) × (numbers.old ≡ zeros) × (amounts.old ≡ zeros) × (ends.old ≡ zeros) }
    ensures { (result ≡ read_row (context b) n at (fields_at s.now at)) × Filled n at (fields_at s.now at) result numbers.new amounts.new ends.new }
{
    if part_line(s, at, ends) != width(n) {
        return miscounted();
    }
    let t = table(n, s, at, ends);
    read_typed(b, s, at, t, numbers, amounts, ends)
}

// Reads the fields at a place of the file, of a record of this number. Three arrays take, of a typed record that is not refused, each field's
// number, its amount, and the place of the comma or CR after it, with zeros after the last field; of any other they stay as they were.
pub fn read(
    b: Before,
    s: &[u8],
    n: u16,
    at: usize,
    numbers: &mut [u16; WIDE],
    amounts: &mut [u64; WIDE],
    ends: &mut [usize; WIDE],
) -> Row
    ensures { (result ≡ read_row (context b) n at (fields_at s.now at)) × (numbers.new ≡ numbers_of n result (fields_at s.now at) numbers.old) × (amounts.new ≡ amounts_of n result (fields_at s.now at) amounts.old) × (ends.new ≡ ends_of n result at (fields_at s.now at) ends.old) }
{
    if s.len() < at {
        return miscounted();
    }
    if !typed(n) {
        return read_kept(b, s, at);
    }
    let numbers_before = *numbers;
    let amounts_before = *amounts;
    let ends_before = *ends;
    *numbers = [0; WIDE];
    *amounts = [0; WIDE];
    *ends = [0; WIDE];
    let w = read_counted(b, s, n, at, numbers, amounts, ends);
    if w.fault.number != 0 {
        *numbers = numbers_before;
        *amounts = amounts_before;
        *ends = ends_before;
    }
    w
}
