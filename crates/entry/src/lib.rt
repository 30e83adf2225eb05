// A record as the parts of the line that it is written as, and what the reader would say of it.
#![tactic(auto)]

ghost use Rattle.std.specs.Prelude.{◌≡◌, [], ◌≤◌, length};
ghost use Rattle.text.specs.Lent.{no_field, text_or};
ghost use Rattle.laid.specs.Laid.{laid};
ghost use Rattle.printed.specs.Printed.{piece};
ghost use Rattle.field.specs.Field.{context, read_field};
ghost use Rattle.line.specs.Fields.{split};
ghost use Rattle.record.specs.declared.Record.TheVariants.{Issue, Rp, Usage, Supplement as Supply, Drug, Kept as KeptRecord};
ghost use Rattle.held.specs.Held.{usage_value, supplement_value, print};
ghost use Rattle.entry.specs.Entry.{kind_of, optional_part, parts_of, entry_of};
ghost use Rattle.entry.specs.Code.Judge.{kept_number, kind_mark, table_by, number_wrong, part_wrong, wrong_typed, comma_from, texts_wrong, wrong_in};

use field::{Before, Rule};
use laid::{NUMBER, OWN, PARTS, TEXT};
use printed::Piece;
use record::{Kept, Record, Record51, Record101, Record111, Record181, Record201, Sofar};
use row::Rules;
use supplement::Supplement;
use usage::Instruction;

// The number with which the reader would refuse a record, 0 where it takes it; and how many parts its line has.
#[derive(Clone, Copy)]
pub struct Entered {
    pub wrong: u16,
    pub count: usize,
}

// ---- the parts

// No character.
fn empty() -> Piece
    ensures { result ≡ piece [] }
{
    Piece {
        length: 0,
        bytes: [0; 24],
    }
}

// What a number is that is empty where it is 0: then a text of no byte.
fn optional(n: u16) -> u8
    ensures { result ≡ kind_of (optional_part n) }
{
    if n == 0 {
        return TEXT;
    }
    NUMBER
}

fn usage_code(code: Option<Instruction>) -> Piece
    ensures { result ≡ piece (print (usage_value code)) }
{
    match code {
        Some(i) => printed::usage(i),
        None => empty(),
    }
}

fn supplement_code(code: Option<Supplement>) -> Piece
    ensures { result ≡ piece (print (supplement_value code)) }
{
    match code {
        Some(x) => printed::supplement(x),
        None => empty(),
    }
}

fn parts_51(
    x: Record51,
    kinds: &mut [u8; PARTS],
    numbers: &mut [u16; PARTS],
    from: &mut [usize; PARTS],
    to: &mut [usize; PARTS],
    own: &mut [u8; 24],
) -> usize
    ensures { record { count = result; kinds = kinds.new; numbers = numbers.new; from = from.new; to = to.new; own = own.new } ≡ parts_of (Issue x) }
{
    let piece = printed::day(x.date);
    let bytes = piece.bytes;
    *own = bytes;
    *kinds = [NUMBER, OWN, 0, 0, 0, 0, 0, 0, 0, 0, 0, 0, 0];
    *numbers = [51, 0, 0, 0, 0, 0, 0, 0, 0, 0, 0, 0, 0];
    *from = [0; PARTS];
    *to = [0, piece.length, 0, 0, 0, 0, 0, 0, 0, 0, 0, 0, 0];
    2
}

fn parts_101(
    x: Record101,
    kinds: &mut [u8; PARTS],
    numbers: &mut [u16; PARTS],
    from: &mut [usize; PARTS],
    to: &mut [usize; PARTS],
    own: &mut [u8; 24],
) -> usize
    ensures { record { count = result; kinds = kinds.new; numbers = numbers.new; from = from.new; to = to.new; own = own.new } ≡ parts_of (Rp x) }
{
    *kinds = [NUMBER, NUMBER, NUMBER, TEXT, NUMBER, 0, 0, 0, 0, 0, 0, 0, 0];
    *numbers = [101, x.rp.0, x.form, 0, x.quantity, 0, 0, 0, 0, 0, 0, 0, 0];
    *from = [0, 0, 0, x.name.from, 0, 0, 0, 0, 0, 0, 0, 0, 0];
    *to = [0, 0, 0, x.name.to, 0, 0, 0, 0, 0, 0, 0, 0, 0];
    *own = [0; 24];
    5
}

fn parts_111(
    x: Record111,
    kinds: &mut [u8; PARTS],
    numbers: &mut [u16; PARTS],
    from: &mut [usize; PARTS],
    to: &mut [usize; PARTS],
    own: &mut [u8; 24],
) -> usize
    ensures { record { count = result; kinds = kinds.new; numbers = numbers.new; from = from.new; to = to.new; own = own.new } ≡ parts_of (Usage x) }
{
    let code = x.code;
    let piece = usage_code(code);
    let bytes = piece.bytes;
    *own = bytes;
    *kinds = [
        NUMBER,
        NUMBER,
        NUMBER,
        OWN,
        TEXT,
        optional(x.times),
        0,
        0,
        0,
        0,
        0,
        0,
        0,
    ];
    *numbers = [111, x.rp.0, x.kind, 0, 0, x.times, 0, 0, 0, 0, 0, 0, 0];
    *from = [0, 0, 0, 0, x.name.from, 0, 0, 0, 0, 0, 0, 0, 0];
    *to = [0, 0, 0, piece.length, x.name.to, 0, 0, 0, 0, 0, 0, 0, 0];
    6
}

fn parts_181(
    x: Record181,
    kinds: &mut [u8; PARTS],
    numbers: &mut [u16; PARTS],
    from: &mut [usize; PARTS],
    to: &mut [usize; PARTS],
    own: &mut [u8; 24],
) -> usize
    ensures { record { count = result; kinds = kinds.new; numbers = numbers.new; from = from.new; to = to.new; own = own.new } ≡ parts_of (Supply x) }
{
    let code = x.code;
    let piece = supplement_code(code);
    let bytes = piece.bytes;
    *own = bytes;
    *kinds = [
        NUMBER,
        NUMBER,
        NUMBER,
        optional(x.kind),
        TEXT,
        OWN,
        TEXT,
        0,
        0,
        0,
        0,
        0,
        0,
    ];
    *numbers = [181, x.rp.0, x.serial.0, x.kind, 0, 0, 0, 0, 0, 0, 0, 0, 0];
    *from = [0, 0, 0, 0, x.text.from, 0, x.site.from, 0, 0, 0, 0, 0, 0];
    *to = [
        0,
        0,
        0,
        0,
        x.text.to,
        piece.length,
        x.site.to,
        0,
        0,
        0,
        0,
        0,
        0,
    ];
    7
}

fn parts_201(
    x: Record201,
    kinds: &mut [u8; PARTS],
    numbers: &mut [u16; PARTS],
    from: &mut [usize; PARTS],
    to: &mut [usize; PARTS],
    own: &mut [u8; 24],
) -> usize
    ensures { record { count = result; kinds = kinds.new; numbers = numbers.new; from = from.new; to = to.new; own = own.new } ≡ parts_of (Drug x) }
{
    let piece = printed::amount(x.amount);
    let bytes = piece.bytes;
    *own = bytes;
    *kinds = [
        NUMBER,
        NUMBER,
        NUMBER,
        optional(x.kind),
        NUMBER,
        TEXT,
        TEXT,
        OWN,
        NUMBER,
        TEXT,
        0,
        0,
        0,
    ];
    *numbers = [
        201, x.rp.0, x.serial.0, x.kind, x.coding, 0, 0, 0, x.flag, 0, 0, 0, 0,
    ];
    *from = [
        0,
        0,
        0,
        0,
        0,
        x.code.from,
        x.name.from,
        0,
        0,
        x.unit.from,
        0,
        0,
        0,
    ];
    *to = [
        0,
        0,
        0,
        0,
        0,
        x.code.to,
        x.name.to,
        piece.length,
        0,
        x.unit.to,
        0,
        0,
        0,
    ];
    10
}

// A kept record's number is none of the table's; such a one is no record's number to it.
fn kept_number(n: u16) -> u16
    ensures { result ≡ kept_number n }
{
    if row::typed(n) {
        return 0;
    }
    n
}

// Its fields are one part, with the commas between them.
fn parts_kept(
    x: Kept,
    kinds: &mut [u8; PARTS],
    numbers: &mut [u16; PARTS],
    from: &mut [usize; PARTS],
    to: &mut [usize; PARTS],
    own: &mut [u8; 24],
) -> usize
    ensures { record { count = result; kinds = kinds.new; numbers = numbers.new; from = from.new; to = to.new; own = own.new } ≡ parts_of (KeptRecord x) }
{
    *kinds = [NUMBER, TEXT, 0, 0, 0, 0, 0, 0, 0, 0, 0, 0, 0];
    *numbers = [kept_number(x.number), 0, 0, 0, 0, 0, 0, 0, 0, 0, 0, 0, 0];
    *from = [0, x.fields.from, 0, 0, 0, 0, 0, 0, 0, 0, 0, 0, 0];
    *to = [0, x.fields.to, 0, 0, 0, 0, 0, 0, 0, 0, 0, 0, 0];
    *own = [0; 24];
    2
}

// The parts of a record's line, filled where the record is known, and how many they are.
fn parts(
    r: Record,
    kinds: &mut [u8; PARTS],
    numbers: &mut [u16; PARTS],
    from: &mut [usize; PARTS],
    to: &mut [usize; PARTS],
    own: &mut [u8; 24],
) -> usize
    ensures { record { count = result; kinds = kinds.new; numbers = numbers.new; from = from.new; to = to.new; own = own.new } ≡ parts_of r }
{
    match r {
        Record::Issue(x) => parts_51(x, kinds, numbers, from, to, own),
        Record::Rp(x) => parts_101(x, kinds, numbers, from, to, own),
        Record::Usage(x) => parts_111(x, kinds, numbers, from, to, own),
        Record::Supplement(x) => parts_181(x, kinds, numbers, from, to, own),
        Record::Drug(x) => parts_201(x, kinds, numbers, from, to, own),
        Record::Kept(x) => parts_kept(x, kinds, numbers, from, to, own),
    }
}

// ---- what the reader would say

// What is wrong with a number: it is judged as it is held, without its digits.
fn wrong_number(b: Before, r: Rule, n: u16) -> u16
    ensures { result ≡ number_wrong b r n }
{
    if (r.lo <= n) & (n <= r.hi) & !((r.form == field::CODE_KIND) & (n == 5)) {
        if field::ordered(b, r, n) {
            return 0;
        }
        return 30;
    }
    27
}

// What is wrong with a text in the lent bytes.
fn wrong_place(b: Before, r: Rule, lent: &[u8], from: usize, to: usize) -> u16
    ensures { result ≡ (read_field (context b) r (text_or lent.now no_field from to)).fault.number }
{
    let none = [0; 1];
    field::read(b, r, text::at(lent, &none, from, to))
        .fault
        .number
}

// What is wrong with a part, by its rule.
fn wrong_part(
    b: Before,
    r: Rule,
    lent: &[u8],
    own: &[u8],
    kind: u8,
    number: u16,
    from: usize,
    to: usize,
) -> u16
    ensures { result ≡ part_wrong (context b) r lent.now own.now kind number from to }
{
    if kind == NUMBER {
        return wrong_number(b, r, number);
    }
    if kind == TEXT {
        return wrong_place(b, r, lent, from, to);
    }
    wrong_place(b, r, own, from, to)
}

// The character of a kind, by which other fields go.
fn kind_mark(kind: u8, number: u16) -> u8
    ensures { result ≡ kind_mark kind number }
{
    if (kind == NUMBER) & (number < 10) {
        return 48 + (number as u8);
    }
    0
}

// The rules of the fields, some of which go by the kind and the drug code.
fn rules_by(n: u16, mark: u8, lent: &[u8], from: usize, to: usize) -> Rules
    ensures { result ≡ table_by n mark (text_or lent.now no_field from to) }
{
    let none = [0; 1];
    let kind = [mark];
    row::rules_of(n, &kind, text::at(lent, &none, from, to))
}

// A typed record, which has as many fields as its table: the first wrong field, 0 where there is none.
fn wrong_field(
    b: Before,
    n: u16,
    lent: &[u8],
    kinds: &[u8; PARTS],
    numbers: &[u16; PARTS],
    from: &[usize; PARTS],
    to: &[usize; PARTS],
    own: &[u8],
) -> u16
    ensures { result ≡ wrong_typed (context b) lent.now n (laid kinds.now numbers.now from.now to.now own.now) }
{
    let kind = row::kind_field(n);
    let code = row::code_field(n);
    let mark = kind_mark(kinds[kind], numbers[kind]);
    let rules = rules_by(n, mark, lent, from[code], to[code]);
    for i in 0..rules.count {
        let k = i + 1;
        let w = wrong_part(
            b,
            rules.each[i],
            lent,
            own,
            kinds[k],
            numbers[k],
            from[k],
            to[k],
        );
        if w != 0 {
            return w;
        }
    }
    0
}

// The next comma from a place on, or the end.
fn comma(s: &[u8], from: usize) -> usize
    requires { from ≤ length s.now }
    ensures { result ≡ comma_from s.now from }
{
    for i in from..s.len() {
        if s[i] == b',' {
            return i;
        }
    }
    s.len()
}

// The first wrong text of those between commas.
fn wrong_text(b: Before, s: &[u8]) -> u16
    ensures { result ≡ texts_wrong (context b) (split s.now) }
{
    let r = row::kept_rule();
    let mut from: usize = 0;
    loop {
        let to = comma(s, from);
        let n = field::read(b, r, &s[from..to]).fault.number;
        if n != 0 {
            return n;
        }
        if to == s.len() {
            return 0;
        }
        from = to + 1;
    }
}

fn wrong_texts(b: Before, lent: &[u8], from: usize, to: usize) -> u16
    ensures { result ≡ texts_wrong (context b) (split (text_or lent.now no_field from to)) }
{
    let none = [0; 1];
    wrong_text(b, text::at(lent, &none, from, to))
}

// What is wrong with a record, by its number and its parts.
fn wrong(
    c: Sofar,
    n: u16,
    lent: &[u8],
    kinds: &[u8; PARTS],
    numbers: &[u16; PARTS],
    from: &[usize; PARTS],
    to: &[usize; PARTS],
    own: &[u8],
) -> u16
    ensures { result ≡ wrong_in c.last (context c.before) lent.now n (laid kinds.now numbers.now from.now to.now own.now) }
{
    if let Err(verdict) = order::follow(c.last, n) {
        return verdict;
    }
    if row::typed(n) {
        return wrong_field(c.before, n, lent, kinds, numbers, from, to, own);
    }
    wrong_texts(c.before, lent, from[1], to[1])
}

// A record, whose texts lie in lent bytes, after what the records before leave: what the reader would say of it, and the parts of its line in the
// caller's arrays: what each is, its number, where its text begins and ends, and the bytes that texts of its own are places of. The arrays are
// filled whether the record is refused or not; what stood in them does not matter.
pub fn of(
    c: Sofar,
    r: Record,
    lent: &[u8],
    kinds: &mut [u8; PARTS],
    numbers: &mut [u16; PARTS],
    from: &mut [usize; PARTS],
    to: &mut [usize; PARTS],
    own: &mut [u8; 24],
) -> Entered
    ensures { record { wrong = result.wrong; parts = record { count = result.count; kinds = kinds.new; numbers = numbers.new; from = from.new; to = to.new; own = own.new } } ≡ entry_of c.last (context c.before) lent.now r }
{
    let count = parts(r, kinds, numbers, from, to, own);
    let w = wrong(c, numbers[0], lent, kinds, numbers, from, to, own);
    Entered {
        wrong: w,
        count: count,
    }
}
