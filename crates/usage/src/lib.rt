// Usage codes: sixteen characters that say how and when a medicine is taken or applied.
#![tactic(auto, using(cells::proofs::Tests::tests, cells::proofs::Bridge::value_digit, crate::proofs::Masks::hour_byte), unfolding(crate::proofs::Masks::from_a, cells::specs::Text::among, crate::specs::Usage::used, crate::specs::Usage::timing, crate::specs::Usage::says, crate::specs::Code::Sets::details, crate::specs::Code::Sets::kinds, crate::specs::Code::Sets::pairs))]

ghost use Rattle.std.specs.Prelude.{◌≡◌, [], ◌∷◌, ◌≤◌};
ghost use Rattle.cells.specs.Text.{digit as digit_of};
ghost use Rattle.cells.specs.Test.{first, passes};
ghost use Rattle.cells.specs.Code.Mask.{value, has};
ghost use Rattle.usage.specs.Usage.{hour as hour_of, used as used_of, frame, occasions, counted, full_day, at_fifteen, timing, meals as meals_of, outside as outside_of, clock as clock_of, event_of, says, read_usage, said as said_of, meal_tests, every_tests, clock_tests, event_tests, outside_tests, pair_tests};
ghost use Rattle.usage.specs.Code.Sets.{details as detail_set, kinds as kind_set, pairs as pair_set, in_line, in_lines};

use cells::Fault;

// Kinds 1 and 6. Bedtime and waking are 1 where they are meant. Kind 1: supper, lunch and breakfast are 0 where they are not meant, else
// 1 before, 2 just before, 6 during, 3 just after, 4 after, 5 two hours after; the hour is 15 or none. Kind 6, where they are evening,
// noon and morning: supper and breakfast are 0, 9 or 10 (the character A), lunch is 1 where it is meant. No hour is 24.
#[derive(Clone, Copy, PartialEq, Eq, Debug)]
pub struct Occasions {
    pub bedtime: u8,
    pub supper: u8,
    pub lunch: u8,
    pub breakfast: u8,
    pub waking: u8,
    pub hour: u8,
}

// Kind 3: the hours, 0 to 23, rising, and 24 for each that is left over.
#[derive(Clone, Copy, PartialEq, Eq, Debug)]
pub struct Hours {
    pub h1: u8,
    pub h2: u8,
    pub h3: u8,
    pub h4: u8,
    pub h5: u8,
    pub h6: u8,
    pub h7: u8,
    pub h8: u8,
}

// Kind 5: a row of table 8, by the values of its three characters (1 to 9, A as 10, and on), the interval and the limit.
#[derive(Clone, Copy, PartialEq, Eq, Debug)]
pub struct Event {
    pub group: u8,
    pub event: u8,
    pub condition: u8,
    pub interval: u8,
    pub limit: u8,
}

// What a usage code says. Of what its kind does not name, an hour is 24 and anything else is 0.
// Kept: numbers, and no enums of what a code can say, since `usage_writer::write` answers 35 for any numbers that a caller from C hands over.
#[derive(Clone, Copy, PartialEq, Eq, Debug)]
pub struct Instruction {
    // 1 oral, 2 external.
    pub class: u8,
    // The value of the detail's character: 0 to 3, or A as 10 to U as 30.
    pub detail: u8,
    pub kind: u8,
    // How often a day, but for kind 5.
    pub times: u8,
    pub occasions: Occasions,
    // Kind 2: the first hour, 0 to 23, or 24 for none.
    pub start: u8,
    pub hours: Hours,
    pub event: Event,
    // Kind 7: the value of the pair's second character.
    pub about: u8,
}

// Sets of characters as `cells::has` takes them: bit v for the value v, 0 to 9, A as 10 to Z as 35.
const CLASSES: u64 = 0b110;

const ORAL_DETAILS: u64 = 0b1111;

// A to U but I and O.
const EXTERNAL_DETAILS: u64 = 0x7EFB_FC00;

const ORAL_KINDS: u64 = 0b10_1110;

const ORAL_KINDS_AND_7: u64 = 0b1010_1110;

const EXTERNAL_KINDS: u64 = 0b1110_0000;

const ZERO: u64 = 0b1;

const ZERO_OR_ONE: u64 = 0b11;

const ONE_TO_FIVE: u64 = 0b11_1110;

const ONE_TO_EIGHT: u64 = 0b1_1111_1110;

const TWO_THREE_FOUR_SIX_EIGHT: u64 = 0b1_0101_1100;

const MEAL: u64 = 0b111_1111;

const ZERO_OR_NINE: u64 = 0b10_0000_0001;

const ZERO_NINE_OR_A: u64 = 0b110_0000_0001;

const ZERO_OR_P: u64 = 0x200_0001;

const HOUR: u64 = 0x3_FFFF_FC00;

const ZERO_OR_HOUR: u64 = 0x3_FFFF_FC01;

// 0 to 6, 8, C.
const INTERVAL: u64 = 0b1_0001_0111_1111;

// 0 to 9, A, C.
const LIMIT: u64 = 0b1_0111_1111_1111;

// What each kind names, from the 4th character on; of kind 5 the 8th and the 9th. Kind 7 names nothing after its pair.
const MEALS: [u64; 7] = [
    ONE_TO_FIVE,
    ZERO_OR_ONE,
    MEAL,
    MEAL,
    MEAL,
    ZERO_OR_NINE,
    ZERO_OR_P,
];

const EVERY: [u64; 2] = [TWO_THREE_FOUR_SIX_EIGHT, ZERO_OR_HOUR];

const CLOCK: [u64; 9] = [ONE_TO_EIGHT, HOUR, HOUR, HOUR, HOUR, HOUR, HOUR, HOUR, HOUR];

const LIMITS: [u64; 2] = [INTERVAL, LIMIT];

const OUTSIDE: [u64; 7] = [
    ONE_TO_FIVE,
    ZERO_OR_ONE,
    ZERO_NINE_OR_A,
    ZERO_OR_NINE,
    ZERO_NINE_OR_A,
    ZERO_OR_NINE,
    ZERO_OR_HOUR,
];

// The conditions of an event, and of a starred one: 0 2 4 5 6 7.
const PLAIN: u64 = 0b1;

const STARRED: u64 = 0b1111_0101;

// A line of table 8: what may stand 5th, 6th and 7th.
#[derive(Clone, Copy)]
struct Line(u64, u64, u64);

// Table 8 by lines that share their conditions. The 5ths are 1 2 4 5 6 7 8 9 B W, then 3 5 7 A of the starred events.
const TABLE_8: [Line; 14] = [
    Line(0b10, 0b1111_1110, PLAIN), // 11 to 17
    Line(0b100, 0b11_1110, PLAIN), // 21 to 25
    Line(0b1_0000, 0b11_1111_1110, PLAIN), // 41 to 49
    Line(0b10_0000, 0b1000, PLAIN), // 53
    Line(0b100_0000, 0b1111_1110, PLAIN), // 61 to 67
    Line(0b1000_0000, 0b100, PLAIN), // 72
    Line(0b1_0000_0000, 0b110, PLAIN), // 81, 82
    Line(0b10_0000_0000, 0b110, PLAIN), // 91, 92
    Line(0b1000_0000_0000, 0b1111_1110, PLAIN), // B1 to B7
    Line(0x1_0000_0000, 0b110, PLAIN), // W1, W2
    Line(0b1000, 0b110, STARRED), // 31, 32
    Line(0b10_0000, 0b110, STARRED), // 51, 52
    Line(0b1000_0000, 0b10, STARRED), // 71
    Line(0b100_0000_0000, 0b11_1111_1110, STARRED), // A1 to A9
];

// For `cells::first_fault`: no character of a row has to rise, and no value is too high.
const NEVER: usize = 16;

const ANY: u8 = 36;

// The value that a character says.
fn digit(c: u8) -> u8
    ensures { result ≡ digit_of c }
{
    cells::value(c)
}

// What a character says as an hour, A as 0 to X as 23; 24 where it is none.
fn hour(c: u8) -> u8
    ensures { result ≡ hour_of c }
{
    match c {
        b'A'..=b'X' => c - b'A',
        _ => 24,
    }
}

// 1 for a character that is not 0.
fn used(c: u8) -> u8
    ensures value { result ≡ used_of c }
    ensures upper_bound { result ≤ 1 }
{
    u8::from(c != b'0')
}

// Does a character stand in a set?
fn among(set: u64, c: u8) -> bool
    ensures { result ≡ has set (value c) }
{
    cells::has(set, cells::value(c))
}

// The details of a class.
fn details(class: u8) -> u64
    ensures { result ≡ detail_set class }
{
    match class {
        b'1' => ORAL_DETAILS,
        _ => EXTERNAL_DETAILS,
    }
}

// The timing kinds of a class and a detail.
fn kinds(class: u8, detail: u8) -> u64
    ensures { result ≡ kind_set class detail }
{
    match (class, detail) {
        (b'1', b'3') => ORAL_KINDS_AND_7,
        (b'1', _) => ORAL_KINDS,
        _ => EXTERNAL_KINDS,
    }
}

// The first three characters: class, detail, timing kind.
fn frame_fault(s: &[u8; 16]) -> Result<(), Fault>
    ensures { result ≡ passes (first (frame s.now)) }
{
    let class = s[0];
    let detail = s[1];
    let kind = s[2];
    cells::test(2, 1, among(CLASSES, class))?;
    cells::test(3, 2, among(details(class), detail))?;
    cells::test(4, 3, among(kinds(class, detail), kind))
}

// How many characters from the 5th to the 10th are not 0.
fn count(s: &[u8; 16]) -> u8
    ensures { result ≡ occasions s.now }
{
    used(s[4]) + used(s[5]) + used(s[6]) + used(s[7]) + used(s[8]) + used(s[9])
}

// The 4th character has to be that number.
fn count_fault(s: &[u8; 16]) -> Result<(), Fault>
    ensures { result ≡ passes (first (counted s.now ∷ [])) }
{
    cells::test(7, 4, digit(s[3]) == count(s))
}

// Bedtime, all three meals, each after it, and no waking.
fn full_day(s: &[u8; 16]) -> bool
    ensures { result ≡ full_day s.now }
{
    s[4] == b'1' && s[5] == b'4' && s[6] == b'4' && s[7] == b'4' && s[8] == b'0'
}

// P, 15 h, stands only with a full day.
fn fifteen_fault(s: &[u8; 16]) -> Result<(), Fault>
    ensures { result ≡ passes (first (at_fifteen s.now ∷ [])) }
{
    cells::test(8, 10, s[9] != b'P' || full_day(s))
}

// Kind 1.
fn meal_fault(s: &[u8; 16]) -> Result<(), Fault>
    ensures { result ≡ passes (first (meal_tests s.now)) }
{
    cells::first_fault(&MEALS, NEVER, ANY, s, 3)?;
    count_fault(s)?;
    fifteen_fault(s)
}

// Kind 2.
fn every_fault(s: &[u8; 16]) -> Result<(), Fault>
    ensures { result ≡ passes (first (every_tests s.now)) }
{
    cells::first_fault(&EVERY, NEVER, ANY, s, 3)
}

// Kind 3: the hours rise from the second on. The 4th character names as many as a row can have: where it is none of 1 to 8 it is itself
// the fault, whatever follows it.
fn clock_fault(s: &[u8; 16]) -> Result<(), Fault>
    ensures { result ≡ passes (first (clock_tests s.now)) }
{
    let end = usize::from(digit(s[3]).min(8)) + 1;
    cells::first_fault(&CLOCK[..end], 2, ANY, s, 3)
}

// Do three characters stand in the rows of a line of table 8?
fn in_line(line: &Line, a: u8, b: u8, c: u8) -> bool
    ensures { result ≡ in_line line.now a b c }
{
    among(line.0, a) && among(line.1, b) && among(line.2, c)
}

// Do three characters stand in any row of table 8?
#[tactic(auto, unfolding(crate::specs::Code::Sets::lines))]
fn in_table(a: u8, b: u8, c: u8) -> bool
    ensures { result ≡ in_lines a b c }
{
    TABLE_8.iter().any(|line| in_line(line, a, b, c))
}

// Kind 5. The row of table 8 is judged whole, at its first character.
fn event_fault(s: &[u8; 16]) -> Result<(), Fault>
    ensures { result ≡ passes (first (event_tests s.now)) }
{
    cells::test(5, 4, among(ZERO, s[3]))?;
    cells::test(8, 5, in_table(s[4], s[5], s[6]))?;
    cells::first_fault(&LIMITS, NEVER, ANY, s, 7)
}

// Kind 6.
fn outside_fault(s: &[u8; 16]) -> Result<(), Fault>
    ensures { result ≡ passes (first (outside_tests s.now)) }
{
    cells::first_fault(&OUTSIDE, NEVER, ANY, s, 3)?;
    count_fault(s)
}

// Kind 7's pairs: by the 4th character what may stand 5th, 0 2 N, 0 3, 0 4 A, 0 5 A, 0 A, or nothing.
fn pairs(c: u8) -> u64
    ensures { result ≡ pair_set c }
{
    match c {
        b'1' => 0x80_0005,
        b'2' => 0b1001,
        b'3' => 0b100_0001_0001,
        b'4' => 0b100_0010_0001,
        b'6' => 0b100_0000_0001,
        _ => 0,
    }
}

// Kind 7. The pair is judged whole, at its first character.
fn pair_fault(s: &[u8; 16]) -> Result<(), Fault>
    ensures { result ≡ passes (first (pair_tests s.now)) }
{
    cells::test(8, 4, among(pairs(s[3]), s[4]))?;
    cells::first_fault(&[], NEVER, ANY, s, 5)
}

// The 4th to the 16th character, by the timing kind.
fn timing_fault(s: &[u8; 16]) -> Result<(), Fault>
    ensures { result ≡ passes (first (timing s.now)) }
{
    match s[2] {
        b'1' => meal_fault(s),
        b'2' => every_fault(s),
        b'3' => clock_fault(s),
        b'5' => event_fault(s),
        b'6' => outside_fault(s),
        _ => pair_fault(s),
    }
}

// Kind 1: the 6th is supper.
fn meals(s: &[u8; 16]) -> Occasions
    ensures { result ≡ meals_of s.now }
{
    Occasions {
        bedtime: digit(s[4]),
        supper: digit(s[5]),
        lunch: digit(s[6]),
        breakfast: digit(s[7]),
        waking: used(s[8]),
        hour: hour(s[9]),
    }
}

// Kind 6: as kind 1, but noon is only meant or not.
fn outside(s: &[u8; 16]) -> Occasions
    ensures { result ≡ outside_of s.now }
{
    Occasions {
        lunch: used(s[6]),
        ..meals(s)
    }
}

// What a code says for each part of an instruction; nothing, where its kind does not name that part.
fn said_occasions(s: &[u8; 16]) -> Occasions
    ensures { result ≡ (says s.now).occasions }
{
    match s[2] {
        b'1' => meals(s),
        b'6' => outside(s),
        _ => Occasions {
            bedtime: 0,
            supper: 0,
            lunch: 0,
            breakfast: 0,
            waking: 0,
            hour: 24,
        },
    }
}

fn said_start(s: &[u8; 16]) -> u8
    ensures { result ≡ (says s.now).start }
{
    match s[2] {
        b'2' => hour(s[4]),
        _ => 24,
    }
}

fn clock(s: &[u8; 16]) -> Hours
    ensures { result ≡ clock_of s.now }
{
    Hours {
        h1: hour(s[4]),
        h2: hour(s[5]),
        h3: hour(s[6]),
        h4: hour(s[7]),
        h5: hour(s[8]),
        h6: hour(s[9]),
        h7: hour(s[10]),
        h8: hour(s[11]),
    }
}

fn said_hours(s: &[u8; 16]) -> Hours
    ensures { result ≡ (says s.now).hours }
{
    match s[2] {
        b'3' => clock(s),
        _ => Hours {
            h1: 24,
            h2: 24,
            h3: 24,
            h4: 24,
            h5: 24,
            h6: 24,
            h7: 24,
            h8: 24,
        },
    }
}

fn event_of(s: &[u8; 16]) -> Event
    ensures { result ≡ event_of s.now }
{
    Event {
        group: digit(s[4]),
        event: digit(s[5]),
        condition: digit(s[6]),
        interval: digit(s[7]),
        limit: digit(s[8]),
    }
}

fn said_event(s: &[u8; 16]) -> Event
    ensures { result ≡ (says s.now).event }
{
    match s[2] {
        b'5' => event_of(s),
        _ => Event {
            group: 0,
            event: 0,
            condition: 0,
            interval: 0,
            limit: 0,
        },
    }
}

fn said_about(s: &[u8; 16]) -> u8
    ensures { result ≡ (says s.now).about }
{
    match s[2] {
        b'7' => digit(s[4]),
        _ => 0,
    }
}

// What sixteen characters say.
fn said(s: &[u8; 16]) -> Instruction
    ensures { result ≡ says s.now }
{
    Instruction {
        class: digit(s[0]),
        detail: digit(s[1]),
        kind: digit(s[2]),
        times: digit(s[3]),
        occasions: said_occasions(s),
        start: said_start(s),
        hours: said_hours(s),
        event: said_event(s),
        about: said_about(s),
    }
}

// Reads a usage code: what it says, or the number and the place of the first fault.
pub fn read(s: &[u8]) -> Result<Instruction, Fault>
    ensures { said_of result ≡ read_usage s.now }
{
    let Ok(code) = <&[u8; 16]>::try_from(s) else {
        return Err(Fault {
            number: 1,
            place: 0,
        });
    };
    frame_fault(code)?;
    timing_fault(code)?;
    Ok(said(code))
}
