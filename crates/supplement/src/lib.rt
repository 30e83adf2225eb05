// Supplementary codes: eight characters that say on which days, how often or how much a medicine is taken.
#![tactic(auto, using(cells::proofs::Tests::tests, cells::proofs::Bridge::value_digit), unfolding(cells::specs::Text::among, cells::specs::Test::first, crate::specs::Supplement::says, crate::specs::Supplement::empty_week, crate::specs::Supplement::last_day, crate::specs::Amount::may, crate::specs::Amount::next))]

ghost use Rattle.std.specs.Prelude.{◌≡◌, ◌+◌, ◌-◌, ◌^◌, ◌<◌, ◌≤◌, length, get_or, [], ◌∷◌, ◌++◌, not};
ghost use Rattle.cells.specs.Text.{among, digit as digit_of};
ghost use Rattle.cells.specs.Test.{test, first, passes, judge};
ghost use Rattle.cells.specs.Cells.{char, upto, cells as cells_of};
ghost use Rattle.supplement.specs.Supplement.{to31, last_day, interval_cells, week_cells, empty_week, more_days, date_cells, count_cells, amount_cells, tests, saying, no_week, no_days, week_of, days_of, says as says_of, read_supplement, said};
ghost use Rattle.supplement.specs.Amount.{figures as figure_set, nothing, may as may_of, next as next_of, columns, figures_of, places_of};
ghost use Rattle.supplement.specs.Code.Read.{day_count, told, with_figure, counted as counted_of, amount_of, said_amount, Left};

use cells::Fault;

// The days of a week, 1 for a day that is meant and 0 for one that is not.
#[derive(Clone, Copy, PartialEq, Eq, Debug)]
pub struct Week {
    pub sunday: u8,
    pub monday: u8,
    pub tuesday: u8,
    pub wednesday: u8,
    pub thursday: u8,
    pub friday: u8,
    pub saturday: u8,
}

// One to six days of a month, rising, and 0 for each that is left over.
#[derive(Clone, Copy, PartialEq, Eq, Debug)]
pub struct Days {
    pub d1: u8,
    pub d2: u8,
    pub d3: u8,
    pub d4: u8,
    pub d5: u8,
    pub d6: u8,
}

// What a supplementary code says; what its letter does not name is 0.
// Kept: numbers, and no enum of the letters, since `supplement_writer::write` answers 35 for any numbers that a caller from C hands over.
#[derive(Clone, Copy, PartialEq, Eq, Debug)]
pub struct Supplement {
    // The code's first character: I, W, D, C or V.
    pub letter: u8,
    // I: days on, days off.
    pub on: u8,
    pub off: u8,
    // W
    pub week: Week,
    // D: 1 to 12, or 0 for every month; its days.
    pub month: u8,
    pub days: Days,
    // C: the character Y, M or W; how often in it.
    pub period: u8,
    pub count: u8,
    // V: which dose of the day; the amount's digits as a number, and how many of them stand after the point.
    pub order: u8,
    pub figures: u32,
    pub places: u8,
}

// What has been seen of an amount's columns: none, a 0 alone, other whole digits, the point, decimals, an N.
#[derive(Clone, Copy)]
enum Seen {
    Nothing,
    Lone,
    Whole,
    Point,
    Decimals,
    End,
}

// What the columns of an amount read as: the digits as a number, and how many of them stand after the point.
#[derive(Clone, Copy)]
struct Amount {
    figures: u32,
    places: u8,
}

// Sets of characters, bit v for the value v.
const TO_31: u64 = 0xFFFF_FFFE;

const TO_35: u64 = 0xF_FFFF_FFFE;

const MARK: u64 = 0b11;

const MONTH: u64 = 0x1FFF;

const PERIOD: u64 = 0x5_0040_0000;

const ORDER: u64 = 0b11_1110;

// No value is above it: the last one where nothing bounds the characters of a set.
const ANY: u8 = 36;

// The last day of every month, then of months 1 to 12.
const LAST_DAYS: [u8; 13] = [31, 31, 29, 31, 30, 31, 30, 31, 31, 30, 31, 30, 31];

// The value that a character says.
fn digit(c: u8) -> u8
    ensures { result ≡ digit_of c }
{
    cells::value(c)
}

fn empty_week(s: &[u8; 8]) -> bool
    ensures { result ≡ empty_week s.now }
{
    s[1] == b'0'
        && s[2] == b'0'
        && s[3] == b'0'
        && s[4] == b'0'
        && s[5] == b'0'
        && s[6] == b'0'
        && s[7] == b'0'
}

fn last_day(month: u8) -> u8
    ensures { result ≡ last_day month }
{
    LAST_DAYS.get(usize::from(month)).copied().unwrap_or(0)
}

// How many days a D code has room to name: the first, and those up to the first 0 after it.
fn day_count(s: &[u8; 8]) -> usize
    ensures { result ≡ 1 + day_count 5 3 s.now }
{
    for i in 3..8 {
        if s[i] == b'0' {
            return i - 2;
        }
    }
    6
}

fn days_fault(s: &[u8; 8], last: u8) -> Result<(), Fault>
    ensures { result ≡ passes (first (cells_of 6 2 (upto last to31 ∷ more_days last 5 3 s.now) s.now)) }
{
    let sets = [TO_31; 6];
    let n = day_count(s);
    cells::first_fault(&sets[..n], 1, last, s, 2)
}

fn is_figure(c: u8) -> bool
    ensures { result ≡ among figure_set c }
{
    c.is_ascii_digit()
}

// May a character stand in the next column, where so many columns follow it? A point needs a digit after it.
fn may(seen: Seen, left: usize, c: u8) -> bool
    ensures { result ≡ among (may_of (told seen) left) c }
{
    match seen {
        Seen::Nothing => is_figure(c),
        Seen::Lone => ((c == b'.') & (left != 0)) | (c == b'N'),
        Seen::Whole => is_figure(c) | ((c == b'.') & (left != 0)) | (c == b'N'),
        Seen::Point => is_figure(c),
        Seen::Decimals => is_figure(c) | (c == b'N'),
        Seen::End => c == b'N',
    }
}

// What has been seen once a character stands there, too.
fn next(seen: Seen, c: u8) -> Seen
    ensures { told result ≡ next_of (told seen) c }
{
    match (seen, c) {
        (Seen::Nothing, b'0') => Seen::Lone,
        (Seen::Nothing, _) => Seen::Whole,
        (Seen::Lone | Seen::Whole, b'.') => Seen::Point,
        (Seen::Lone | Seen::Whole | Seen::Decimals, b'N') => Seen::End,
        (Seen::Whole, _) => Seen::Whole,
        (Seen::Point | Seen::Decimals, _) => Seen::Decimals,
        (Seen::Lone | Seen::End, _) => Seen::End,
    }
}

// The digits seen so far, as a number, with one character more.
fn with_figure(n: u32, c: u8) -> u32
    requires { n < 100000 }
    ensures { result ≡ with_figure n c }
{
    match c {
        b'0'..=b'9' => n * 10 + u32::from(c - b'0'),
        _ => n,
    }
}

// The column just seen is a place after the point, or is not.
fn counted(seen: Seen) -> u8
    ensures { result ≡ counted_of (told seen) }
{
    match seen {
        Seen::Decimals => 1,
        _ => 0,
    }
}

// Reads an amount over the columns left, from `at` on, after what has been seen so far: what it was, its digits and its places.
fn amount_from(
    s: &[u8; 8],
    at: usize,
    seen: Seen,
    figures: u32,
    places: u8,
) -> Result<Amount, Fault>
    requires { (2 ≤ at) × (at ≤ 8) × (figures < 10 ^ (at - 2)) × (places ≤ at) × Left s.now at (told seen) figures places }
    ensures { said_amount result ≡ judge (first (cells_of 6 2 (columns nothing 6 2 s.now) s.now)) (amount_of s.now) }
{
    if at == 8 {
        return Ok(Amount { figures, places });
    }
    let c = s[at];
    if !may(seen, 7 - at, c) {
        return Err(Fault {
            number: 5,
            place: at + 1,
        });
    }
    let then = next(seen, c);
    amount_from(
        s,
        at + 1,
        then,
        with_figure(figures, c),
        places + counted(then),
    )
}

// Reads the six columns of an amount.
fn read_amount(s: &[u8; 8]) -> Result<Amount, Fault>
    ensures { said_amount result ≡ judge (first (cells_of 6 2 (columns nothing 6 2 s.now) s.now)) (amount_of s.now) }
{
    amount_from(s, 2, Seen::Nothing, 0, 0)
}

// A code of which only the letter is known.
fn only(letter: u8) -> Supplement
    ensures { result ≡ saying letter 0 0 no_week 0 no_days 0 0 0 0 0 }
{
    Supplement {
        letter: letter,
        on: 0,
        off: 0,
        week: Week {
            sunday: 0,
            monday: 0,
            tuesday: 0,
            wednesday: 0,
            thursday: 0,
            friday: 0,
            saturday: 0,
        },
        month: 0,
        days: Days {
            d1: 0,
            d2: 0,
            d3: 0,
            d4: 0,
            d5: 0,
            d6: 0,
        },
        period: 0,
        count: 0,
        order: 0,
        figures: 0,
        places: 0,
    }
}

fn interval(s: &[u8; 8]) -> Result<Supplement, Fault>
    ensures { said result ≡ judge (first (cells_of 7 1 interval_cells s.now)) (saying (char s.now 1) (digit_of (char s.now 2)) (digit_of (char s.now 3)) no_week 0 no_days 0 0 0 0 0) }
{
    cells::first_fault(&[TO_31, TO_31], 2, ANY, s, 1)?;
    Ok(Supplement {
        on: digit(s[1]),
        off: digit(s[2]),
        ..only(s[0])
    })
}

fn week_of(s: &[u8; 8]) -> Week
    ensures { result ≡ week_of s.now }
{
    Week {
        sunday: digit(s[1]),
        monday: digit(s[2]),
        tuesday: digit(s[3]),
        wednesday: digit(s[4]),
        thursday: digit(s[5]),
        friday: digit(s[6]),
        saturday: digit(s[7]),
    }
}

// A week with no day in it is 8 at 2.
fn weekdays(s: &[u8; 8]) -> Result<Supplement, Fault>
    ensures { said result ≡ judge (first (cells_of 7 1 week_cells s.now ++ (test 8 2 (not (empty_week s.now)) ∷ []))) (saying (char s.now 1) 0 0 (week_of s.now) 0 no_days 0 0 0 0 0) }
{
    cells::first_fault(&[MARK; 7], 7, ANY, s, 1)?;
    cells::test(8, 2, !empty_week(s))?;
    Ok(Supplement {
        week: week_of(s),
        ..only(s[0])
    })
}

fn days_of(s: &[u8; 8]) -> Days
    ensures { result ≡ days_of s.now }
{
    Days {
        d1: digit(s[2]),
        d2: digit(s[3]),
        d3: digit(s[4]),
        d4: digit(s[5]),
        d5: digit(s[6]),
        d6: digit(s[7]),
    }
}

fn dates(s: &[u8; 8]) -> Result<Supplement, Fault>
    ensures { said result ≡ judge (first (cells_of 7 1 (date_cells s.now) s.now)) (saying (char s.now 1) 0 0 no_week (digit_of (char s.now 2)) (days_of s.now) 0 0 0 0 0) }
{
    let month = digit(s[1]);
    cells::test(5, 2, cells::has(MONTH, month))?;
    days_fault(s, last_day(month))?;
    Ok(Supplement {
        month,
        days: days_of(s),
        ..only(s[0])
    })
}

fn times(s: &[u8; 8]) -> Result<Supplement, Fault>
    ensures { said result ≡ judge (first (cells_of 7 1 count_cells s.now)) (saying (char s.now 1) 0 0 no_week 0 no_days (char s.now 2) (digit_of (char s.now 3)) 0 0 0) }
{
    cells::first_fault(&[PERIOD, TO_35], 2, ANY, s, 1)?;
    Ok(Supplement {
        period: s[1],
        count: digit(s[2]),
        ..only(s[0])
    })
}

fn dose(s: &[u8; 8]) -> Result<Supplement, Fault>
    ensures { said result ≡ judge (first (cells_of 7 1 (amount_cells s.now) s.now)) (saying (char s.now 1) 0 0 no_week 0 no_days 0 0 (digit_of (char s.now 2)) (figures_of 0 6 2 s.now) (places_of 6 2 s.now)) }
{
    let order = digit(s[1]);
    cells::test(5, 2, cells::has(ORDER, order))?;
    let Amount { figures, places } = read_amount(s)?;
    Ok(Supplement {
        order,
        figures,
        places,
        ..only(s[0])
    })
}

fn read_eight(s: &[u8; 8]) -> Result<Supplement, Fault>
    ensures { said result ≡ judge (first (tests s.now)) (says_of s.now) }
{
    match s[0] {
        b'I' => interval(s),
        b'W' => weekdays(s),
        b'D' => dates(s),
        b'C' => times(s),
        b'V' => dose(s),
        _ => Err(Fault {
            number: 2,
            place: 1,
        }),
    }
}

// Reads a supplementary code.
pub fn read(s: &[u8]) -> Result<Supplement, Fault>
    ensures { said result ≡ read_supplement s.now }
{
    match <&[u8; 8]>::try_from(s) {
        Ok(code) => read_eight(code),
        Err(_) => Err(Fault {
            number: 1,
            place: 0,
        }),
    }
}
