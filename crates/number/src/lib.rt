// Numbers and amounts as a field writes them.
#![tactic(auto)]

ghost use Rattle.std.specs.Prelude.{◌≡◌, true, ◌-◌, ◌^◌, ◌<◌, ◌≤◌, length, replicate};
ghost use Rattle.number.specs.Number.{figures as figures_of, value as value_of, shortest as shortest_of, said, read_number};
ghost use Rattle.number.specs.Amount.{before, fraction as fraction_of, read_amount};
ghost use Rattle.number.specs.Code.Parts.{whole_number, within as within_of, after_point, with_fraction};

use cells::Fault;

// No number, no amount.
const NONE: Fault = Fault {
    number: 27,
    place: 0,
};

fn digit(c: u8) -> u64
    requires { 48 ≤ c }
    ensures { result ≡ c - 48 }
{
    u64::from(c - b'0')
}

// Are all the bytes digits?
pub fn figures(s: &[u8]) -> bool
    ensures { result ≡ figures_of s.now }
{
    s.iter().all(|c| c.is_ascii_digit())
}

// The number n with these digits after it.
fn value(s: &[u8], n: u64) -> u64
    requires { (figures_of s.now ≡ true) × (value_of n s.now < 2 ^ 64) }
    ensures { result ≡ value_of n s.now }
{
    let mut m = n;
    for &c in s {
        m = m * 10 + digit(c);
    }
    m
}

// The number n with so many 0s after it.
fn with_zeros(n: u64, count: usize) -> u64
    requires { value_of n (replicate count 48) < 2 ^ 64 }
    ensures { result ≡ value_of n (replicate count 48) }
{
    let mut m = n;
    for _ in 0..count {
        m *= 10;
    }
    m
}

// 0, or digits not led by 0.
fn shortest(s: &[u8]) -> bool
    ensures { result ≡ shortest_of s.now }
{
    match s {
        [] => false,
        [_] => figures(s),
        [first, ..] => (*first != b'0') & figures(s),
    }
}

fn within(n: u64, lo: u64, hi: u64) -> Result<u64, Fault>
    ensures { said result ≡ within_of lo hi n }
{
    if (lo <= n) & (n <= hi) {
        Ok(n)
    } else {
        Err(NONE)
    }
}

// At most five digits as their number.
fn whole_number(s: &[u8]) -> Option<u64>
    requires { length s.now ≤ 5 }
    ensures { result ≡ whole_number s.now }
{
    let mut m = 0;
    for &c in s {
        if !c.is_ascii_digit() {
            return None;
        }
        m = m * 10 + digit(c);
    }
    Some(m)
}

// A number from lo to hi. One of more than five digits is above any hi.
pub fn read(s: &[u8], lo: u16, hi: u16) -> Result<u64, Fault>
    ensures { said result ≡ read_number lo hi s.now }
{
    if s.is_empty() | (5 < s.len()) {
        return Err(NONE);
    }
    if (s[0] == b'0') & (s.len() != 1) {
        return Err(NONE);
    }
    match whole_number(s) {
        Some(n) => within(n, u64::from(lo), u64::from(hi)),
        None => Err(NONE),
    }
}

// The place of the first point; the length where there is none.
fn point(s: &[u8]) -> usize
    ensures { result ≡ length (before s.now) }
{
    // Kept: with std's `position` no search found the place of the rule.
    for (i, &c) in s.iter().enumerate() {
        if c == b'.' {
            return i;
        }
    }
    s.len()
}

// One to five digits, the last not 0.
fn fraction(s: &[u8]) -> bool
    ensures { result ≡ fraction_of s.now }
{
    match s {
        [] => false,
        [.., last] => s.len() <= 5 && (figures(s) & (*last != b'0')),
    }
}

// The amount whose whole part is n and whose digits after the point are these.
fn after_point(s: &[u8], n: u64) -> Result<u64, Fault>
    requires { n < 10 ^ 6 }
    ensures { said result ≡ after_point n s.now }
{
    if fraction(s) {
        return Ok(with_zeros(value(s, n), 5 - s.len()));
    }
    Err(NONE)
}

// The amount whose whole part is n, and ends at a place: there the point stands, or nothing.
fn with_fraction(s: &[u8], at: usize, n: u64) -> Result<u64, Fault>
    requires { (at ≡ length (before s.now)) × (n < 10 ^ 6) }
    ensures { said result ≡ with_fraction n s.now }
{
    if at == s.len() {
        return Ok(with_zeros(n, 5));
    }
    let from = at + 1;
    after_point(&s[from..], n)
}

// An amount, in hundred-thousandths.
pub fn read_amount(s: &[u8]) -> Result<u64, Fault>
    ensures { said result ≡ read_amount s.now }
{
    let at = point(s);
    if 6 < at {
        return Err(NONE);
    }
    let whole = &s[..at];
    if shortest(whole) {
        return with_fraction(s, at, value(whole, 0));
    }
    Err(NONE)
}
