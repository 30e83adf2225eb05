// Shift_JIS text: two scanners that call each other over a field's bytes; and a text by its place.
#![tactic(auto)]

ghost use Rattle.std.specs.Prelude.{◌≡◌, false, ◌&&◌, ◌≤◌, eqb, length, drop};
ghost use Rattle.text.specs.Text.{single as single_of, lead as lead_of, second as second_of, characters, led, starts, text_upto};
ghost use Rattle.text.specs.Lent.{text_or};
ghost use Rattle.text.specs.Code.Scan.{rest};

// A byte that is a character by itself: no control byte, no comma, no half of a pair.
fn single(b: u8) -> bool
    ensures { result ≡ single_of b }
{
    if b < 0x7f {
        return (b != b',') & (0x20 <= b);
    }
    (0xa1 <= b) & (b <= 0xdf)
}

// The first byte of a pair.
fn lead(b: u8) -> bool
    ensures { result ≡ lead_of b }
{
    if b < 0xa0 {
        return 0x81 <= b;
    }
    (0xe0 <= b) & (b <= 0xef)
}

// The second byte of a pair.
fn second(b: u8) -> bool
    ensures { result ≡ second_of b }
{
    (0x40 <= b) & (b <= 0xfc) & (b != 0x7f)
}

// The pair that is a full-width space.
fn wide_space(a: u8, b: u8) -> bool
    ensures { result ≡ (eqb a 0x81 && eqb b 0x40) }
{
    (a == 0x81) & (b == 0x40)
}

// The bytes from a place where a character begins; `space` says that the character before it is a space, which may not be the last. Bytes that are
// characters by themselves are passed here, pairs by the other scanner.
#[cycle(at_character_at_second)]
fn at_character(s: &[u8], at: usize, space: bool) -> bool
    requires { at ≤ length s.now }
    ensures { result ≡ rest space (characters (drop at s.now)) }
{
    let mut spaced = space;
    for i in at..s.len() {
        let b = s[i];
        if !single(b) {
            return lead(b) && at_second(s, i + 1, b);
        }
        spaced = b == b' ';
    }
    !spaced
}

// The bytes from the second byte of a pair on, whose first byte is `a`, and on from pair to pair.
#[cycle(at_character_at_second)]
fn at_second(s: &[u8], at: usize, a: u8) -> bool
    requires { at ≤ length s.now }
    ensures { result ≡ rest false (led (drop at s.now) a) }
{
    let mut first = a;
    // Kept: a turn takes two bytes, and may end between them.
    let mut i = at;
    while i < s.len() {
        let b = s[i];
        if !second(b) {
            return false;
        }
        i += 1;
        if i == s.len() {
            return !wide_space(first, b);
        }
        let c = s[i];
        if !lead(c) {
            return at_character(s, i, wide_space(first, b));
        }
        first = c;
        i += 1;
    }
    false // half a pair
}

// Is the first character a space?
fn starts_space(s: &[u8]) -> bool
    ensures { result ≡ starts (characters s.now) }
{
    match s {
        [] => false,
        [a] => *a == b' ',
        [a, b, ..] => (*a == b' ') | wide_space(*a, *b),
    }
}

// A text of at most so many bytes. The length is tested first, so that the scanners call each other at most `most` times.
pub fn is_text(s: &[u8], most: usize) -> bool
    ensures { result ≡ text_upto most s.now }
{
    if most < s.len() {
        return false;
    }
    !starts_space(s) && at_character(s, 0, false)
}

// The text at a place of the lent bytes; where they have no such place, `none`.
pub fn at<'a>(lent: &'a [u8], none: &'a [u8], from: usize, to: usize) -> &'a [u8]
    ensures { result.now ≡ text_or lent.now none.now from to }
{
    if to < from {
        return none;
    }
    if lent.len() < to {
        return none;
    }
    &lent[from..to]
}
