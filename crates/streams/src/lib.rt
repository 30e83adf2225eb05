// Bytes in and out, as the programs read and print them: a read that fails ends what is read, and a write that fails is passed over.
#![tactic(auto)]

ghost use Rattle.std.specs.Prelude.{◌≡◌, ◌≢◌, ◌≤◌, ◌-◌, ◌^◌, ◌++◌, ◌∷◌, min, length, take, All, MatchOption};
ghost use Rattle.std.specs.Str.Parse.{IsNumeral, digits_value};

use std::fmt::Display;
use std::io::Read;

// Reads until the room is full, the input ends or a read fails, and returns how many bytes it put at the start of the room.
pub fn read_full(input: &mut impl Read, room: &mut [u8]) -> usize
    ensures in_bounds { result ≤ length room.new }
    ensures whole { result ≡ length (take result room.new) }
{
    let mut done: usize = 0;
    while done < room.len() {
        let n = read_some(input, &mut room[done..]);
        if n == 0 {
            break;
        }
        done += n;
    }
    done
}

// One read; 0 where it fails, as at the end.
fn read_some(input: &mut impl Read, room: &mut [u8]) -> usize
    ensures { result ≤ length room.new }
{
    match input.read(room) {
        Ok(n) => n,
        Err(_) => 0,
    }
}

// What stands before the first such byte of a text, and what stands behind it.
pub fn split_once(text: &[u8], mark: u8) -> Option<(&[u8], &[u8])>
    ensures cases { MatchOption result (All (λ c. c ≢ mark) text.now) (λ p. (text.now ≡ p.0.now ++ mark ∷ p.1.now) × All (λ c. c ≢ mark) p.0.now) }
{
    let at = text.iter().position(|c| *c == mark)?;
    Some((&text[..at], &text[at + 1..]))
}

// The number that a word of digits is. One that a `u32` lacks room for is held as the largest, which is too large for whatever it is.
pub fn number(word: &[u8]) -> Option<u32>
    ensures cases { MatchOption result (¬ (IsNumeral 10 word.now)) (λ n. IsNumeral 10 word.now × (n ≡ min (digits_value 10 word.now) (2 ^ 32 - 1))) }
{
    if word.is_empty() {
        return None;
    }
    let mut n: u32 = 0;
    for c in word {
        let digit = char::from(*c).to_digit(10)?;
        n = n.saturating_mul(10).saturating_add(digit);
    }
    Some(n)
}

// Prints bytes, which need not be text.
pub fn write_all(rt: &impl Print, bytes: &[u8]) {
    let _ = rt.write_all(bytes);
}

// Prints a value as text, with no line end.
pub fn print(rt: &impl Print, value: impl Display + Drop) {
    let _ = rt.print(value);
}
