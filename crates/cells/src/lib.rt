// Characters of codes, sets of them, the first fault of a row of characters, tested from left to right, and codes compared.
#![tactic(auto, using(crate::proofs::Tests::tests), unfolding(crate::specs::Text::letter, crate::specs::Test::first, crate::specs::Code::Mask::value, crate::specs::Code::Mask::has, crate::specs::Code::Mask::wrong, crate::specs::Code::Mask::unused, crate::specs::Code::Mask::wrong_at))]

ghost use Rattle.std.specs.Prelude.{◌≡◌, [], ◌∷◌, ◌+◌, ◌-◌, ◌<◌, ◌≤◌, length};
ghost use Rattle.cells.specs.Text.{letter as letter_of};
ghost use Rattle.cells.specs.Same.{Compares};
ghost use Rattle.cells.specs.Code.Mask.{value as value_of, has as has_of, wrong as wrong_of, unused as unused_of, wrong_at, scan, told};
ghost use Rattle.cells.specs.Test.{test as test_of, first, passes};

// One of document 01's numbers, and the place that it is of.
#[derive(Clone, Copy, PartialEq, Eq, Debug)]
pub struct Fault {
    pub number: u16,
    pub place: usize,
}

// A character's value: 0 to 9, A to Z as 10 to 35, 36 for any other character.
pub fn value(c: u8) -> u8
    ensures { result ≡ value_of c }
{
    match c {
        b'0'..=b'9' => c - b'0',
        b'A'..=b'Z' => c - b'A' + 10,
        _ => 36,
    }
}

// The character of a value; 0, which stands in no code, where there is none.
pub fn letter(v: u8) -> u8
    ensures { result ≡ letter_of v }
{
    match v {
        0..=9 => b'0' + v,
        10..=35 => b'A' + (v - 10),
        _ => 0,
    }
}

// Does a set of characters, bit v for the value v, have a value?
pub fn has(set: u64, v: u8) -> bool
    ensures { result ≡ has_of set v }
{
    v <= 36 && (set >> v) % 2 == 1
}

// What is wrong with the value v that stands after the value before, in a cell whose set has it or not.
fn wrong(inside: bool, rises: bool, last: u8, before: u8, v: u8) -> Result<(), u16>
    ensures { result ≡ told (wrong_of inside rises last before v) }
{
    if !inside {
        return Err(5);
    }
    if last < v {
        return Err(8);
    }
    if rises && v <= before {
        return Err(9);
    }
    Ok(())
}

fn unused(v: u8) -> Result<(), u16>
    ensures { result ≡ told (unused_of v) }
{
    if v == 0 { Ok(()) } else { Err(6) }
}

// What is wrong at offset i, the jth of the row.
fn wrong_at(sets: &[u64], rise: usize, last: u8, s: &[u8], j: usize, i: usize) -> Result<(), u16>
    requires { i < length s.now }
    ensures { result ≡ told (wrong_at sets.now rise last s.now j i) }
{
    let v = value(s[i]);
    match sets.get(j) {
        Some(&set) => {
            let before = value(s[i.saturating_sub(1)]);
            wrong(has(set, v), rise <= j, last, before, v)
        }
        None => unused(v),
    }
}

// The first fault of the characters from an offset on: the first of them stand in the sets of the row, those from `rise` on above
// the character before them, none above the value `last`; every later character is 0.
pub fn first_fault(sets: &[u64], rise: usize, last: u8, s: &[u8], from: usize) -> Result<(), Fault>
    ensures { result ≡ passes (scan sets.now rise last s.now (length s.now - from) 0 from) }
{
    for i in from..s.len() {
        if let Err(number) = wrong_at(sets, rise, last, s, i - from, i) {
            return Err(Fault {
                number,
                place: i + 1,
            });
        }
    }
    Ok(())
}

// One test: the fault where it is not passed. The number 0 is no fault's.
pub fn test(number: u16, place: usize, passed: bool) -> Result<(), Fault>
    ensures { result ≡ passes (first (test_of number place passed ∷ [])) }
{
    if passed || number == 0 {
        Ok(())
    } else {
        Err(Fault { number, place })
    }
}

// Are these the same bytes, one by one? So two codes are compared.
pub fn same_bytes(a: &[u8], b: &[u8]) -> bool
    ensures { Compares a.now b.now result }
{
    a == b
}
