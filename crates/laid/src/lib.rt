// A line laid from its parts into a lent buffer, where it has room.
#![tactic(auto)]

ghost use Rattle.std.specs.Prelude.{◌≡◌, ◌+◌, ◌≤◌, ◌<◌, min, leb, length};
ghost use Rattle.std.proofs.lemmas.List.Edits.{sets};
ghost use Rattle.cells.specs.Limits.{file_most};
ghost use Rattle.number.specs.Print.{print_number};
ghost use Rattle.text.specs.Lent.{no_field, text_or};
ghost use Rattle.laid.specs.Laid.{laid, part_bytes, separator_of, line_of, room_for, parts_most, put_parts};

// How many parts a line has at most.
pub const PARTS: usize = 13;

// How long a file is at most.
const FILE_MOST: usize = 16384;

// What a part of the line is: a number's digits, a text in the bytes that are lent, or a text in bytes of the line's own.
pub const NUMBER: u8 = 0;

pub const TEXT: u8 = 1;

pub const OWN: u8 = 2;

// How much of a buffer a file may fill.
pub fn limit(length: usize) -> usize
    ensures { result ≡ min length file_most }
{
    length.min(FILE_MOST)
}

// ---- how long a line is

// How many digits a number has.
fn digits(n: u16) -> usize
    ensures { result ≡ length (print_number n) }
{
    match n {
        0..=9 => 1,
        10..=99 => 2,
        100..=999 => 3,
        1000..=9999 => 4,
        _ => 5,
    }
}

// How many bytes a text at a place has.
fn text_width(lent: &[u8], from: usize, to: usize) -> usize
    ensures { result ≡ length (text_or lent.now no_field from to) }
{
    let none = [0; 1];
    text::at(lent, &none, from, to).len()
}

// How many bytes a part has.
fn width(lent: &[u8], own: &[u8], kind: u8, number: u16, from: usize, to: usize) -> usize
    ensures { result ≡ length (part_bytes lent.now own.now kind number from to) }
{
    if kind == NUMBER {
        return digits(number);
    }
    if kind == TEXT {
        return text_width(lent, from, to);
    }
    text_width(own, from, to)
}

// Do the parts, a byte after each, and the LF have room?
fn fits(
    count: usize,
    lent: &[u8],
    kinds: &[u8; PARTS],
    numbers: &[u16; PARTS],
    from: &[usize; PARTS],
    to: &[usize; PARTS],
    own: &[u8],
    room: usize,
) -> bool
    requires { count ≤ parts_most }
    ensures { result ≡ leb (length (line_of lent.now (laid kinds.now numbers.now from.now to.now own.now) count)) room }
{
    let mut left = room;
    for i in 0..count {
        let n = width(lent, own, kinds[i], numbers[i], from[i], to[i]);
        if left <= n {
            return false;
        }
        left -= n;
        left -= 1;
    }
    0 < left
}

// Is there room at a place for the line and the closing 1Ah?
fn has_room(
    length: usize,
    at: usize,
    count: usize,
    lent: &[u8],
    kinds: &[u8; PARTS],
    numbers: &[u16; PARTS],
    from: &[usize; PARTS],
    to: &[usize; PARTS],
    own: &[u8],
) -> bool
    requires { count ≤ parts_most }
    ensures { result ≡ room_for length at (line_of lent.now (laid kinds.now numbers.now from.now to.now own.now) count) }
{
    let most = limit(length);
    if most <= at {
        return false;
    }
    fits(count, lent, kinds, numbers, from, to, own, most - at - 1)
}

// ---- putting it

// The byte after a part: a comma, or the CR after the last.
fn separator(i: usize, count: usize) -> u8
    requires { i < count }
    ensures { result ≡ separator_of i count }
{
    if i + 1 == count {
        return b'\r';
    }
    b','
}

// Copies bytes to a place.
fn copy(out: &mut [u8], at: usize, s: &[u8]) -> usize
    requires { at + length s.now ≤ length out.old }
    ensures { (out.new ≡ sets out.old at s.now) × (result ≡ at + length s.now) }
{
    // Kept: by `copy_from_slice` the archive for C would want `memmove` from outside.
    for i in 0..s.len() {
        out[at + i] = s[i];
    }
    at + s.len()
}

// Puts a number's digits, from the last to the first.
fn put_number(out: &mut [u8], at: usize, n: u16) -> usize
    requires { at + length (print_number n) ≤ length out.old }
    ensures { (out.new ≡ sets out.old at (print_number n)) × (result ≡ at + length (print_number n)) }
{
    let end = at + digits(n);
    let mut left = n;
    for k in (at..end).rev() {
        out[k] = b'0' + (left % 10) as u8;
        left /= 10;
    }
    end
}

fn put_text(out: &mut [u8], at: usize, lent: &[u8], from: usize, to: usize) -> usize
    requires { at + length (text_or lent.now no_field from to) ≤ length out.old }
    ensures { (out.new ≡ sets out.old at (text_or lent.now no_field from to)) × (result ≡ at + length (text_or lent.now no_field from to)) }
{
    let none = [0; 1];
    copy(out, at, text::at(lent, &none, from, to))
}

fn put_part(
    out: &mut [u8],
    at: usize,
    lent: &[u8],
    own: &[u8],
    kind: u8,
    number: u16,
    from: usize,
    to: usize,
) -> usize
    requires { at + length (part_bytes lent.now own.now kind number from to) ≤ length out.old }
    ensures { (out.new ≡ sets out.old at (part_bytes lent.now own.now kind number from to)) × (result ≡ at + length (part_bytes lent.now own.now kind number from to)) }
{
    if kind == NUMBER {
        return put_number(out, at, number);
    }
    if kind == TEXT {
        return put_text(out, at, lent, from, to);
    }
    put_text(out, at, own, from, to)
}

// The line with its CR LF.
fn put_line(
    out: &mut [u8],
    at: usize,
    count: usize,
    lent: &[u8],
    kinds: &[u8; PARTS],
    numbers: &[u16; PARTS],
    from: &[usize; PARTS],
    to: &[usize; PARTS],
    own: &[u8],
) -> usize
    requires { (count ≤ parts_most) × (at + length (line_of lent.now (laid kinds.now numbers.now from.now to.now own.now) count) ≤ length out.old) }
    ensures { (out.new ≡ sets out.old at (line_of lent.now (laid kinds.now numbers.now from.now to.now own.now) count)) × (result ≡ at + length (line_of lent.now (laid kinds.now numbers.now from.now to.now own.now) count)) }
{
    let mut end = at;
    for i in 0..count {
        end = put_part(out, end, lent, own, kinds[i], numbers[i], from[i], to[i]);
        out[end] = separator(i, count);
        end += 1;
    }
    out[end] = b'\n';
    end + 1
}

// Puts a line of parts at a place, where it has room there with the closing 1Ah after it, and answers where it ends. Else no byte changes, and the answer is
// the place itself, which a line that was put never ends at.
pub fn put(
    out: &mut [u8],
    at: usize,
    count: usize,
    lent: &[u8],
    kinds: &[u8; PARTS],
    numbers: &[u16; PARTS],
    from: &[usize; PARTS],
    to: &[usize; PARTS],
    own: &[u8],
) -> usize
    ensures { record { end = result; buffer = out.new } ≡ put_parts out.old at count lent.now (laid kinds.now numbers.now from.now to.now own.now) }
{
    if PARTS < count {
        return at;
    }
    if !has_room(out.len(), at, count, lent, kinds, numbers, from, to, own) {
        return at;
    }
    put_line(out, at, count, lent, kinds, numbers, from, to, own)
}
