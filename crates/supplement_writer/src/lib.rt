// Writes supplementary codes: the eight characters that read as a record.
#![tactic(auto, using(cells::proofs::Tests::tests), unfolding(crate::specs::Print::whole, crate::specs::Print::column, crate::specs::Print::raw))]

ghost use Rattle.std.specs.Prelude.{◌≡◌, ◌+◌, ◌-◌, ◌<◌, ◌≤◌};
ghost use Rattle.supplement_writer.specs.Writes.{WritesSupplement};
ghost use Rattle.supplement_writer.specs.Print.{width as width_of, whole as whole_of, figure_at, column as column_of, raw_interval, raw_week, raw_date, raw_count, raw_amount, raw as raw_of};

use cells::Fault;
use supplement::{Days, Supplement, Week};

fn raw_interval(x: Supplement) -> [u8; 8]
    ensures { result ≡ raw_interval x }
{
    [
        x.letter,
        cells::letter(x.on),
        cells::letter(x.off),
        b'0',
        b'0',
        b'0',
        b'0',
        b'0',
    ]
}

fn raw_week(letter: u8, w: Week) -> [u8; 8]
    ensures { result ≡ raw_week letter w }
{
    [
        letter,
        cells::letter(w.sunday),
        cells::letter(w.monday),
        cells::letter(w.tuesday),
        cells::letter(w.wednesday),
        cells::letter(w.thursday),
        cells::letter(w.friday),
        cells::letter(w.saturday),
    ]
}

fn raw_date(letter: u8, month: u8, d: Days) -> [u8; 8]
    ensures { result ≡ raw_date letter month d }
{
    [
        letter,
        cells::letter(month),
        cells::letter(d.d1),
        cells::letter(d.d2),
        cells::letter(d.d3),
        cells::letter(d.d4),
        cells::letter(d.d5),
        cells::letter(d.d6),
    ]
}

fn raw_count(x: Supplement) -> [u8; 8]
    ensures { result ≡ raw_count x }
{
    [
        x.letter,
        x.period,
        cells::letter(x.count),
        b'0',
        b'0',
        b'0',
        b'0',
        b'0',
    ]
}

// How many digits a number has; 7 stands for 7 or more.
fn width(n: u32) -> u8
    ensures { result ≡ width_of 6 n }
{
    let mut m = n;
    for w in 1..7 {
        if m < 10 {
            return w;
        }
        m /= 10;
    }
    7
}

// How many of a number's digits stand before the point, where so many stand after it: at least one does.
fn whole(width: u8, places: u8) -> u8
    ensures { result ≡ whole_of width places }
{
    if width <= places {
        return 1;
    }
    width - places
}

// The character of the digit that stands so many places before a number's last one.
fn figure_at(n: u32, back: usize) -> u8
    ensures { result ≡ figure_at n back }
{
    let mut m = n;
    for _k in 0..back {
        m /= 10;
    }
    b'0' + (m % 10) as u8
}

// The character of an amount's jth column, from 0 on: its whole digits, a point before its decimals if it has any, then N.
fn column(n: u32, whole: u8, places: u8, j: usize) -> u8
    ensures { result ≡ column_of n whole places j }
{
    let w = usize::from(whole);
    let p = usize::from(places);
    if j < w {
        return figure_at(n, w + p - 1 - j);
    }
    if p == 0 {
        return b'N';
    }
    if j == w {
        return b'.';
    }
    if j <= w + p {
        return figure_at(n, w + p - j);
    }
    b'N'
}

fn raw_amount(x: Supplement) -> [u8; 8]
    ensures { result ≡ raw_amount x }
{
    let n = x.figures;
    let p = x.places;
    let w = whole(width(n), p);
    [
        x.letter,
        cells::letter(x.order),
        column(n, w, p, 0),
        column(n, w, p, 1),
        column(n, w, p, 2),
        column(n, w, p, 3),
        column(n, w, p, 4),
        column(n, w, p, 5),
    ]
}

// The only eight characters that can read as a record; where none do, any.
fn raw(x: Supplement) -> [u8; 8]
    ensures { result ≡ raw_of x }
{
    match x.letter {
        b'I' => raw_interval(x),
        b'W' => raw_week(x.letter, x.week),
        b'D' => raw_date(x.letter, x.month, x.days),
        b'C' => raw_count(x),
        _ => raw_amount(x),
    }
}

// Writes a supplementary code: the characters are read back, and stand only where they read as the record.
pub fn write(x: Supplement) -> Result<[u8; 8], Fault>
    ensures { WritesSupplement x result }
{
    let code = raw(x);
    match supplement::read(&code) {
        Ok(y) if y == x => Ok(code),
        _ => Err(Fault {
            number: 35,
            place: 0,
        }),
    }
}
