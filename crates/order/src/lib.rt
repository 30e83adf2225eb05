// Which record number may follow which in a prescription file. Record numbers rise through the header, through an RP and through a drug, so
// the last number alone says how far the file has come; it is 0 before the first record.
#![tactic(auto)]

ghost use Rattle.std.specs.Prelude.{◌≡◌};
ghost use Rattle.order.specs.Order.{among, records};
ghost use Rattle.order.specs.Code.Known.{in_header, in_rp};
ghost use Rattle.order.specs.Next.{between as between_of, skips as skips_of, rises as rises_of, anew as anew_of, may as may_of, refusal as refusal_of, follow as follow_of, standing, closes as closes_of};

// Those that are never left out.
const NEEDED: [u16; 11] = [1, 5, 11, 12, 13, 22, 23, 51, 101, 111, 201];

// A header record's number: 1 to 5, 11 to 14, 21 to 25, 27 to 31, 51, 52, 61 to 63, 81, 82.
fn in_header(n: u16) -> bool
    ensures { result ≡ in_header n }
{
    matches!(n, 1..=5 | 11..=14 | 21..=25 | 27..=31 | 51..=52 | 61..=63 | 81..=82)
}

// The number of a record of an RP or of a drug.
fn in_rp(n: u16) -> bool
    ensures { result ≡ in_rp n }
{
    matches!(n, 101 | 102 | 111 | 181 | 201 | 211 | 221 | 231 | 241 | 281)
}

// Is it the number of a record?
pub fn known(n: u16) -> bool
    ensures { result ≡ among records n }
{
    in_header(n) | in_rp(n)
}

// Does m lie between the last number and n?
fn between(last: u16, n: u16, m: u16) -> bool
    ensures { result ≡ between_of last n m }
{
    (last < m) & (m < n)
}

// Does n leave out a needed record, coming straight after the last one? All are looked at, so that they are tested side by side.
fn skips(last: u16, n: u16) -> bool
    ensures { result ≡ skips_of last n }
{
    let mut skipped = false;
    for &m in &NEEDED {
        skipped |= between(last, n, m);
    }
    skipped
}

// Is n above the last number, or a record that repeats?
fn rises(last: u16, n: u16) -> bool
    ensures { result ≡ rises_of last n }
{
    (last < n) | ((last == n) & ((n == 81) | ((n == 181) | (n == 281))))
}

// Does n begin the next RP or the next drug, after a drug?
fn anew(last: u16, n: u16) -> bool
    ensures { result ≡ anew_of last n }
{
    (201 <= last) & ((n == 101) | (n == 201))
}

// May the record number n stand after the last one?
fn may(last: u16, n: u16) -> bool
    ensures { result ≡ may_of last n }
{
    anew(last, n) || (rises(last, n) && !skips(last, n))
}

// 32 where records put before n would help it: a header record that does not rise is past help.
fn refusal(last: u16, n: u16) -> u16
    ensures { result ≡ refusal_of last n }
{
    if (101 <= n) | (last < n) { 32 } else { 24 }
}

// What a record number is told after the last one: 23 where it is unknown, 24 or 32 where it may not stand.
pub fn follow(last: u16, n: u16) -> Result<(), u16>
    ensures { result ≡ standing (follow_of last n) }
{
    if !known(n) {
        return Err(23);
    }
    if may(last, n) {
        Ok(())
    } else {
        Err(refusal(last, n))
    }
}

// May the file end after the last record?
pub fn closes(last: u16) -> bool
    ensures { result ≡ closes_of last }
{
    201 <= last
}
