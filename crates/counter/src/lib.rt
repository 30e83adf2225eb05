// RP number, drug serial and supplement serial: three separate counters, each a type of its own, so that none is compared with another.
// Kept: one type over the three would be one to compare.
#![tactic(auto)]

ghost use Rattle.std.specs.Prelude.{◌≡◌, ◌+◌, eqb};
ghost use Rattle.counter.specs.Counter.{rises as rises_of, carries as carries_of, next_drug, next_supplement};

// 1 to 999; 0 before the first.
#[derive(Clone, Copy)]
pub struct RpNumber(pub u16);

// 1 to 99; 0 before the first of an RP.
#[derive(Clone, Copy)]
pub struct DrugSerial(pub u16);

// 1 to 99; 0 before the first of an RP.
#[derive(Clone, Copy)]
pub struct SupplementSerial(pub u16);

// Is a number one more than the last one?
fn one_more(last: u16, next: u16) -> bool
    ensures { result ≡ eqb (last + 1) next }
{
    u32::from(last) + 1 == u32::from(next)
}

impl RpNumber {
    // Is the number of the next RP above this one?
    pub fn rises(self, next: RpNumber) -> bool
        ensures { result ≡ rises_of self next }
    {
        self.0 < next.0
    }

    // Does a record carry the number of this RP?
    pub fn carries(self, carried: RpNumber) -> bool
        ensures { result ≡ carries_of self carried }
    {
        self.0 == carried.0
    }
}

impl DrugSerial {
    // Is it the serial of the drug after this one?
    pub fn next_drug(self, drug: DrugSerial) -> bool
        ensures { result ≡ next_drug self drug }
    {
        one_more(self.0, drug.0)
    }
}

impl SupplementSerial {
    // Is it the serial of the supplement after this one?
    pub fn next_supplement(self, supplement: SupplementSerial) -> bool
        ensures { result ≡ next_supplement self supplement }
    {
        one_more(self.0, supplement.0)
    }
}
