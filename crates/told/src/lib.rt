// A state and an answer as plain numbers: what is left in the arrays that a call on a sheet is lent, and what it returns.
#![tactic(auto)]

ghost use Rattle.std.specs.Prelude.{◌≡◌};
ghost use Rattle.told.specs.States.{state_numbers, schedule_of, sofar_of, open_of, reader_numbers, reader_of};
ghost use Rattle.told.specs.Answers.{refused_number, refusal_numbers};

use counter::{DrugSerial, RpNumber, SupplementSerial};
use field::Before;
use record::{Refusal, Sofar};
use schedule::Schedule;

// How many numbers a state has.
pub const STATE: usize = 16;

// How many say where a sheet is refused.
pub const REFUSAL: usize = 4;

// ---- states

fn schedule_of(n: &[u64]) -> Schedule
    ensures { result ≡ schedule_of n.now }
{
    Schedule {
        letter: plain::byte_at(n, 7),
        month: plain::byte_at(n, 8),
        last: plain::byte_at(n, 9),
        full: plain::flag_at(n, 10),
    }
}

// What the records before leave, of a state's numbers.
pub fn sofar(n: &[u64]) -> Sofar
    ensures { result ≡ sofar_of n.now }
{
    Sofar {
        last: plain::half_at(n, 2),
        before: Before {
            month: plain::byte_at(n, 3),
            rp: RpNumber(plain::half_at(n, 4)),
            drug: DrugSerial(plain::half_at(n, 5)),
            supplement: SupplementSerial(plain::half_at(n, 6)),
            schedule: schedule_of(n),
        },
    }
}

// The number of a reader whose second number this is: one less, as far as sixteen bits have room; 24, which no opening tells, for 0.
fn open_of(n: u64) -> u16
    ensures { result ≡ open_of n }
{
    if n == 0 {
        return 24;
    }
    if n < 65536 {
        return (n - 1) as u16;
    }
    65535
}

// A reader's state of its numbers.
// Kept: a place is a usize, which std makes no u64 of by From, nor back: `as`, here and below.
pub fn reader_state(n: &[u64]) -> reader::State
    ensures { result ≡ reader_of n.now }
{
    reader::State {
        number: open_of(plain::at(n, 1)),
        at: plain::at(n, 0) as usize,
        sofar: sofar(n),
    }
}

// The numbers of a reader's or a writer's state, in the caller's array: where it is, whether it is open, and what the records before leave.
pub fn put_state(at: u64, opened: u64, c: Sofar, n: &mut [u64; STATE])
    ensures { (n.new ≡ state_numbers at opened c) × (sofar_of n.new ≡ c) }
{
    let b = c.before;
    let s = b.schedule;
    *n = [0; STATE];
    n[0] = at;
    n[1] = opened;
    n[2] = u64::from(c.last);
    n[3] = u64::from(b.month);
    n[4] = u64::from(b.rp.0);
    n[5] = u64::from(b.drug.0);
    n[6] = u64::from(b.supplement.0);
    n[7] = u64::from(s.letter);
    n[8] = u64::from(s.month);
    n[9] = u64::from(s.last);
    n[10] = u64::from(s.full);
}

// A reader's numbers, which are held as its state.
pub fn put_reader(t: reader::State, n: &mut [u64; STATE])
    ensures { (n.new ≡ reader_numbers t) × (reader_of n.new ≡ t) }
{
    put_state(t.at as u64, u64::from(t.number) + 1, t.sofar, n);
}

// ---- answers

// Where and why a sheet is refused: the number is handed back.
pub fn put_refusal(f: Refusal, refusal: &mut [u64; REFUSAL]) -> u16
    ensures { (result ≡ refused_number f) × (refusal.new ≡ refusal_numbers f) }
{
    *refusal = [
        f.at as u64,
        f.field as u64,
        u64::from(f.code),
        f.fault.place as u64,
    ];
    f.fault.number
}
