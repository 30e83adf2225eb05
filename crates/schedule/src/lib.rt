// The supplements of one RP: one I, W or C, or one run of date codes for the issue month. What a further one is judged by is kept in numbers.
#![tactic(auto)]

ghost use Rattle.std.specs.Prelude.{◌≡◌, []};
ghost use Rattle.cells.specs.Text.{among};
ghost use Rattle.schedule.specs.Kept.{kept, may_join, keep_of};

use days::Last;
use supplement::Supplement;

// The letter of the last supplement, 0 where there is none yet; of a date code its month, its last day, and whether it has six days.
// Kept: a reader's state is these numbers for C, which are all 0 before the first supplement.
#[derive(Clone, Copy)]
pub struct Schedule {
    pub letter: u8,
    pub month: u8,
    pub last: u8,
    pub full: bool,
}

// The list of an RP that has no supplement yet.
pub fn none() -> Schedule
    ensures { result ≡ kept [] }
{
    Schedule {
        letter: 0,
        month: 0,
        last: 0,
        full: false,
    }
}

// May an RP's list begin with such a letter?
#[tactic(auto, unfolding(cells::specs::Text::among))]
fn opens(letter: u8) -> bool
    ensures { result ≡ among "IWCD" letter }
{
    matches!(letter, b'I' | b'W' | b'C' | b'D')
}

// May a supplement stand after those of its RP that are kept?
pub fn joins(issue: u8, t: Schedule, x: Supplement) -> bool
    ensures { result ≡ may_join issue t x }
{
    if t.letter == 0 {
        return opens(x.letter);
    }
    if (t.letter == b'D') & (x.letter == b'D') {
        let last = Last {
            month: t.month,
            day: t.last,
            full: t.full,
        };
        return last.goes_on(issue, x.month, x.days.d1);
    }
    false
}

// What is kept of an RP's list once a supplement stands in it.
pub fn with(x: Supplement) -> Schedule
    ensures { result ≡ keep_of x }
{
    let last = Last::of(x.month, x.days);
    Schedule {
        letter: x.letter,
        month: last.month,
        last: last.day,
        full: last.full,
    }
}
