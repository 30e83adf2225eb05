// The call that tells an RP's dose calendar, on numbers and bytes; include/yawsimbel.h has its layout. A refusal leaves the lent output as it was. It is
// not among `capi`'s, so that the static library has it as a module of its own: the reader's code is laid out in each by itself, and who tells no
// calendar links nothing of this one.
#![tactic(auto)]

ghost use Rattle.std.specs.Prelude.{length};
ghost use Rattle.day.specs.Day.{day as day_by};
ghost use Rattle.dose_calendar.specs.Calendar.{calendar_of};
ghost use Rattle.calendar_calls.specs.Calls.{Tells};

use told::REFUSAL;

// The doses of each of so many days of an RP, from a start date on.
#[unsafe(no_mangle)]
pub extern "C" fn yws_calendar(
    file: &[u8],
    rp: u32,
    year: u32,
    month: u32,
    day: u32,
    days: u32,
    doses: &mut [u8],
    refusal: &mut [u64; REFUSAL],
) -> u16
    ensures { Tells (calendar_of file.now rp (day_by year month day) days (length doses.old)) doses.old result refusal.new doses.new }
{
    match dose_calendar::fill(file, rp, year, month, day, days, doses) {
        Ok(()) => {
            *refusal = [0; REFUSAL];
            0
        }
        Err(f) => told::put_refusal(f, refusal),
    }
}
