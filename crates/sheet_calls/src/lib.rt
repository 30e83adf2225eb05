// The calls that check a sheet and read it record by record, on numbers and bytes. A refusal leaves every lent array as it was, but for the one
// that says where and why.
#![tactic(auto)]

ghost use Rattle.reader.specs.File.{check_file};
ghost use Rattle.reader.specs.Reader.{open_file, next_record};
ghost use Rattle.told.specs.States.{reader_of};
ghost use Rattle.sheet_calls.specs.Calls.{Checks, Opens, Steps};

use plain_record::RECORD;
use told::{REFUSAL, STATE};

// Checks a sheet.
pub fn check(file: &[u8], records: &mut u64, refusal: &mut [u64; REFUSAL]) -> u16
    ensures { Checks (check_file file.now) records.old result refusal.new records.new }
{
    match reader::check(file) {
        Ok(n) => {
            *records = n as u64;
            *refusal = [0; REFUSAL];
            0
        }
        Err(f) => told::put_refusal(f, refusal),
    }
}

// Opens a sheet to read.
pub fn open(file: &[u8], state: &mut [u64; STATE]) -> u16
    ensures { Opens (open_file file.now) result state.new }
{
    let t = reader::open(file);
    told::put_reader(t, state);
    t.number
}

// The next record of a sheet.
pub fn next(
    file: &[u8],
    state: &mut [u64; STATE],
    numbers: &mut [u64; RECORD],
    refusal: &mut [u64; REFUSAL],
) -> u16
    ensures { Steps (next_record file.now (reader_of state.old)) state.old numbers.old result refusal.new state.new numbers.new }
{
    let step = reader::next(file, told::reader_state(state));
    match step.next {
        Ok(handed) => {
            *refusal = [0; REFUSAL];
            match handed {
                Some(r) => {
                    told::put_reader(step.state, state);
                    plain_record::put_record(r, numbers);
                    0
                }
                None => 65535,
            }
        }
        Err(f) => told::put_refusal(f, refusal),
    }
}
