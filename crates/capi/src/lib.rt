// The public operations for C and Rust, on numbers and bytes. include/yawsimbel.h has the layout of each array. A refusal leaves every lent
// array as it was, but for the one that says where and why. A static library has the calls of one crate: these hand on to `code_calls`,
// `sheet_calls` and `writer_calls`.
#![tactic(auto)]

ghost use Rattle.usage.specs.Usage.{read_usage};
ghost use Rattle.usage.specs.declared.Instruction.{Instruction};
ghost use Rattle.supplement.specs.Supplement.{read_supplement};
ghost use Rattle.supplement.specs.declared.Supplement.{Supplement};
ghost use Rattle.days.specs.Run.{read_run};
ghost use Rattle.reader.specs.File.{check_file};
ghost use Rattle.reader.specs.Reader.{open_file, next_record};
ghost use Rattle.writer.specs.Writer.{open_buffer, put_record, close_buffer};
ghost use Rattle.plain.specs.Codes.{usage_numbers, instruction_of, supplement_numbers, supplement_of};
ghost use Rattle.plain_record.specs.Records.{record_of};
ghost use Rattle.told.specs.States.{reader_of};
ghost use Rattle.code_calls.specs.Answers.{make_styled};
ghost use Rattle.code_calls.specs.Calls.{Reads, ReadsRun, TellsSet, Makes, Writes};
ghost use Rattle.sheet_calls.specs.Calls.{Checks, Opens, Steps};
ghost use Rattle.writer_calls.specs.State.{writer_of};
ghost use Rattle.writer_calls.specs.Calls.{OpensBuffer, Puts};

use plain::{SUPPLEMENT, USAGE};
use plain_record::RECORD;
use told::{REFUSAL, STATE};

// ---- usage codes

// Reads a usage code.
#[unsafe(no_mangle)]
pub extern "C" fn yws_usage_read(code: &[u8], numbers: &mut [u64; USAGE], place: &mut u64) -> u16
    ensures { Reads Instruction usage_numbers (read_usage code.now) numbers.old result place.new numbers.new }
{
    code_calls::usage_read(code, numbers, place)
}

// Writes a usage code.
#[unsafe(no_mangle)]
pub extern "C" fn yws_usage_write(numbers: &[u64; USAGE], code: &mut [u8; 16]) -> u16
    ensures { Writes Instruction read_usage code.old (instruction_of numbers.now) result code.new }
{
    code_calls::usage_write(numbers, code)
}

// ---- supplementary codes

// Reads a supplementary code.
#[unsafe(no_mangle)]
pub extern "C" fn yws_supplement_read(
    code: &[u8],
    numbers: &mut [u64; SUPPLEMENT],
    place: &mut u64,
) -> u16
    ensures { Reads Supplement supplement_numbers (read_supplement code.now) numbers.old result place.new numbers.new }
{
    code_calls::supplement_read(code, numbers, place)
}

// Writes a supplementary code.
#[unsafe(no_mangle)]
pub extern "C" fn yws_supplement_write(numbers: &[u64; SUPPLEMENT], code: &mut [u8; 8]) -> u16
    ensures { Writes Supplement read_supplement code.old (supplement_of numbers.now) result code.new }
{
    code_calls::supplement_write(numbers, code)
}

// ---- runs and sets of days

// Reads a run of date codes.
#[unsafe(no_mangle)]
pub extern "C" fn yws_run_read(
    issue: u8,
    codes: &[u8],
    days: &mut [u32; 13],
    refusal: &mut [u64; 2],
) -> u16
    ensures { ReadsRun (read_run issue codes.now) days.old result refusal.new days.new }
{
    code_calls::run_read(issue, codes, days, refusal)
}

// Writes the run for a set of days.
#[unsafe(no_mangle)]
pub extern "C" fn yws_set_write(issue: u8, days: &[u32; 13], out: &mut [u8], count: &mut u64) -> u16
    ensures { TellsSet issue days.now out.old out.new result count.old count.new }
{
    code_calls::set_write(issue, days, out, count)
}

// ---- sheets, read

// Checks a sheet.
#[unsafe(no_mangle)]
pub extern "C" fn yws_sheet_check(
    file: &[u8],
    records: &mut u64,
    refusal: &mut [u64; REFUSAL],
) -> u16
    ensures { Checks (check_file file.now) records.old result refusal.new records.new }
{
    sheet_calls::check(file, records, refusal)
}

// Opens a sheet to read.
#[unsafe(no_mangle)]
pub extern "C" fn yws_sheet_open(file: &[u8], state: &mut [u64; STATE]) -> u16
    ensures { Opens (open_file file.now) result state.new }
{
    sheet_calls::open(file, state)
}

// The next record of a sheet.
#[unsafe(no_mangle)]
pub extern "C" fn yws_sheet_next(
    file: &[u8],
    state: &mut [u64; STATE],
    numbers: &mut [u64; RECORD],
    refusal: &mut [u64; REFUSAL],
) -> u16
    ensures { Steps (next_record file.now (reader_of state.old)) state.old numbers.old result refusal.new state.new numbers.new }
{
    sheet_calls::next(file, state, numbers, refusal)
}

// ---- sheets, written

// Opens a buffer to write a sheet.
#[unsafe(no_mangle)]
pub extern "C" fn yws_writer_open(out: &mut [u8], state: &mut [u64; STATE]) -> u16
    ensures { OpensBuffer (open_buffer out.old) state.old result out.new state.new }
{
    writer_calls::open(out, state)
}

// Puts a record.
#[unsafe(no_mangle)]
pub extern "C" fn yws_writer_put(
    out: &mut [u8],
    state: &mut [u64; STATE],
    numbers: &[u64; RECORD],
    lent: &[u8],
    own: &mut u64,
) -> u16
    ensures { Puts (put_record out.old (writer_of state.old) (record_of numbers.now) lent.now) state.old result own.new out.new state.new }
{
    writer_calls::put(out, state, numbers, lent, own)
}

// Writes the end.
#[unsafe(no_mangle)]
pub extern "C" fn yws_writer_close(out: &mut [u8], state: &mut [u64; STATE], own: &mut u64) -> u16
    ensures { Puts (close_buffer out.old (writer_of state.old)) state.old result own.new out.new state.new }
{
    writer_calls::close(out, state, own)
}

// ---- dates

// Makes a date.
#[unsafe(no_mangle)]
pub extern "C" fn yws_date_make(
    year: u16,
    month: u8,
    day: u8,
    style: u8,
    numbers: &mut [u64; 4],
    text: &mut [u8; 8],
) -> u16
    ensures { Makes (make_styled year month day style) numbers.old text.old result numbers.new text.new }
{
    code_calls::date_make(year, month, day, style, numbers, text)
}
