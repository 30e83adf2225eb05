// The line that tells what a sheet is read as, on standard output.
#![tactic(auto)]

ghost use Rattle.std.specs.Prelude.{◌≡◌};
ghost use Rattle.reader.specs.Said.{said_check};
ghost use Rattle.reader.specs.File.{check_file};

use record::Refusal;

// The number of a refusal and where it stands: an offset of the file, or a record, and of it the field; for 29 the code's own number and place too.
fn refusal(rt: &impl Print, f: Refusal) {
    streams::print(rt, format_args!("refused {}", f.fault.number));
    if f.fault.number <= 22 {
        return streams::print(rt, format_args!(" offset {}", f.at));
    }
    streams::print(rt, format_args!(" record {}", f.at));
    if f.field != 0 {
        streams::print(rt, format_args!(" field {}", f.field));
    }
    if f.fault.number == 29 {
        streams::print(rt, format_args!(" code {} place {}", f.code, f.fault.place));
    }
}

// Checks a sheet, prints `ok N`, or `refused` with the number and its place, and hands back what it told.
pub fn sheet(rt: &impl Print, s: &[u8]) -> Result<usize, Refusal>
    ensures { said_check result ≡ check_file s.now }
{
    let r = reader::check(s);
    match r {
        Ok(n) => streams::print(rt, format_args!("ok {n}")),
        Err(f) => refusal(rt, f),
    }
    streams::write_all(rt, b"\n");
    r
}
