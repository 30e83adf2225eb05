// A sheet that is taken, written again: the reader and the writer, one after the other.
#![tactic(auto)]

ghost use Rattle.std.specs.Prelude.{◌≡◌, ◌++◌, ◌≤◌, length, drop};
ghost use Rattle.reader.specs.File.{whole, read_file};
ghost use Rattle.rewriter.specs.Rewritten.{rewritten};

use record::Refusal;

// Puts every record of a whole file into a draft, with the file lent beside it, and closes it: how many bytes that makes.
fn put_all(s: &[u8], out: &mut [u8]) -> Result<usize, Refusal>
    requires { ((read_file s.now).ending ≡ whole) × (length s.now ≤ length out.old) }
    ensures { (out.new ≡ s.now ++ drop (length s.now) out.old) × (result ≡ Ok (length s.now)) }
{
    let mut from = reader::open(s);
    let mut told = draft::begin(out);
    loop {
        let step = reader::next(s, from);
        match step.next? {
            Some(r) => {
                told = draft::add(out, told, r, s);
                from = step.state;
            }
            None => {
                return Ok(draft::finish(out, told).state.at);
            }
        }
    }
}

// Writes a sheet that is taken again, record by record, into a lent buffer, and tells how many bytes that makes; 0, and no byte changed, where
// the sheet is refused or the buffer is shorter than it.
pub fn rewrite(s: &[u8], out: &mut [u8]) -> usize
    ensures { record { length = result; buffer = out.new } ≡ rewritten s.now out.old }
{
    if out.len() < s.len() {
        return 0;
    }
    match sheet::walk(s) {
        Err(_) => 0,
        Ok(()) => put_all(s, out).unwrap_or(0),
    }
}
