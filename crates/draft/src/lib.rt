// A prescription sheet being written: the writer, carrying the lent buffer along with its place.
#![tactic(auto)]

ghost use Rattle.std.specs.Prelude.{◌≡◌};
ghost use Rattle.writer.specs.Writer.{open_buffer, put_record, close_buffer};
ghost use Rattle.draft.specs.Draft.{left};

use record::Record;
use writer::Told;

// The lent buffer, and what the last call told: its number, and where the writer is.
#[derive(Drop)]
pub struct Draft<'a> {
    pub out: &'a mut [u8],
    pub told: Told,
}

// Opens a buffer: the version line.
pub fn open<'a>(out: &'a mut [u8]) -> Draft<'a>
    ensures { result ≡ left out.entry (open_buffer out.old) }
{
    let told = writer::open(&mut *out);
    Draft { out, told }
}

// Puts a record, whose texts lie in the lent bytes.
pub fn put<'a, 'b>(d: Draft<'a>, r: Record, lent: &'b [u8]) -> Draft<'a>
    ensures { result ≡ left d.entry.out (put_record d.entry.out.now d.entry.told.state r lent.now) }
{
    let t = d.told.state;
    let told = writer::put(&mut *d.out, t, r, lent);
    Draft { out: d.out, told }
}

// Writes the end: the 1Ah.
pub fn close<'a>(d: Draft<'a>) -> Draft<'a>
    ensures { result ≡ left d.entry.out (close_buffer d.entry.out.now d.entry.told.state) }
{
    let t = d.told.state;
    let told = writer::close(&mut *d.out, t);
    Draft { out: d.out, told }
}

// The draft that is there of a buffer and what the last call told, with one record more;
fn grown<'a, 'b>(out: &'a mut [u8], told: Told, r: Record, lent: &'b [u8]) -> Draft<'a>
    ensures { result ≡ left out.entry (put_record out.old told.state r lent.now) }
{
    put(Draft { out, told }, r, lent)
}

// and with the end.
fn ended<'a>(out: &'a mut [u8], told: Told) -> Draft<'a>
    ensures { result ≡ left out.entry (close_buffer out.old told.state) }
{
    close(Draft { out, told })
}

// The same three calls on a buffer and what the last call told: each makes the draft that is there, and lets go of it. They speak of no draft, so
// whoever calls them carries no struct with what was lent.
pub fn begin(out: &mut [u8]) -> Told
    ensures { record { put = result; buffer = out.new } ≡ open_buffer out.old }
{
    open(out).told
}

// One record more.
pub fn add(out: &mut [u8], told: Told, r: Record, lent: &[u8]) -> Told
    ensures { record { put = result; buffer = out.new } ≡ put_record out.old told.state r lent.now }
{
    grown(out, told, r, lent).told
}

// The end.
pub fn finish(out: &mut [u8], told: Told) -> Told
    ensures { record { put = result; buffer = out.new } ≡ close_buffer out.old told.state }
{
    ended(out, told).told
}
