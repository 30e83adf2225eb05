// A prescription sheet being read: the reader, carrying the lent file along with its place.
#![tactic(auto)]

ghost use Rattle.std.specs.Prelude.{◌≡◌};
ghost use Rattle.record.specs.Record.{text_at};
ghost use Rattle.reader.specs.Said.{said};
ghost use Rattle.reader.specs.File.{read_file};
ghost use Rattle.reader.specs.Reader.{open_file, next_record, ending_of};
ghost use Rattle.sheet.specs.Walk.{Ends, how_it_ends};

use reader::{State, Step};
use record::{Place, Refusal};

// The lent file, and where the reader is in it.
#[derive(Clone, Copy)]
pub struct Sheet<'a> {
    pub file: &'a [u8],
    pub state: State,
}

// Opens a file.
pub fn open<'a>(file: &'a [u8]) -> Sheet<'a>
    ensures { result ≡ record { file = file.entry; state = open_file file.entry.now } }
{
    let state = reader::open(file);
    Sheet { file, state }
}

// The next record, the refusal or the end, and the state to go on with.
pub fn next<'a>(r: Sheet<'a>) -> Step
    ensures { said result ≡ next_record r.entry.file.now r.entry.state }
{
    reader::next(r.file, r.state)
}

// The sheet after a step: the same file, and the state that the step gives to go on with.
pub fn after<'a>(r: Sheet<'a>, s: Step) -> Sheet<'a>
    ensures { result ≡ record { file = r.entry.file; state = s.state } }
{
    Sheet {
        file: r.file,
        state: s.state,
    }
}

// A text of a record: that part of the lent file.
pub fn text<'a>(r: Sheet<'a>, p: Place) -> &'a [u8]
    ensures { result.now ≡ text_at r.entry.file.now p }
{
    record::text(r.file, p)
}

// The sheet read to its end, or to its refusal.
fn last<'a>(r: Sheet<'a>) -> Result<(), Refusal>
    ensures { Ends r.entry.file.now (ending_of (how_it_ends result)) r.entry.state }
{
    let mut t = r;
    loop {
        let s = next(t);
        if s.next?.is_none() {
            return Ok(());
        }
        t = after(t, s);
    }
}

// How a file ends: the end, or its refusal. A sheet is opened and read to its end. It, `begin` and `step` speak of no sheet, so whoever calls them
// carries no struct with what was lent.
pub fn walk(file: &[u8]) -> Result<(), Refusal>
    ensures { how_it_ends result ≡ (read_file file.now).ending }
{
    last(open(file))
}

// The state that a file is read from on: a sheet is opened, and let go of.
pub fn begin(file: &[u8]) -> State
    ensures { result ≡ open_file file.now }
{
    open(file).state
}

// One step of the sheet that is at a state of a file.
pub fn step(file: &[u8], state: State) -> Step
    ensures { said result ≡ next_record file.now state }
{
    next(Sheet { file, state })
}
