// The calls that write a sheet record by record, on numbers and bytes. A refusal leaves every lent array as it was, but for the one that says
// why.
#![tactic(auto)]

ghost use Rattle.std.specs.Prelude.{◌≡◌};
ghost use Rattle.writer.specs.Writer.{open_buffer, put_record, close_buffer};
ghost use Rattle.plain_record.specs.Records.{record_of};
ghost use Rattle.writer_calls.specs.State.{writer_numbers, writer_of};
ghost use Rattle.writer_calls.specs.Calls.{OpensBuffer, Puts};

use plain_record::RECORD;
use told::STATE;

// ---- the state

// A writer's state of its numbers.
fn writer_state(n: &[u64]) -> writer::State
    ensures { result ≡ writer_of n.now }
{
    writer::State {
        at: plain::at(n, 0) as usize,
        closed: plain::at(n, 1) != 1,
        sofar: told::sofar(n),
    }
}

// A writer's numbers, which are held as its state.
fn put_writer(t: writer::State, n: &mut [u64; STATE])
    ensures { (n.new ≡ writer_numbers t) × (writer_of n.new ≡ t) }
{
    told::put_state(t.at as u64, !t.closed as u64, t.sofar, n);
}

// ---- the calls

// Opens a buffer to write a sheet.
pub fn open(out: &mut [u8], state: &mut [u64; STATE]) -> u16
    ensures { OpensBuffer (open_buffer out.old) state.old result out.new state.new }
{
    let opened = writer::open(out);
    let t = opened.state;
    if opened.number == 0 {
        put_writer(t, state);
    }
    opened.number
}

// Puts a record.
pub fn put(
    out: &mut [u8],
    state: &mut [u64; STATE],
    numbers: &[u64; RECORD],
    lent: &[u8],
    own: &mut u64,
) -> u16
    ensures { Puts (put_record out.old (writer_of state.old) (record_of numbers.now) lent.now) state.old result own.new out.new state.new }
{
    let put = writer::put(
        out,
        writer_state(state),
        plain_record::record(numbers),
        lent,
    );
    let t = put.state;
    *own = put.own as u64;
    if put.number == 0 {
        put_writer(t, state);
    }
    put.number
}

// Writes the end.
pub fn close(out: &mut [u8], state: &mut [u64; STATE], own: &mut u64) -> u16
    ensures { Puts (close_buffer out.old (writer_of state.old)) state.old result own.new out.new state.new }
{
    let closed = writer::close(out, writer_state(state));
    let t = closed.state;
    *own = closed.own as u64;
    if closed.number == 0 {
        put_writer(t, state);
    }
    closed.number
}
