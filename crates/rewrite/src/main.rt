// Reads a sheet from standard input, writes it again record by record and prints the bytes that were written; of a sheet that is refused it
// prints the refusal.
#![tactic(auto)]

// Room for the longest sheet, and for one byte more by which a longer one is known.
fn main(rt: HostRuntime) {
    let mut room = [0u8; 16385];
    let mut input = rt.reader();
    let n = streams::read_full(&mut input, &mut room);
    let mut again = [0u8; 16384];
    rewrite_sheet(&rt, &room[..n], &mut again)
}

fn rewrite_sheet(rt: &impl Print, s: &[u8], again: &mut [u8]) {
    let n = rewriter::rewrite(s, again);
    if n == 0 {
        let _ = report::sheet(rt, s);
        return;
    }
    streams::write_all(rt, &again[0..n]);
}
