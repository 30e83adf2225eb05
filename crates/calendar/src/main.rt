// Reads a question for a dose calendar and a sheet from standard input, and prints the doses of each day, or why there are none.
#![tactic(auto)]

// Room for the longest question, the longest sheet, and one byte more by which a longer one is known.
fn main(rt: HostRuntime) {
    let mut room = [0u8; 32768];
    let mut input = rt.reader();
    let n = streams::read_full(&mut input, &mut room);
    let _ = dose_report::answer(&rt, &room[..n]);
}
