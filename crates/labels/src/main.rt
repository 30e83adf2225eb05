// Reads a sheet from standard input and prints its bag labels, or the refusal.
#![tactic(auto)]

// Room for the longest sheet, and for one byte more by which a longer one is known.
fn main(rt: HostRuntime) {
    let mut room = [0u8; 16385];
    let mut input = rt.reader();
    let n = streams::read_full(&mut input, &mut room);
    let _ = label::sheet(&rt, &room[..n]);
}
