// Checks every sheet whose name stands on standard input, a name a line, and prints each name with the line that tells what the sheet is read as.
// A sheet that is taken is written again too, and a line of its own tells whether that gave the same bytes; each of its codes is written again
// by itself, and a last line tells how many came out otherwise. After the word `labels` a name asks for the sheet's bag labels instead, and after
// the word `calendar` for the dose calendar that the file's first line asks of the sheet behind it.
#![tactic(auto)]

mod codes;

use codes::Again;
use std::fs::File;
use std::io::Read;
use std::rt::Files;

fn main(rt: HostRuntime) {
    let mut room = [0u8; 65536];
    let mut input = rt.reader();
    let n = streams::read_full(&mut input, &mut room);
    check_each(&rt, &room[..n])
}

// Every name of the list, and what became of the codes of all its sheets. LF ends a name; the last may lack it.
fn check_each(rt: &(impl Files + Print), names: &[u8]) {
    let mut again = Again::default();
    for line in names.split_inclusive(|c| *c == b'\n') {
        tell_line(rt, line.strip_suffix(b"\n").unwrap_or(line), &mut again);
    }
    again.tell(rt)
}

// What a line asks of the file that it names.
#[derive(Clone, Copy)]
enum Asked {
    Sheet,
    Labels,
    Calendar,
}

fn tell_line(rt: &(impl Files + Print), line: &[u8], again: &mut Again) {
    if let Some(name) = line.strip_prefix(b"labels ") {
        return tell_file(rt, name, Asked::Labels, again);
    }
    if let Some(name) = line.strip_prefix(b"calendar ") {
        return tell_file(rt, name, Asked::Calendar, again);
    }
    tell_file(rt, line, Asked::Sheet, again)
}

// A file that can't be opened is told as one, and never passes for any answer. The room is a calendar's: for the longest question, the longest
// sheet, and one byte more by which a longer one is known.
fn tell_file(rt: &(impl Files + Print), name: &[u8], asked: Asked, again: &mut Again) {
    streams::write_all(rt, name);
    match opened(rt, name) {
        Some(mut file) => {
            let mut room = [0u8; 32768];
            let n = streams::read_full(&mut file, &mut room);
            tell_read(rt, &room[..n], asked, again)
        }
        None => streams::write_all(rt, b" cannot be opened\n"),
    }
}

// The file of that name, to be read. A name that is not UTF-8 names none.
fn opened<R: Files>(rt: &R, name: &[u8]) -> Option<R::File> {
    let path = str::from_utf8(name).ok()?;
    File::open(rt, path).ok()
}

fn tell_read(rt: &impl Print, s: &[u8], asked: Asked, again: &mut Again) {
    match asked {
        Asked::Sheet => {
            streams::write_all(rt, b" ");
            if report::sheet(rt, s).is_ok() {
                write_again(rt, s);
                let _ = again.add_sheet(rt, s);
            }
        }
        Asked::Labels => {
            streams::write_all(rt, b"\n");
            let _ = label::sheet(rt, s);
        }
        Asked::Calendar => {
            streams::write_all(rt, b" ");
            let _ = dose_report::answer(rt, s);
        }
    }
}

fn write_again(rt: &impl Print, s: &[u8]) {
    let mut again = [0u8; 16384];
    let n = rewriter::rewrite(s, &mut again);
    let same = again
        .get(..n)
        .is_some_and(|written| cells::same_bytes(s, written));
    streams::write_all(
        rt,
        if same {
            b"  written back\n"
        } else {
            b"  written differently\n"
        },
    )
}
