// The codes of a sheet that is taken: each is written again from what it was read as, and compared with the sheet's own, character by character.
use record::{Record, Refusal};

// How many codes were written again, and how many of them came out otherwise.
#[derive(Clone, Copy, Default)]
pub struct Again {
    usage: u64,
    supplementary: u64,
    different: u64,
}

impl Again {
    // One line over all sheets.
    pub fn tell(self, rt: &impl Print) {
        streams::print(
            rt,
            format_args!(
                "{} usage codes and {} supplementary codes written again, {} of them differently\n",
                self.usage, self.supplementary, self.different,
            ),
        )
    }

    // Record by record; a sheet that is taken ends with no refusal.
    pub fn add_sheet(&mut self, rt: &impl Print, s: &[u8]) -> Result<(), Refusal> {
        let mut t = reader::open(s);
        loop {
            let step = reader::next(s, t);
            match step.next? {
                Some(r) => {
                    self.add_record(rt, s.get(t.at..).unwrap_or(&[]), r);
                    t = step.state;
                }
                None => return Ok(()),
            }
        }
    }

    // The code of a record whose line a text begins with: the third field of a 111, the fifth of a 181.
    fn add_record(&mut self, rt: &impl Print, line: &[u8], r: Record) {
        match r {
            Record::Usage(x) => {
                if let Some(i) = x.code {
                    self.usage = self.usage.saturating_add(1);
                    let written = usage_writer::write(i).unwrap_or([0; 16]);
                    self.compare(rt, &written, field(line, 3));
                }
            }
            Record::Supplement(x) => {
                if let Some(c) = x.code {
                    self.supplementary = self.supplementary.saturating_add(1);
                    let written = supplement_writer::write(c).unwrap_or([0; 8]);
                    self.compare(rt, &written, field(line, 5));
                }
            }
            _ => {}
        }
    }

    // A code that comes out otherwise is told in its place too.
    fn compare(&mut self, rt: &impl Print, written: &[u8], field: &[u8]) {
        let read = field.get(..written.len());
        if !read.is_some_and(|read| cells::same_bytes(written, read)) {
            streams::write_all(rt, b"  code written differently\n");
            self.different = self.different.saturating_add(1);
        }
    }
}

// What stands behind the kth comma.
fn field(line: &[u8], k: usize) -> &[u8] {
    let mut rest = line;
    for _ in 0..k {
        match streams::split_once(rest, b',') {
            Some((_, behind)) => rest = behind,
            None => return &[],
        }
    }
    rest
}
