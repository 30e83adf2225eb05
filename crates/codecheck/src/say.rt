// Answers in words, on standard output.
use cells::Fault;
use date::Date;
use days::{DaySet, Halt};
use supplement::{Days, Supplement, Week};
use usage::{Event, Hours, Instruction, Occasions};

pub fn words(rt: &impl Print, text: &[u8]) {
    streams::write_all(rt, text)
}

// The character of a value.
fn letter(v: u8) -> char {
    char::from(cells::letter(v))
}

pub fn unknown(rt: &impl Print) {
    words(rt, b"unknown question")
}

pub fn refusal(rt: &impl Print, f: Fault) {
    streams::print(rt, format_args!("refused {} {}", f.number, f.place))
}

// Is a code that was read the one that is written for it?
pub fn same(rt: &impl Print, yes: bool) {
    words(rt, if yes { b"same" } else { b"different" })
}

// A date as it is written.
pub fn date(rt: &impl Print, t: Date) {
    words(rt, b"taken ");
    if let Some(text) = date::print(t) {
        words(rt, first(&text.bytes, text.length as usize))
    }
}

pub fn instruction(rt: &impl Print, i: Instruction) {
    let class = if i.class == 1 { "oral" } else { "external" };
    let detail = letter(i.detail);
    streams::print(
        rt,
        format_args!("taken class={class};detail={detail};kind={}", i.kind),
    );
    if i.kind == 5 {
        return event(rt, i.event);
    }
    streams::print(rt, format_args!(";times={}", i.times));
    match i.kind {
        1 => meals(rt, i.occasions),
        2 => hour(rt, "start", i.start),
        3 => clock(rt, i.hours),
        6 => outside(rt, i.occasions),
        _ => streams::print(rt, format_args!(";about={}", letter(i.about))),
    }
}

fn meals(rt: &impl Print, o: Occasions) {
    let at15 = u8::from(o.hour == 15);
    streams::print(
        rt,
        format_args!(
            ";bedtime={};supper={};lunch={};breakfast={};waking={};at15={at15}",
            o.bedtime, o.supper, o.lunch, o.breakfast, o.waking,
        ),
    )
}

fn outside(rt: &impl Print, o: Occasions) {
    let evening = letter(o.supper);
    let morning = letter(o.breakfast);
    streams::print(
        rt,
        format_args!(
            ";bedtime={};evening={evening};noon={};morning={morning};waking={}",
            o.bedtime, o.lunch, o.waking,
        ),
    );
    hour(rt, "hour", o.hour)
}

// An hour, `-` for none.
fn hour(rt: &impl Print, name: &str, h: u8) {
    if h == 24 {
        return streams::print(rt, format_args!(";{name}=-"));
    }
    streams::print(rt, format_args!(";{name}={h}"))
}

fn event(rt: &impl Print, e: Event) {
    let (group, event) = (letter(e.group), letter(e.event));
    let (condition, interval, limit) = (letter(e.condition), letter(e.interval), letter(e.limit));
    streams::print(
        rt,
        format_args!(
            ";event={group}{event};condition={condition};interval={interval};limit={limit}"
        ),
    )
}

// The hours, whatever they are at first, and then those that are there.
fn clock(rt: &impl Print, h: Hours) {
    words(rt, b";hours=");
    listed(rt, &[h.h1, h.h2, h.h3, h.h4, h.h5, h.h6, h.h7, h.h8], 24)
}

// The first number, and each other that is not the one which stands for none, parted by commas.
fn listed(rt: &impl Print, numbers: &[u8], none: u8) {
    for (k, n) in numbers.iter().enumerate() {
        if k == 0 {
            streams::print(rt, *n);
        } else if *n != none {
            streams::print(rt, format_args!(",{n}"));
        }
    }
}

pub fn supplement(rt: &impl Print, x: Supplement) {
    streams::print(
        rt,
        format_args!("taken supplement={}", char::from(x.letter)),
    );
    match x.letter {
        b'I' => streams::print(rt, format_args!(";on={};off={}", x.on, x.off)),
        b'W' => week(rt, x.week),
        b'D' => dates(rt, x.month, x.days),
        b'C' => streams::print(
            rt,
            format_args!(";period={};count={}", char::from(x.period), x.count),
        ),
        _ => streams::print(
            rt,
            format_args!(
                ";order={};digits={};places={}",
                x.order, x.figures, x.places
            ),
        ),
    }
}

fn week(rt: &impl Print, w: Week) {
    streams::print(
        rt,
        format_args!(
            ";days={},{},{},{},{},{},{}",
            w.sunday, w.monday, w.tuesday, w.wednesday, w.thursday, w.friday, w.saturday,
        ),
    )
}

fn dates(rt: &impl Print, month: u8, d: Days) {
    streams::print(rt, format_args!(";month={month};days="));
    listed(rt, &[d.d1, d.d2, d.d3, d.d4, d.d5, d.d6], 0)
}

// A run's days, or its refusal, with the code's place in the run for a code's own.
pub fn run(rt: &impl Print, r: Result<DaySet, Halt>) {
    match r {
        Ok(set) => days(rt, set),
        Err(h) => {
            streams::print(rt, format_args!("refused {} {}", h.number, h.place));
            if h.code != 0 {
                streams::print(rt, format_args!(" code {}", h.code));
            }
        }
    }
}

// The cells of a set that have days, parted by `/`; there is at least one.
fn days(rt: &impl Print, set: DaySet) {
    words(rt, b"taken");
    let mut mark = ' ';
    for (m, mask) in set.cells.iter().enumerate() {
        if *mask != 0 {
            streams::print(rt, format_args!("{mark}{m}"));
            cell_days(rt, *mask);
            mark = '/';
        }
    }
}

fn cell_days(rt: &impl Print, mask: u32) {
    let mut mark = ':';
    for bit in 0..32u32 {
        if mask >> bit & 1 == 1 {
            streams::print(rt, format_args!("{mark}{}", bit + 1));
            mark = ',';
        }
    }
}

// How many codes, and their characters.
pub fn codes(rt: &impl Print, n: usize, codes: &[u8; 536]) {
    streams::print(rt, format_args!("written {n} "));
    if n <= 67 {
        words(rt, first(codes, 8 * n))
    }
}

fn first(codes: &[u8], n: usize) -> &[u8] {
    codes.get(..n).unwrap_or(&[])
}
