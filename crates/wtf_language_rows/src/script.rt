//! Scripts as lines, and lines as events or as what is wrong with them.

ghost use Rattle.std.specs.Prelude.{None};

use std::alloc::Global;
use wtf_base::{Bytes, OutOfMemory};
use wtf_dev::{Failed, MemSource, Source};
use wtf_model::{Event, Kind, Op, Seek, Verb};
use wtf_script::{Line, LineError, Lines, ReadError, parse_line};

/// A source that gives one byte a call.
#[derive(Drop)]
struct Slow<'a> {
    bytes: &'a [u8],
    at: usize,
    given: u64,
}

impl<'a> Source for Slow<'a> {
    ghost view = { λ s. record { faults = 0; given = s.given; rest = None } };

    fn read(&mut self, out: &mut [u8]) -> Result<usize, Failed> {
        if out.is_empty() || self.at >= self.bytes.len() {
            return Ok(0);
        }
        out[0] = self.bytes[self.at];
        self.at += 1;
        self.given = self.given.saturating_add(1);
        Ok(1)
    }
}

/// A source of a script, whose calls with these numbers fail.
fn source(alloc: Global, script: &[u8], fails: &[u64]) -> Result<MemSource, OutOfMemory> {
    let script = Vec::from_slice(alloc, script)?;
    Ok(MemSource::new(alloc, script, Vec::from_slice(alloc, fails)?))
}

/// What comes next of a script.
#[derive(Clone, Copy)]
enum Next {
    Whole(&'static [u8]),
    Long,
    End,
    Fault,
}

/// Whether this is the line that comes next.
fn is_line(line: &Line, next: Next) -> bool {
    match (line, next) {
        (Line::Whole(bytes), Next::Whole(want)) => bytes.as_slice() == want,
        (Line::Long, Next::Long) => true,
        _ => false,
    }
}

/// Whether this comes next of a script.
fn comes<I: Source>(lines: &mut Lines, source: &mut I, next: Next) -> bool {
    match lines.next(source) {
        Ok(Some(line)) => is_line(&line, next),
        Ok(None) => matches!(next, Next::End),
        Err(ReadError::Failed) => matches!(next, Next::Fault),
        Err(_) => false,
    }
}

/// Whether these come next, in order.
fn come<I: Source>(lines: &mut Lines, source: &mut I, all: &[Next]) -> bool {
    for next in all {
        if !comes(lines, source, *next) {
            return false;
        }
    }
    true
}

/// Whether these come first of a script, in order.
fn all_come<I: Source>(alloc: Global, source: &mut I, all: &[Next]) -> bool {
    let Ok(mut lines) = Lines::new(alloc) else {
        return false;
    };
    come(&mut lines, source, all)
}

const FIRST: Next = Next::Whole(b"c0 try");

const EMPTY: Next = Next::Whole(b"");

const LAST: Next = Next::Whole(b"ab");

const SCRIPT: &[u8] = b"c0 try\n\nab";

/// Whether these come of the script that gives one byte a call, and so many bytes are read.
fn come_slowly(alloc: Global, all: &[Next], read: usize) -> bool {
    let mut source = Slow {
        bytes: SCRIPT,
        at: 0,
        given: 0,
    };
    all_come(alloc, &mut source, all) && source.at == read
}

/// Nothing is read behind the line feed of a line.
#[test]
fn gives_each_line_whatever_the_cuts(rt: HostRuntime) {
    assert!(rt;
        come_slowly(rt.alloc(), &[FIRST, EMPTY, LAST, Next::End], 10)
            && come_slowly(rt.alloc(), &[FIRST], 7)
    );
}

/// Whether these come of a script whose calls with these numbers fail.
fn come_of(alloc: Global, script: &[u8], fails: &[u64], all: &[Next]) -> bool {
    let Ok(mut source) = source(alloc, script, fails) else {
        return false;
    };
    all_come(alloc, &mut source, all)
}

#[test]
fn gives_lines_up_to_a_fault(rt: HostRuntime) {
    assert!(rt;
        come_of(rt.alloc(), SCRIPT, &[1], &[FIRST, EMPTY, Next::Fault])
            && come_of(rt.alloc(), b"c0 try\n", &[0], &[Next::Fault])
    );
}

/// So many of one byte, with a text at a place among them.
fn long(alloc: Global, byte: u8, len: usize, at: usize, text: &[u8]) -> Option<Vec<u8>> {
    if at > len || text.len() > len - at {
        return None;
    }
    let mut all = vec![in alloc; byte; len].ok()?;
    all[at..at + text.len()].copy_from_slice(text);
    Some(all)
}

/// Whether a line of 65,537 bytes is told, and the one behind it comes.
fn long_comes(alloc: Global) -> bool {
    let Some(script) = long(alloc, b'a', 65_541, 65_537, b"\nab\n") else {
        return false;
    };
    come_of(alloc, script.as_slice(), &[], &[Next::Long, LAST])
}

#[test]
fn gives_the_line_behind_a_long_one(rt: HostRuntime) {
    assert!(rt; long_comes(rt.alloc()));
}

/// Whether this is what is wrong with a line.
fn is_wrong(alloc: Global, line: &[u8], want: Kind) -> bool {
    match parse_line(alloc, line) {
        Err(LineError::Bad(kind)) => kind == want,
        _ => false,
    }
}

/// A line, and what is wrong with it.
type Wrong = (&'static [u8], Kind);

/// Whether each row holds.
fn are_wrong(alloc: Global, rows: &[Wrong]) -> bool {
    for (line, want) in rows {
        if !is_wrong(alloc, line, *want) {
            return false;
        }
    }
    true
}

const BYTES_AND_SPACES: [Wrong; 7] = [
    (b"", Kind::Empty),
    (b"c0 begin\r", Kind::Byte),
    (b"\x7f ", Kind::Byte),
    (b" ", Kind::Space),
    (b" c0 begin", Kind::Space),
    (b"c0  begin", Kind::Space),
    (b"c0 begin ", Kind::Space),
];

#[test]
fn tells_what_is_wrong_with_bytes_and_spaces(rt: HostRuntime) {
    assert!(rt; are_wrong(rt.alloc(), &BYTES_AND_SPACES));
}

const ACTORS_AND_VERBS: [Wrong; 10] = [
    (b"c32 begin", Kind::Actor),
    (b"c01 begin", Kind::Actor),
    (b"c begin", Kind::Actor),
    (b"x0", Kind::Actor),
    (b"C0 begin", Kind::Actor),
    (b"c0", Kind::Verb),
    (b"c0 fly", Kind::Verb),
    (b"c0 scan", Kind::Verb),
    (b"sys", Kind::Verb),
    (b"sys begin", Kind::Verb),
];

#[test]
fn tells_what_is_wrong_with_an_actor_or_a_verb(rt: HostRuntime) {
    assert!(rt; are_wrong(rt.alloc(), &ACTORS_AND_VERBS));
}

const HANDLES_AND_NUMBERS: [Wrong; 11] = [
    (b"c0 begin 1", Kind::Count),
    (b"c0 tell", Kind::Count),
    (b"c0 tell h0", Kind::Handle),
    (b"c0 seek f0", Kind::Count),
    (b"c0 seek f16 up", Kind::Handle),
    (b"c0 seek f0 up", Kind::Word),
    (b"c0 seek f0 set", Kind::Count),
    (b"c0 seek f0 end 3", Kind::Count),
    (b"c0 seek f0 set 01", Kind::Number),
    (b"c0 seek f0 fwd +1", Kind::Number),
    (b"c0 seek f0 back 4294967297", Kind::Number),
];

#[test]
fn tells_what_is_wrong_with_a_handle_or_a_number(rt: HostRuntime) {
    assert!(rt; are_wrong(rt.alloc(), &HANDLES_AND_NUMBERS));
}

const LENGTHS_AND_DATA: [Wrong; 8] = [
    (b"c0 read f0 8193", Kind::Limit),
    (b"c0 read f16 8193", Kind::Handle),
    (b"c0 peek s16 0 9000", Kind::Slice),
    (b"c0 peek s0 0 9000", Kind::Limit),
    (b"c0 write f0 x:123", Kind::DataForm),
    (b"c0 write f0 t", Kind::DataForm),
    (b"c0 write f0 y:00", Kind::DataForm),
    (b"c0 write f0 x:0g", Kind::DataForm),
];

#[test]
fn tells_what_is_wrong_with_a_length_or_data(rt: HostRuntime) {
    assert!(rt; are_wrong(rt.alloc(), &LENGTHS_AND_DATA));
}

const PATHS_AND_JOBS: [Wrong; 12] = [
    (b"c0 mkdir a", Kind::Path(2)),
    (b"c0 mkdir /a/", Kind::Path(6)),
    (b"c0 concat /a", Kind::Count),
    (b"c0 concat /a /b c", Kind::Path(2)),
    (b"c0 rename q /a/", Kind::Path(2)),
    (b"c0 link q /a/", Kind::Path(2)),
    (b"c0 link /a", Kind::Count),
    (b"sys plan j8 shrink a -1", Kind::Job),
    (b"sys plan j0 shrink a -1", Kind::Word),
    (b"sys plan j0 spill /a -1", Kind::Number),
    (b"sys piece 0", Kind::Limit),
    (b"sys piece 65", Kind::Limit),
];

#[test]
fn tells_what_is_wrong_with_a_path_or_a_job(rt: HostRuntime) {
    assert!(rt; are_wrong(rt.alloc(), &PATHS_AND_JOBS));
}

/// Whether this is what is wrong with a text and one byte behind it, up to so many bytes.
fn is_wrong_when_long(alloc: Global, text: &[u8], byte: u8, len: usize, want: Kind) -> bool {
    let Some(line) = long(alloc, byte, len, 0, text) else {
        return false;
    };
    is_wrong(alloc, line.as_slice(), want)
}

#[test]
fn tells_what_is_too_long(rt: HostRuntime) {
    let alloc = rt.alloc();
    // 16,385 bytes of data stand behind the 14 of the front.
    assert!(rt;
        is_wrong_when_long(alloc, b"", b' ', 65_537, Kind::Long)
            && is_wrong_when_long(alloc, b"c0 write f0 t:", b'a', 16_399, Kind::Limit)
    );
}

/// This number where the condition holds, or 0.
fn when(holds: bool, number: u8) -> u8 {
    if holds { number } else { 0 }
}

/// The number of the row that a call is; 0 where it is none.
fn call_row(op: &Op<Bytes>) -> u8 {
    match op {
        Op::Write(0, bytes) => when(bytes.as_slice() == b"x:61".as_slice(), 3),
        Op::Append(15, bytes) => when(bytes.as_slice() == [1u8, 171].as_slice(), 4),
        Op::Seek(9, Seek::Back(4_294_967_296)) => 5,
        Op::Read(1, 8_192) => 6,
        Op::Cut {
            from: 1,
            off: 2,
            len: 3,
            to: 4,
        } => 7,
        Op::Concat(path, paths) => {
            when(
                path.as_bytes() == b"/".as_slice() && paths.as_slice().len() == 2,
                8,
            )
        }
        _ => 0,
    }
}

/// The number of the row that an event is; 0 where it is none.
fn event_row(event: &Event) -> u8 {
    match event {
        Event::Client(31, Verb::Begin) => 1,
        Event::Client(0, Verb::Try) => 2,
        Event::Client(1, Verb::Call(op)) => call_row(op),
        Event::Piece(64) => 9,
        Event::Plan {
            job: 7,
            region: 3,
            ..
        } => 10,
        Event::Up(0) => 11,
        _ => 0,
    }
}

/// The number of the row that a line is; 0 where it is none.
fn row(alloc: Global, line: &[u8]) -> u8 {
    match parse_line(alloc, line) {
        Ok(event) => event_row(&event),
        Err(_) => 0,
    }
}

/// A line, and the number of its row.
type Form = (&'static [u8], u8);

const FORMS: [Form; 11] = [
    (b"c31 begin", 1),
    (b"c0 try", 2),
    (b"c1 write f0 t:x:61", 3),
    (b"c1 append f15 x:01aB", 4),
    (b"c1 seek f9 back 4294967296", 5),
    (b"c1 read f1 8192", 6),
    (b"c1 cut s1 2 3 s4", 7),
    (b"c1 concat / /a /b", 8),
    (b"sys piece 64", 9),
    (b"sys plan j7 compact /a 3", 10),
    (b"sys up 0", 11),
];

/// Whether each line is that of its row.
fn have_forms(alloc: Global, rows: &[Form]) -> bool {
    for (line, want) in rows {
        if row(alloc, line) != *want {
            return false;
        }
    }
    true
}

#[test]
fn takes_each_form(rt: HostRuntime) {
    assert!(rt; have_forms(rt.alloc(), &FORMS));
}
