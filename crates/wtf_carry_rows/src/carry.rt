//! Files as lines, and answers as files.

ghost use Rattle.std.specs.Prelude.{None};

use std::alloc::Global;
use std::test::Fail;
use wtf_carry::{Stop, get, put, reads};
use wtf_dev::{Failed, MemSink, MemSource, Source};
use wtf_model::limits::MAX_NUMBER;
use wtf_path::Path;

fn source(alloc: Global, bytes: &[u8]) -> Result<MemSource, Fail> {
    let bytes = Vec::from_slice(alloc, bytes)?;
    Ok(MemSource::new(alloc, bytes, Vec::new(alloc)))
}

/// A source that gives at most three bytes a call.
#[derive(Drop)]
struct Slow<'a> {
    left: &'a [u8],
    given: u64,
}

impl<'a> Source for Slow<'a> {
    ghost view = { λ s. record { faults = 0; given = s.given; rest = None } };

    fn read(&mut self, out: &mut [u8]) -> Result<usize, Failed> {
        let n = out.len().min(self.left.len()).min(3);
        let (front, left) = self.left.split_at(n);
        out[..n].copy_from_slice(front);
        self.left = left;
        self.given = self.given.saturating_add(n as u64);
        Ok(n)
    }
}

/// Whether the bytes of a source, put at a path, are these lines.
fn is_put_from<I: Source>(
    alloc: Global,
    path: &[u8],
    from: &mut I,
    lines: &[u8],
) -> Result<bool, Fail> {
    let Ok(path) = Path::parse(alloc, path) else {
        return Ok(false);
    };
    let mut out = MemSink::new(alloc, Vec::new(alloc));
    let done = put(alloc, &path, from, &mut out).is_ok();
    Ok(done && out.taken() == lines)
}

/// Whether the bytes of a file, put at a path, are these lines, whether they come at once or a few at a time.
fn is_put(alloc: Global, path: &[u8], bytes: &[u8], lines: &[u8]) -> Result<bool, Fail> {
    let mut slow = Slow {
        left: bytes,
        given: 0,
    };
    Ok(
        is_put_from(alloc, path, &mut source(alloc, bytes)?, lines)?
            && is_put_from(alloc, path, &mut slow, lines)?,
    )
}

/// The lines that put bytes `a` at `/a`, in pieces of these lengths.
fn lines_in_pieces(alloc: Global, pieces: &[usize]) -> Result<Vec<u8>, Fail> {
    let mut lines = Vec::from_slice(alloc, b"c0 begin\nc0 create /a\nc0 open f0 /a\n")?;
    for n in pieces {
        lines.extend_from_slice(b"c0 write f0 x:")?;
        for _ in 0..*n {
            lines.extend_from_slice(b"61")?;
        }
        lines.push(b'\n')?;
    }
    lines.extend_from_slice(b"c0 try\n")?;
    Ok(lines)
}

/// Whether these lines read a file of so many bytes.
fn are_reads(alloc: Global, path: &[u8], len: u64, lines: &[u8]) -> Result<bool, Fail> {
    if len > MAX_NUMBER {
        return Ok(false);
    }
    let Ok(path) = Path::parse(alloc, path) else {
        return Ok(false);
    };
    let mut out = MemSink::new(alloc, Vec::new(alloc));
    let done = reads(alloc, &path, len, &mut out).is_ok();
    Ok(done && out.taken() == lines)
}

/// The bytes that are got of answers; `None` where these are wrong.
fn got(alloc: Global, len: u64, answers: &[u8]) -> Result<Option<MemSink>, Fail> {
    let mut from = source(alloc, answers)?;
    let mut out = MemSink::new(alloc, Vec::new(alloc));
    match get(alloc, len, &mut from, &mut out) {
        Ok(()) => Ok(Some(out)),
        Err(Stop::Wrong) => Ok(None),
        Err(_) => Err(Fail::from("stopped")),
    }
}

/// Whether these bytes are got of answers, of which there are as many as are asked for.
fn is_got(alloc: Global, answers: &[u8], bytes: &[u8]) -> Result<bool, Fail> {
    match got(alloc, bytes.len() as u64, answers)? {
        Some(out) => Ok(out.taken() == bytes),
        None => Ok(false),
    }
}

#[test]
fn puts_a_file(rt: HostRuntime) -> Result<(), Fail> {
    let rows: [(&[u8], &[u8], &[u8]); 3] = [
        (
            b"/a",
            b"abc",
            b"c0 begin\nc0 create /a\nc0 open f0 /a\nc0 write f0 x:616263\nc0 try\n",
        ),
        (
            b"/a",
            b"",
            b"c0 begin\nc0 create /a\nc0 open f0 /a\nc0 try\n",
        ),
        (
            b"/d/e/a",
            b"\xff",
            b"c0 begin\nc0 mkdir /d\nc0 mkdir /d/e\nc0 create /d/e/a\nc0 open f0 /d/e/a\nc0 write f0 x:ff\nc0 try\n",
        ),
    ];
    for (path, bytes, lines) in rows {
        assert!(rt; is_put(rt.alloc(), path, bytes, lines)?, "{path:?}");
    }
    Ok(())
}

#[test]
fn fills_its_pieces(rt: HostRuntime) -> Result<(), Fail> {
    let rows: [(usize, &[usize]); 4] = [
        (16_383, &[16_383]),
        (16_384, &[16_384]),
        (16_385, &[16_384, 1]),
        (32_768, &[16_384, 16_384]),
    ];
    for (len, pieces) in rows {
        let mut bytes = Vec::new(rt.alloc());
        bytes.resize(len, b'a')?;
        let lines = lines_in_pieces(rt.alloc(), pieces)?;
        assert!(rt;
            is_put(rt.alloc(), b"/a", bytes.as_slice(), lines.as_slice())?,
            "{len}"
        );
    }
    Ok(())
}

#[test]
fn stops_in_a_piece(rt: HostRuntime) -> Result<(), Fail> {
    let Ok(path) = Path::parse(rt.alloc(), b"/a") else {
        return Err(Fail::from("no path"));
    };
    // The first read gives all bytes, and the one that would tell the end fails.
    let bytes = Vec::from_slice(rt.alloc(), b"abc")?;
    let mut from = MemSource::new(rt.alloc(), bytes, Vec::from_slice(rt.alloc(), &[1])?);
    let mut out = MemSink::new(rt.alloc(), Vec::new(rt.alloc()));
    assert_eq!(rt;
        put(rt.alloc(), &path, &mut from, &mut out),
        Err(Stop::Unread)
    );
    Ok(())
}

#[test]
fn reads_a_file(rt: HostRuntime) -> Result<(), Fail> {
    let rows: [(u64, &[u8]); 3] = [
        (0, b"c0 begin\nc0 open f0 /a\nc0 abort\n"),
        (
            8_192,
            b"c0 begin\nc0 open f0 /a\nc0 read f0 8192\nc0 abort\n",
        ),
        (
            8_193,
            b"c0 begin\nc0 open f0 /a\nc0 read f0 8192\nc0 read f0 1\nc0 abort\n",
        ),
    ];
    for (len, lines) in rows {
        assert!(rt; are_reads(rt.alloc(), b"/a", len, lines)?, "{len}");
    }
    Ok(())
}

const FIRST: &[u8] = b"wtf servers 3 replicas 2 region 65536 number 1\n";

/// Answers behind a first line.
fn behind_first(alloc: Global, answers: &[u8]) -> Result<Vec<u8>, Fail> {
    let mut all = Vec::from_slice(alloc, FIRST)?;
    all.extend_from_slice(answers)?;
    Ok(all)
}

#[test]
fn gets_a_file(rt: HostRuntime) -> Result<(), Fail> {
    let rows: [(&[u8], &[u8]); 3] = [
        (b"begun 0\nok\nok\n", b""),
        (b"begun 0\nok\ndata x:6162\ndata x:63\nok\n", b"abc"),
        (
            b"begun 0\nok\ndata x:ff\nok\nbegun 1\nok\nok\ndata x:00\nok",
            b"\xff\x00",
        ),
    ];
    for (answers, bytes) in rows {
        let all = behind_first(rt.alloc(), answers)?;
        assert!(rt; is_got(rt.alloc(), all.as_slice(), bytes)?, "{bytes:?}");
    }
    Ok(())
}

#[test]
fn refuses_other_answers(rt: HostRuntime) -> Result<(), Fail> {
    let rows: [&[u8]; 6] = [
        b"begun 0\nok\ndata x:6162\nok\n",
        b"begun 0\nok\ndata x:61626364\nok\n",
        b"begun 0\nrefused noent\ndata x:616263\nok\n",
        b"begun 0\nok\ndata x:61626C\nok\n",
        b"begun 0\nok\n\ndata x:616263\nok\n",
        b"",
    ];
    for answers in rows {
        let all = behind_first(rt.alloc(), answers)?;
        assert!(rt;
            got(rt.alloc(), 3, all.as_slice())?.is_none(),
            "{answers:?}"
        );
    }
    assert!(rt; got(rt.alloc(), 3, b"ok\ndata x:616263\n")?.is_none());
    Ok(())
}
