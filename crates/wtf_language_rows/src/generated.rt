//! Scripts from a number.

use std::alloc::Global;
use wtf_dev::Source;
use wtf_gen::{Gen, GeneratedScript};

/// The first lines of the number 7, as they were made apart from this program.
const SEVEN: [&[u8]; 24] = [
    b"sys scan",
    b"c1 begin",
    b"c3 glue f0 s3",
    b"c6 peek s3 0 0",
    b"c0 copy /g2 /g5",
    b"c3 read f3 216",
    b"c1 unlink /g2",
    b"c5 begin",
    b"c0 punch f1 112",
    b"c0 seek f2 set 523",
    b"c5 append f1 x:e4687d9720222ce860a0524a745e0d1c5acbc0a0b2eb9fe53374db89",
    b"c4 append f0 x:a926460388cd46f552b6a8ef6050113f22d3af03bda15d42580663ec1d5fc076a55c43",
    b"c3 commit",
    b"c0 yank f3 33 s3",
    b"c4 open f1 /g6",
    b"c2 abort",
    b"sys collect 0",
    b"c6 write f2 x:7ce07a1111aa25f7a1f1475953395a48c430ab8a7dd976a18f29823b2df9f163ac9d7a",
    b"c7 stat /g0",
    b"c3 abort",
    b"c6 paste f2 s3",
    b"sys piece 64",
    b"c2 create /g4",
    b"c5 yank f0 65 s1",
];

/// Whether this is the next line.
fn comes(alloc: Global, lines: &mut Gen, want: &[u8]) -> bool {
    match lines.next(alloc) {
        Ok(Some(line)) => line.as_slice() == want,
        _ => false,
    }
}

/// Whether these lines come next, in order.
fn all_come(alloc: Global, lines: &mut Gen, all: &[&[u8]]) -> bool {
    for want in all {
        if !comes(alloc, lines, want) {
            return false;
        }
    }
    true
}

/// Whether a generator has no line more.
fn is_done(alloc: Global, lines: &mut Gen) -> bool {
    matches!(lines.next(alloc), Ok(None))
}

/// Whether both give the same line, or none.
fn agree_on_one(alloc: Global, one: &mut Gen, other: &mut Gen) -> bool {
    let Ok(first) = one.next(alloc) else {
        return false;
    };
    let Ok(second) = other.next(alloc) else {
        return false;
    };
    first == second
}

/// Whether both give the same lines, and as many.
fn agree(alloc: Global, one: &mut Gen, other: &mut Gen) -> bool {
    for _ in 0..500 {
        if !agree_on_one(alloc, one, other) {
            return false;
        }
    }
    is_done(alloc, one) && is_done(alloc, other)
}

fn sum(bytes: &[u8]) -> u64 {
    let mut sum = 0_u64;
    for b in bytes {
        sum = sum.wrapping_add(u64::from(*b));
    }
    sum
}

/// Whether a source gives so many bytes, and this is their sum, where a read has room for so many.
fn gives(mut source: GeneratedScript, room: usize, want: (u64, u64)) -> bool {
    let mut buffer = [0; 64];
    let room = room.min(64);
    let mut all = (0_u64, 0_u64);
    for _ in 0..100_000 {
        let Ok(n) = source.read(&mut buffer[..room]) else {
            return false;
        };
        if n == 0 {
            break;
        }
        all.0 = all.0.wrapping_add(n as u64);
        all.1 = all.1.wrapping_add(sum(&buffer[..n]));
    }
    all == want
}

#[test]
fn number_0_begins_with_client_7(rt: HostRuntime) {
    let mut lines = Gen::new(0, 2);
    assert!(rt; all_come(rt.alloc(), &mut lines, &[b"c7 begin", b"c1 step"]));
}

#[test]
fn number_7_gives_its_lines(rt: HostRuntime) {
    let mut lines = Gen::new(7, 24);
    assert!(rt;
        all_come(rt.alloc(), &mut lines, &SEVEN)
            && is_done(rt.alloc(), &mut lines)
            && is_done(rt.alloc(), &mut lines)
    );
}

#[test]
fn one_number_gives_one_script(rt: HostRuntime) {
    assert!(rt; agree(rt.alloc(), &mut Gen::new(11, 500), &mut Gen::new(11, 500)));
}

#[test]
fn reads_of_any_room_give_the_script(rt: HostRuntime) {
    assert!(rt;
        gives(GeneratedScript::new(7, 1000), 64, (23_248, 1_675_752))
            && gives(GeneratedScript::new(7, 1000), 1, (23_248, 1_675_752))
            && gives(GeneratedScript::new(7, 0), 64, (0, 0))
    );
}
