//! The refusals and the parts of paths.

use crate::texts::path;
use std::alloc::{AllocError, Global};
use wtf_path::Path;

/// Which refusal a text gets; 0 for a path, which has the bytes of its text.
fn refusal(alloc: Global, text: &[u8]) -> u8 {
    match Path::parse(alloc, text) {
        Ok(path) => if path.as_bytes() == text { 0 } else { 8 },
        Err(why) => why.number().unwrap_or(9),
    }
}

/// A text, and the number of its refusal.
type Refusal = (&'static [u8], u8);

const REFUSALS: [Refusal; 14] = [
    (b"", 1),
    (b"a", 2),
    (b" ", 2),
    (b"/a b", 3),
    (b"/a//b", 6),
    (b"/.", 6),
    (b"/a/..", 6),
    (b"/a/", 6),
    (b"//", 6),
    (b"/", 0),
    (b"/a", 0),
    (b"/a/b", 0),
    (b"/.a", 0),
    (b"/~!", 0),
];

/// Whether each row holds.
fn are_refusals(alloc: Global, rows: &[Refusal]) -> bool {
    for (text, want) in rows {
        if refusal(alloc, text) != *want {
            return false;
        }
    }
    true
}

#[test]
fn refuses_by_the_first_rule(rt: HostRuntime) {
    assert!(rt; are_refusals(rt.alloc(), &REFUSALS));
}

/// What a text begins with, what is repeated so many times behind it, what it ends with, and the number of its refusal.
type Long = (&'static [u8], &'static [u8], usize, &'static [u8], u8);

const LIMITS: [Long; 5] = [
    (b"/", b"a", 1023, b"", 4),
    (b"/", b"a", 1022, b"", 0),
    (b"", b"/a", 33, b"", 5),
    (b"", b"/a", 32, b"", 0),
    (b"", b"/a", 32, b"/", 5),
];

/// Puts the text of a row together.
fn put_text(all: &mut Vec<u8>, row: &Long) -> Result<(), AllocError> {
    let (front, text, times, end, _) = row;
    all.extend_from_slice(front)?;
    for _ in 0..*times {
        all.extend_from_slice(text)?;
    }
    all.extend_from_slice(end)
}

/// Whether a text gets its refusal.
fn is_refused(alloc: Global, row: &Long) -> bool {
    let mut text = Vec::new(alloc);
    put_text(&mut text, row).is_ok() && refusal(alloc, text.as_slice()) == row.4
}

/// Whether each row holds.
fn are_refused(alloc: Global, rows: &[Long]) -> bool {
    for row in rows {
        if !is_refused(alloc, row) {
            return false;
        }
    }
    true
}

#[test]
fn keeps_the_limits(rt: HostRuntime) {
    assert!(rt; are_refused(rt.alloc(), &LIMITS));
}

/// Whether a path has this name and this parent.
fn has_parts(alloc: Global, text: &[u8], name: &[u8], parent: Option<&[u8]>) -> bool {
    let Ok(path) = path(alloc, text) else {
        return false;
    };
    path.as_bytes() == text && path.name() == name && path.parent() == parent
}

#[test]
fn takes_paths_apart(rt: HostRuntime) {
    assert!(rt;
        has_parts(rt.alloc(), b"/a/b", b"b", Some(b"/a"))
            && has_parts(rt.alloc(), b"/a", b"a", Some(b"/"))
            && has_parts(rt.alloc(), b"/", b"", None)
    );
}

/// Whether the copy of a path is the same path.
fn is_copied(alloc: Global, text: &[u8]) -> bool {
    let Ok(path) = path(alloc, text) else {
        return false;
    };
    let Ok(copied) = path.copy(alloc) else {
        return false;
    };
    copied == path
}

/// Whether a path stands before another, in both orders that paths have.
fn is_before(alloc: Global, first: &[u8], second: &[u8]) -> bool {
    let Ok(first) = path(alloc, first) else {
        return false;
    };
    let Ok(second) = path(alloc, second) else {
        return false;
    };
    first.cmp(&second).is_lt() && first < second
}

#[test]
fn copies_and_orders_paths(rt: HostRuntime) {
    assert!(rt; is_copied(rt.alloc(), b"/a/b") && is_before(rt.alloc(), b"/a", b"/a/b"));
}
