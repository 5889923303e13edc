//! Texts as lines, and as bytes.

use std::alloc::{AllocError, Global};

/// How many line feeds there are.
pub fn feeds(text: &[u8]) -> usize {
    let mut count = 0usize;
    for byte in text.iter() {
        if *byte == b'\n' {
            count = count.saturating_add(1);
        }
    }
    count
}

/// How many lines there are: bytes behind the last line feed are one too.
pub fn lines_in(text: &[u8]) -> usize {
    let whole = feeds(text);
    if text.is_empty() || text.ends_with(b"\n") {
        return whole;
    }
    whole.saturating_add(1)
}

/// The line feed that lacks behind lines, where they have none at their end.
pub fn feed_behind(text: &[u8]) -> &'static [u8] {
    if text.is_empty() || text.ends_with(b"\n") {
        return b"";
    }
    b"\n"
}

/// The first lines, so many of them, with their line feeds.
pub fn first_lines(text: &[u8], count: usize) -> &[u8] {
    if count == 0 {
        return &text[..0];
    }
    let mut seen = 0usize;
    for (i, byte) in text.iter().enumerate() {
        if *byte == b'\n' {
            seen = seen.saturating_add(1);
            if seen == count {
                return &text[..i + 1];
            }
        }
    }
    text
}

/// What is behind the first lines, so many of them.
pub fn behind_lines(text: &[u8], count: usize) -> &[u8] {
    let first = first_lines(text, count).len();
    if first > text.len() {
        return &text[..0];
    }
    &text[first..]
}

/// The first bytes, so many of them.
pub fn first_bytes(text: &[u8], count: u64) -> &[u8] {
    if count < text.len() as u64 {
        return &text[..count as usize];
    }
    text
}

/// A text that is read as words; bytes that are no text are taken for none.
pub fn text_of(bytes: &[u8]) -> &str {
    match str::from_utf8(bytes) {
        Ok(text) => text,
        Err(_) => "",
    }
}

/// The number that stands behind a front, and alone there.
pub fn number_behind(line: &str, front: &str) -> Option<u8> {
    let Some(rest) = line.strip_prefix(front) else {
        return None;
    };
    rest.parse().ok()
}

/// A text with another byte at one place.
pub fn spoil(alloc: Global, text: &[u8], at: usize, byte: u8) -> Result<Vec<u8>, AllocError> {
    let mut spoiled = text.to_vec(alloc)?;
    if let Some(place) = spoiled.get_mut(at) {
        *place = byte;
    }
    Ok(spoiled)
}
