//! The rules that a text must keep to be a path.

ghost use Rattle.std.specs.Prelude.{◌≡◌, ◌<◌, ◌≤◌, length, count_by};
ghost use Rattle.std.specs.List.{list_any};
ghost use Rattle.wtf_path.specs.Parts.{parts_of, is_slash};
ghost use Rattle.wtf_path.specs.Refusals.{begins_with_slash, has_bad_byte, is_dot_name, refusal, number_of};

use crate::PathError;

/// The greatest length of a path, in bytes.
const MAX_LEN: usize = 1023;

/// The greatest number of names of a path.
const MAX_NAMES: usize = 32;

impl PathError {
    /// The number of the refusal, 1 to 6 in their order; `None` exactly for want of memory.
    pub fn number(self) -> Option<u8>
        ensures { result ≡ number_of self }
    {
        match self {
            PathError::Empty => Some(1),
            PathError::NotAbsolute => Some(2),
            PathError::BadByte => Some(3),
            PathError::TooLong => Some(4),
            PathError::TooDeep => Some(5),
            PathError::DotName => Some(6),
            PathError::Memory => None,
        }
    }
}

/// The first rule that the text breaks; `None` exactly for a path. No memory is taken.
pub fn first_refusal(text: &[u8]) -> Option<PathError>
    ensures { result ≡ refusal text.now }
{
    if text.is_empty() {
        return Some(PathError::Empty);
    }
    if !begins_with_slash(text) {
        return Some(PathError::NotAbsolute);
    }
    if has_bad_byte(text) {
        return Some(PathError::BadByte);
    }
    if text.len() > MAX_LEN {
        return Some(PathError::TooLong);
    }
    let behind = &text[1..];
    if count_parts(behind) > MAX_NAMES {
        return Some(PathError::TooDeep);
    }
    if has_dot_name(behind) {
        return Some(PathError::DotName);
    }
    None
}

fn begins_with_slash(text: &[u8]) -> bool
    ensures { result ≡ begins_with_slash text.now }
{
    match text {
        [] => false,
        [first, ..] => *first == b'/',
    }
}

fn has_bad_byte(text: &[u8]) -> bool
    ensures { result ≡ has_bad_byte text.now }
{
    text.iter().any(|b| !b.is_ascii_graphic())
}

/// How many parts stand between slashes, empty ones counted.
fn count_parts(behind: &[u8]) -> usize
    ensures { result ≡ length (parts_of behind.now) }
{
    if behind.is_empty() {
        return 0;
    }
    count_slashes(behind) + 1
}

fn count_slashes(bytes: &[u8]) -> usize
    ensures value { result ≡ count_by is_slash bytes.now }
    ensures bound { result ≤ length bytes.now }
{
    bytes.iter().filter(|b| **b == b'/').count()
}

fn has_dot_name(behind: &[u8]) -> bool
    ensures { result ≡ list_any is_dot_name (parts_of behind.now) }
{
    if behind.is_empty() {
        return false;
    }
    behind.split(|b| *b == b'/').any(|name| is_dot_name(name))
}

fn is_dot_name(name: &[u8]) -> bool
    ensures { result ≡ is_dot_name name.now }
{
    match name {
        [] => true,
        [a] => *a == b'.',
        [a, b] => *a == b'.' && *b == b'.',
        _ => false,
    }
}
