//! Bytes, paths and lists of them, made of plain texts.

use std::alloc::Global;
use wtf_base::{Bytes, OutOfMemory};
use wtf_model::{Answer, Names, Row, Rows};
use wtf_path::{Path, PathError};

pub(crate) fn bytes(alloc: Global, text: &[u8]) -> Result<Bytes, OutOfMemory> {
    Ok(Bytes::of(Vec::from_slice(alloc, text)?))
}

pub(crate) fn path(alloc: Global, text: &[u8]) -> Result<Path, PathError> {
    Path::parse(alloc, text)
}

/// The answer that shows these bytes.
pub(crate) fn shown(alloc: Global, text: &[u8]) -> Result<Answer, OutOfMemory> {
    Ok(Answer::Shown(bytes(alloc, text)?))
}

/// Puts bytes behind others.
fn put_bytes(all: &mut Vec<Bytes>, alloc: Global, text: &[u8]) -> Result<(), OutOfMemory> {
    Ok(all.push(bytes(alloc, text)?)?)
}

/// Puts each of these texts behind others.
fn put_all(all: &mut Vec<Bytes>, alloc: Global, texts: &[&[u8]]) -> Result<(), OutOfMemory> {
    for text in texts {
        put_bytes(all, alloc, text)?;
    }
    Ok(())
}

pub(crate) fn names(alloc: Global, texts: &[&[u8]]) -> Result<Names, OutOfMemory> {
    let mut names = Vec::new(alloc);
    put_all(&mut names, alloc, texts)?;
    Ok(Names::of(names))
}

/// Whether the row of a path is put behind others.
fn puts(rows: &mut Vec<Row>, alloc: Global, text: &[u8], len: Option<u64>) -> bool {
    let Ok(path) = path(alloc, text) else {
        return false;
    };
    rows.push(Row { path, len }).is_ok()
}

/// The rows of a directory and of a file of three bytes.
pub(crate) fn rows(alloc: Global, directory: &[u8], file: &[u8]) -> Option<Rows> {
    let mut rows = Vec::new(alloc);
    if !puts(&mut rows, alloc, directory, None) || !puts(&mut rows, alloc, file, Some(3)) {
        return None;
    }
    Some(Rows::of(rows))
}
