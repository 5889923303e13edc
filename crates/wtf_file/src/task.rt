//! What the words ask for.

ghost use Rattle.std.specs.Prelude.{◌≡◌, IfOk, IfSome, map, string_bytes};
ghost use Rattle.wtf_file.specs.Words.{HasNamedLength, file_path, get_task, long_task, put_task, reads_task, short_task, task_asked};

use std::alloc::Global;
use wtf_base::OutOfMemory;
use wtf_lex::number_within;
use wtf_model::limits::MAX_NUMBER;
use wtf_path::{Path, PathError};

/// What the program is to do.
#[derive(Drop)]
pub(crate) enum Task {
    Put(Path),
    /// The path, and the length of the file.
    Reads(Path, u64),
    /// The length of the file.
    Get(u64),
}

/// What the words behind the program's name ask for: nothing where they are no task.
pub(crate) fn task_of(alloc: Global, words: &[String]) -> Result<Option<Task>, OutOfMemory>
    ensures asked { IfOk result (λ asked. asked ≡ task_asked (map string_bytes words.now)) }
    ensures length { IfOk result (λ asked. IfSome asked HasNamedLength) }
{
    match words {
        [verb, word] => short_task(alloc, verb.as_str(), word.as_str()),
        [verb, path, len] => long_task(alloc, verb.as_str(), path.as_str(), len.as_str()),
        _ => Ok(None),
    }
}

/// The task of a verb and one word.
fn short_task(alloc: Global, verb: &str, word: &str) -> Result<Option<Task>, OutOfMemory>
    ensures asked { IfOk result (λ asked. asked ≡ short_task verb.now word.now) }
    ensures length { IfOk result (λ asked. IfSome asked HasNamedLength) }
{
    if verb == "put" {
        return put_task(alloc, word);
    }
    if verb == "get" {
        return Ok(get_task(word));
    }
    Ok(None)
}

/// The task of a verb, a path and a length.
fn long_task(alloc: Global, verb: &str, path: &str, len: &str) -> Result<Option<Task>, OutOfMemory>
    ensures asked { IfOk result (λ asked. asked ≡ long_task verb.now path.now len.now) }
    ensures length { IfOk result (λ asked. IfSome asked HasNamedLength) }
{
    if verb == "reads" {
        return reads_task(alloc, path, len);
    }
    Ok(None)
}

/// The task of `put` with a path.
fn put_task(alloc: Global, path: &str) -> Result<Option<Task>, OutOfMemory>
    ensures asked { IfOk result (λ asked. asked ≡ put_task path.now) }
    ensures length { IfOk result (λ asked. IfSome asked HasNamedLength) }
{
    let Some(path) = file_path(alloc, path)? else {
        return Ok(None);
    };
    Ok(Some(Task::Put(path)))
}

/// The task of `reads` with a path and a length.
fn reads_task(alloc: Global, path: &str, len: &str) -> Result<Option<Task>, OutOfMemory>
    ensures asked { IfOk result (λ asked. asked ≡ reads_task path.now len.now) }
    ensures length { IfOk result (λ asked. IfSome asked HasNamedLength) }
{
    let Some(len) = number_within(MAX_NUMBER, len.as_bytes()) else {
        return Ok(None);
    };
    let Some(path) = file_path(alloc, path)? else {
        return Ok(None);
    };
    Ok(Some(Task::Reads(path, len)))
}

/// The task of `get` with a length.
fn get_task(len: &str) -> Option<Task>
    ensures asked { result ≡ get_task len.now }
    ensures length { IfSome result HasNamedLength }
{
    let Some(len) = number_within(MAX_NUMBER, len.as_bytes()) else {
        return None;
    };
    Some(Task::Get(len))
}

/// The path that a word spells, but not the root.
fn file_path(alloc: Global, word: &str) -> Result<Option<Path>, OutOfMemory>
    ensures { IfOk result (λ path. path ≡ file_path word.now) }
{
    match Path::parse(alloc, word.as_bytes()) {
        Ok(path) => {
            if path.parent().is_none() {
                return Ok(None);
            }
            Ok(Some(path))
        }
        Err(why) => {
            if why == PathError::Memory {
                return Err(OutOfMemory);
            }
            Ok(None)
        }
    }
}
