//! The lines of a script, read from a source in chunks.

ghost use Rattle.std.specs.Prelude.{◌≡◌, ◌↔◌, ℕ, ◌+◌, ◌-◌, ◌<◌, ◌≤◌, min, true, false, List, [], ◌++◌, length, take, Some, IfOk, MatchOption, slice_index};
ghost use Rattle.std.specs.List.{Contains};
ghost use Rattle.wtf_dev.specs.Counts.{Rose};
ghost use Rattle.wtf_script.specs.ScriptLines.{line_feed, HasNoFeed};
ghost use Rattle.wtf_script.specs.declared.limits.TheConstants.{CHUNK_BYTES};

use crate::ReadError;
use crate::limits::{CHUNK_BYTES, LINE_BYTES, SCRIPT_BYTES};
use std::alloc::Global;
use std::marker::Model;
use wtf_base::{Bytes, OutOfMemory};
use wtf_dev::Source;

/// A line of a script.
#[derive(Debug, Drop)]
pub enum Line {
    /// The bytes of the line, without its line feed.
    Whole(Bytes),
    /// A line of more than 65,536 bytes, of which none is given.
    Long,
}

/// Reads a script from a source, and gives its lines.
#[derive(Drop)]
pub struct Lines {
    alloc: Global,
    /// What was read last: the bytes from `at` up to `filled` are of no line yet.
    buffer: Vec<u8>,
    at: usize,
    filled: usize,
    /// How many bytes were read in all.
    count: u64,
    /// Whether the source's end was seen.
    ended: bool,
}

impl Model for Lines {
    ghost use Rattle.std.specs.Prelude.{◌≡◌, ◌≤◌, ◌+◌, true, length, slice_range};
    ghost use Rattle.wtf_script.specs.Reading.{Held};
    ghost use Rattle.wtf_script.specs.declared.limits.TheConstants.{CHUNK_BYTES, SCRIPT_BYTES};

    ghost Value = { Held };

    ghost view = { λ r. record {
      bytes = slice_range r.buffer.items r.at r.filled;
      count = r.count;
      ended = r.ended;
    } };

    ghost invariant = { λ r. (r.at ≤ r.filled) × (r.filled ≤ CHUNK_BYTES)
        × (length r.buffer.items ≡ CHUNK_BYTES)
        × (r.ended ≡ true → (r.at ≡ r.filled) × (r.count ≤ SCRIPT_BYTES)) };
}

impl Lines {
    ghost use Rattle.wtf_script.specs.Reading.{Held, Reads, Refills, IsRefilled, Parts, IsLine, work, Counts, Draws};
    ghost use Rattle.wtf_script.specs.declared.error.ReadError.TheVariants as read_error;

    /// Lines of which none is read yet.
    pub fn new(alloc: Global) -> Result<Lines, OutOfMemory>
        ensures { IfOk result (λ lines. lines ≡ record { bytes = []; count = 0; ended = false }) }
    {
        Ok(Lines {
            alloc,
            buffer: vec![in alloc; 0; CHUNK_BYTES]?,
            at: 0,
            filled: 0,
            count: 0,
            ended: false,
        })
    }

    /// Reads up to the end of the next line, and gives it; `None` once the source is at its end. Bytes that
    /// were read behind a line stay for the next call, and a source is asked only while no line feed is held.
    /// It is not asked again once its end was seen, or once it gave more than a script may have. After a
    /// fault what was read of the line is gone, and the next call goes on behind it; for want of memory a
    /// first part of the line may be gone.
    pub fn next<I: Source>(&mut self, source: &mut I) -> Result<Option<Line>, ReadError>
        // The lines of the bytes that were left, however the source cuts them.
        ensures told { (rest : List ℕ) → (I.view source.old).rest ≡ Some rest →
            Reads self.old rest self.new (I.view source.new).rest result }
        ensures counted { Counts self.old self.new (I.view source.old) (I.view source.new) }
        ensures given { Draws self.old self.new (I.view source.old) (I.view source.new) }
        ensures grows { self.old.count ≤ self.new.count }

        // Too much is more than a script may have, and one byte more is read to know it.
        ensures too_much { result ≡ Err read_error.TooMuch ↔ (SCRIPT_BYTES < self.new.count) }
        ensures limit { self.old.count ≤ SCRIPT_BYTES → self.new.count ≤ SCRIPT_BYTES + 1 }
        ensures over { self.old.ended ≡ true → result ≡ Ok None }
        ensures end { result ≡ Ok None → self.new.ended ≡ true }
        ensures progress { IsLine result → work self.new < work self.old }

        // The source is left alone where a line, the end or too much is held.
        ensures held { Contains self.old.bytes line_feed → source.new ≡ source.old }
        ensures few { length self.new.bytes ≤ CHUNK_BYTES }
        ensures not_asked { self.old.ended ≡ true → source.new ≡ source.old }
        ensures full { SCRIPT_BYTES < self.old.count → source.new ≡ source.old }

        ensures faults { (I.view source.old).faults ≤ (I.view source.new).faults }
        ensures cause { result ≡ Err read_error.Failed →
            Rose (I.view source.old).faults (I.view source.new).faults }
        // What was read of the line is gone then: a further call goes on behind it.
        ensures gone { result ≡ Err read_error.Failed → self.new.bytes ≡ [] }
    {
        if self.ended {
            return Ok(None);
        }
        if self.count > SCRIPT_BYTES {
            return Err(ReadError::TooMuch);
        }
        let mut line = Vec::new(self.alloc);
        loop {
            if self.take_part(&mut line)? {
                return Ok(Some(whole_line(line)));
            }
            if !self.refill(source)? {
                return Ok(last_line(line));
            }
        }
    }

    /// Takes the bytes held onto a line, up to a line feed, which goes too; whether there was one.
    fn take_part(&mut self, line: &mut Vec<u8>) -> Result<bool, OutOfMemory>
        requires { length line.old.items ≤ LINE_BYTES + 1 }
        ensures parts { Parts self.old.bytes line.old.items self.new.bytes line.new.items result }
        ensures len { length line.new.items ≤ LINE_BYTES + 1 }
        ensures few { length self.new.bytes ≤ CHUNK_BYTES }
        ensures count { self.new.count ≡ self.old.count }
        ensures ended { self.new.ended ≡ self.old.ended }
    {
        let held = &self.buffer[self.at..self.filled];
        match find_feed(held) {
            Some(n) => {
                keep(line, &held[..n])?;
                self.at += n + 1;
                Ok(true)
            }
            None => {
                keep(line, held)?;
                self.at = self.filled;
                Ok(false)
            }
        }
    }

    /// Asks the source once, when all bytes held are of a line; whether any bytes came.
    fn refill<I: Source>(&mut self, source: &mut I) -> Result<bool, ReadError>
        requires empty { self.old.bytes ≡ [] }
        requires count { self.old.count ≤ SCRIPT_BYTES }
        requires going { self.old.ended ≡ false }
        ensures told { (rest : List ℕ) → (I.view source.old).rest ≡ Some rest →
            Refills rest self.new.bytes (I.view source.new).rest result }
        ensures refilled { IsRefilled self.old self.new (I.view source.old) (I.view source.new) result }
    {
        let room = room_at(self.count);
        self.at = 0;
        self.filled = 0;
        let (front, _) = self.buffer.split_at_mut(room);
        let Ok(n) = source.read(front) else {
            return Err(ReadError::Failed);
        };
        if n == 0 {
            self.ended = true;
            return Ok(false);
        }
        self.filled = n;
        self.count += n as u64;
        if self.count > SCRIPT_BYTES {
            return Err(ReadError::TooMuch);
        }
        Ok(true)
    }
}

/// How many bytes to ask for after `count` of them: as many as there is room for, never past the limit of a
/// script, and at the limit one byte more, which tells a script that ends there from a longer one.
fn room_at(count: u64) -> usize
    requires { count ≤ SCRIPT_BYTES }
    ensures some { 0 < result }
    ensures fits { result ≤ CHUNK_BYTES }
    ensures below { count < SCRIPT_BYTES → count + result ≤ SCRIPT_BYTES }
    ensures most { count < SCRIPT_BYTES → result ≡ min CHUNK_BYTES (SCRIPT_BYTES - count) }
    ensures full { count ≡ SCRIPT_BYTES → result ≡ 1 }
{
    if count == SCRIPT_BYTES {
        return 1;
    }
    let left = SCRIPT_BYTES - count;
    left.min(CHUNK_BYTES as u64) as usize
}

/// Where the first line feed is.
fn find_feed(bytes: &[u8]) -> Option<usize>
    ensures { MatchOption result (HasNoFeed bytes.now) (λ n. (n < length bytes.now) ×
        (slice_index bytes.now n ≡ line_feed) × HasNoFeed (take n bytes.now)) }
{
    memchr::memchr(b'\n', bytes)
}

/// Puts a part onto a line, of which one byte more than a line may have is kept.
fn keep(line: &mut Vec<u8>, part: &[u8]) -> Result<(), OutOfMemory>
    requires { length line.old.items ≤ LINE_BYTES + 1 }
    ensures len { length line.new.items ≤ LINE_BYTES + 1 }
    ensures items { IfOk result
        (λ _. line.new.items ≡ take (LINE_BYTES + 1) (line.old.items ++ part.now)) }
{
    let n = part.len().min(LINE_BYTES + 1 - line.len());
    line.extend_from_slice(&part[..n])?;
    Ok(())
}

/// A line that is whole, or too long.
fn whole_line(line: Vec<u8>) -> Line
    ensures whole { length line.items ≤ LINE_BYTES → result ≡ Line.Whole line.items }
    ensures long { LINE_BYTES < length line.items → result ≡ Line.Long }
{
    if line.len() > LINE_BYTES {
        return Line::Long;
    }
    Line::Whole(Bytes::of(line))
}

/// The line that the end of a script ends, where it has a byte.
fn last_line(line: Vec<u8>) -> Option<Line>
    ensures end { line.items ≡ [] → result ≡ None }
    ensures whole { 0 < length line.items → length line.items ≤ LINE_BYTES →
        result ≡ Some (Line.Whole line.items) }
    ensures long { LINE_BYTES < length line.items → result ≡ Some Line.Long }
{
    if line.is_empty() {
        return None;
    }
    Some(whole_line(line))
}
