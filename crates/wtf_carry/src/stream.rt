//! Filling a piece from a source, and writing all of a text.

ghost use Rattle.std.specs.Prelude.{◌≡◌, ◌≤◌, ℕ, List, Some, length, IfOk, OnErr};
ghost use Rattle.wtf_dev.specs.Counts.{Rose};
ghost use Rattle.wtf_carry.specs.Streams.{Fills, LinesTaken};

use wtf_dev::{Failed, Sink, Source};

/// Fills a piece with the next bytes of a source, which may give a few at a time, and answers how many there are: fewer than
/// there is room for only at the end.
pub(crate) fn fill<I: Source>(from: &mut I, piece: &mut [u8]) -> Result<usize, Failed>
    ensures count { IfOk result (λ n. n ≤ length piece.old) }
    ensures told { (rest : List ℕ) → (I.view from.old).rest ≡ Some rest →
        Fills result (length piece.old) piece.new rest (I.view from.new).rest }
    ensures faults { (I.view from.old).faults ≤ (I.view from.new).faults }
    ensures cause { OnErr result (Rose (I.view from.old).faults (I.view from.new).faults) }
{
    let mut n = 0;
    while n < piece.len() {
        let (_, room) = piece.split_at_mut(n);
        match from.read(room) {
            Ok(0) => return Ok(n),
            Ok(more) => n += more,
            Err(e) => return Err(e),
        }
    }
    Ok(n)
}

/// Writes all of a text.
pub(crate) fn write_all<O: Sink>(out: &mut O, text: &[u8]) -> Result<(), Failed>
    ensures told { (old : List ℕ) → (O.view out.old).taken ≡ Some old →
        LinesTaken old text.now (O.view out.new).taken result }
    ensures faults { (O.view out.old).faults ≤ (O.view out.new).faults }
    ensures cause { OnErr result (Rose (O.view out.old).faults (O.view out.new).faults) }
{
    let mut at = 0;
    while at < text.len() {
        let (_, part) = text.split_at(at);
        match out.write(part) {
            Ok(n) => at += n,
            Err(e) => return Err(e),
        }
    }
    Ok(())
}
