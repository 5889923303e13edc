//! What a range of a run holds, as consecutive pieces. Places are u64, so that a range may end past 2^32.

ghost use Rattle.std.specs.Prelude.{◌≡◌, ℕ, ◌⊎◌, ◌*◌, ◌+◌, ◌-◌, ◌<◌, ◌≤◌, Bool, true, length, IfOk, List};
ghost use Rattle.wtf_overlay.specs.Origin.{part_origin, origin, Plans};
ghost use Rattle.wtf_overlay.specs.declared.part.Entry.{Entry};
ghost use Rattle.wtf_overlay.specs.Runs.{IsRun, SameFrom, BeginsPast};
ghost use Rattle.wtf_overlay.specs.Edges.{EdgesIn, is_edge};

use crate::{Entry, Part, Piece};
use std::alloc::Global;
use wtf_base::OutOfMemory;

/// The entries of the run from the first one on that ends past `x`.
fn past(run: &[Entry], x: u64) -> &[Entry]
    requires run { IsRun run.now }
    ensures run { IsRun result.now }
    ensures same { SameFrom x run.now result.now }
    ensures begins { BeginsPast x result.now }
    ensures edges { (p : ℕ → Bool) → EdgesIn p run.now → EdgesIn p result.now }
{
    let mut rest = run;
    while let Some((e, after)) = rest.split_first() {
        if x < e.end() as u64 {
            return rest;
        }
        rest = after;
    }
    rest
}

/// The longest piece from `x` on that one entry holds, or none of them.
fn first_piece(run: &[Entry], x: u64, to: u64) -> Piece
    requires order { x < to }
    requires run { IsRun run.now }
    requires begins { BeginsPast x run.now }
    ensures within { x + result.len ≤ to }
    ensures origin { (i : ℕ) → i < result.len → part_origin result.part i ≡ origin run.now (x + i) }
    ensures next { (p : ℕ → Bool) → EdgesIn p run.now
        → (x + result.len ≡ to) ⊎ (p (x + result.len) ≡ true) }
{
    match run.split_first() {
        None => Piece::of(to - x, Part::Zero),
        Some((e, _)) => {
            let start = e.off as u64;
            if x < start {
                Piece::of(to.min(start) - x, Part::Zero)
            } else {
                let part = e.between(x, to.min(e.end() as u64));
                Piece::of(part.len as u64, part.part)
            }
        }
    }
}

/// The `len` bytes from `off` on as consecutive pieces.
pub(crate) fn pieces(
    alloc: Global,
    run: &[Entry],
    off: u32,
    len: u32,
) -> Result<Vec<Piece>, OutOfMemory>
    requires run { IsRun run.now }
    ensures origins { IfOk result (λ v. Plans v.items len (λ i. origin run.now (off + i))) }
    ensures count { IfOk result (λ v. (es : List Entry)
        → EdgesIn (is_edge es) run.now → length v.items ≤ 2 * length es + 1) }
{
    let mut out = Vec::new(alloc);
    let mut x = off as u64;
    let to = x + len as u64;
    let mut rest = run;
    while x < to {
        rest = past(rest, x);
        let piece = first_piece(rest, x, to);
        x += piece.len;
        out.push(piece)?;
    }
    Ok(out)
}
