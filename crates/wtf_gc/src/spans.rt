//! What lies between bytes of one backing file.

ghost use Rattle.std.specs.Prelude.{◌≡◌, ℕ, ◌≤◌, min, max, IfOk};
ghost use Rattle.std.specs.List.{All};
ghost use Rattle.wtf_gc.specs.Spans.{spans_cover, gaps_from, Apart, Ascends, size_of, is_gap};

use crate::extent::Span;
use std::alloc::Global;
use wtf_base::OutOfMemory;

/// The bytes below `mark` that no span covers, as spans that ascend and share no byte.
pub(crate) fn gaps(alloc: Global, mut spans: Vec<Span>, mark: u64) -> Result<Vec<Span>, OutOfMemory>
    requires { All (λ s. s.from ≤ s.to) spans.items }
    ensures apart { IfOk result (λ gs. Apart 0 mark gs.items) }
    ensures exact { IfOk result (λ gs. (x : ℕ) → spans_cover gs.items x ≡ is_gap mark spans.items x) }
{
    match spans.sort_by_key(|s| s.from) {
        Ok(()) => sweep(alloc, spans.as_slice(), mark),
        Err(_) => Err(OutOfMemory),
    }
}

/// The bytes below `mark` that no span of a list covers that is sorted by where they begin.
fn sweep(alloc: Global, spans: &[Span], mark: u64) -> Result<Vec<Span>, OutOfMemory>
    requires { Ascends 0 spans.now }
    ensures { IfOk result (λ gs. gs.items ≡ gaps_from 0 mark spans.now) }
{
    let mut found = Vec::new(alloc);
    let mut at = 0;
    for s in spans {
        let end = lesser(s.from, mark);
        if at < end {
            found.push(Span { from: at, to: end })?;
        }
        at = greater(at, s.to);
    }
    if at < mark {
        found.push(Span { from: at, to: mark })?;
    }
    Ok(found)
}

/// The number of bytes in spans that share none.
pub(crate) fn total(spans: &[Span], mark: u64) -> u64
    requires { Apart 0 mark spans.now }
    ensures { result ≡ size_of mark (spans_cover spans.now) }
{
    let mut sum = 0;
    for s in spans {
        sum += s.to - s.from;
    }
    sum
}

fn lesser(a: u64, b: u64) -> u64
    ensures { result ≡ min a b }
{
    if a < b { a } else { b }
}

fn greater(a: u64, b: u64) -> u64
    ensures { result ≡ max a b }
{
    if a < b { b } else { a }
}
