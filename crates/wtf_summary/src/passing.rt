//! Writing a text on a sink.

ghost use Rattle.std.specs.Prelude.{◌≡◌, ℕ, ◌<◌, ◌≤◌, ◌++◌, List, Some, length, take};
ghost use Rattle.wtf_dev.specs.Counts.{Rose};

use wtf_dev::Sink;

/// Writes a text until a write fails, and answers how many of its bytes were taken.
pub(crate) fn pass<O: Sink>(out: &mut O, text: &[u8]) -> usize
    ensures within { result ≤ length text.now }
    ensures told { (old : List ℕ) → (O.view out.old).taken ≡ Some old →
        (O.view out.new).taken ≡ Some (old ++ take result text.now) }
    ensures faults { (O.view out.old).faults ≤ (O.view out.new).faults }
    ensures steady { result ≡ length text.now →
        (O.view out.new).faults ≡ (O.view out.old).faults }
    ensures cause { result < length text.now →
        Rose (O.view out.old).faults (O.view out.new).faults }
{
    let mut at = 0;
    while at < text.len() {
        let (_, part) = text.split_at(at);
        match out.write(part) {
            Ok(n) => at += n,
            Err(_) => return at,
        }
    }
    at
}
