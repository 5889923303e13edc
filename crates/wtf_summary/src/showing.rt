//! A whole text, and what is shown of it.

ghost use Rattle.std.specs.Prelude.{◌≡◌, ◌≤◌, ◌++◌, ℕ, List, Some, true, false};
ghost use Rattle.wtf_dev.specs.Counts.{Rose};
ghost use Rattle.wtf_summary.specs.Summaries.{shown_text};
ghost use Rattle.wtf_summary.specs.Fronts.{ShowsFront};

use crate::state::{State, advance};
use wtf_dev::Sink;

/// Shows a text: its first line, and the summary of the `lines` lines behind it. Answers whether all of that was shown;
/// else a front of it was.
pub fn show<O: Sink>(out: &mut O, lines: u64, text: &[u8]) -> bool
    requires { 1 ≤ lines }
    ensures whole { result ≡ true → (before : List ℕ) → (O.view out.old).taken ≡ Some before →
        (O.view out.new).taken ≡ Some (before ++ shown_text lines text.now) }
    ensures front { (before : List ℕ) → (O.view out.old).taken ≡ Some before →
        ShowsFront lines text.now before (O.view out.new).taken }
    ensures faults { (O.view out.old).faults ≤ (O.view out.new).faults }
    ensures still { result ≡ true → (O.view out.new).faults ≡ (O.view out.old).faults }
    ensures cause { result ≡ false → Rose (O.view out.old).faults (O.view out.new).faults }
{
    let mut state = State::new(&*out, lines);
    let mut at = 0;
    while at < text.len() {
        if advance(out, &mut state, text[at]).is_err() {
            return false;
        }
        at += 1;
    }
    true
}
