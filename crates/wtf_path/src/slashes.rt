//! Where a text has its last slash.

ghost use Rattle.std.specs.Prelude.{◌≡◌, ◌≢◌, ℕ, ◌+◌, ◌<◌, length, slice_index, true};
ghost use Rattle.wtf_path.specs.Refusals.{begins_with_slash};
ghost use Rattle.wtf_path.specs.Slashes.{IsAroundLast};

/// What stands before the last slash of a text that begins with one, and what stands after it.
pub fn around_last_slash(text: &[u8]) -> (&[u8], &[u8])
    requires { begins_with_slash text.now ≡ true }
    ensures { IsAroundLast text.now result.0.now result.1.now }
{
    let at = last_slash(text);
    (&text[..at], &text[at + 1..])
}

fn last_slash(text: &[u8]) -> usize
    requires { begins_with_slash text.now ≡ true }
    ensures within { result < length text.now }
    ensures slash { slice_index text.now result ≡ 47 }
    ensures last { (k : ℕ) → result < k → k < length text.now → slice_index text.now k ≢ 47 }
{
    let mut at = text.len() - 1;
    while text[at] != b'/' {
        at -= 1;
    }
    at
}
