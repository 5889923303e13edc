//! A line taken apart into words, from the left: each byte is looked at once, and nothing is copied.

ghost use Rattle.std.specs.Prelude.{◌≡◌, ◌≤◌, ◌+◌, [], ◌∷◌, length, bytes_eq, position, MatchOption};
ghost use Rattle.std.specs.List.{position_or_len};
ghost use Rattle.wtf_lex.specs.Words.{is_space, head_of, behind_of, words_of, words_behind};

/// The first word, and what stands behind it: nothing, or a space and more.
pub fn split_word(text: &[u8]) -> (&[u8], &[u8])
    ensures head { result.0.now ≡ head_of text.now }
    ensures behind { result.1.now ≡ behind_of text.now }
    ensures words { words_of text.now ≡ result.0.now ∷ words_behind result.1.now }
    ensures shorter { length result.1.now ≤ length text.now }
{
    text.split_at(word_len(text))
}

/// How many bytes stand before the first space.
fn word_len(text: &[u8]) -> usize
    ensures value { result ≡ position_or_len is_space text.now }
    ensures within { result ≤ length text.now }
{
    first_space(text).unwrap_or(text.len())
}

/// Where the first space stands.
fn first_space(text: &[u8]) -> Option<usize>
    ensures { result ≡ position is_space text.now }
{
    memchr::memchr(b' ', text)
}

/// The word behind a space, and what stands behind that word; `None` where the line ends.
pub fn next_word(behind: &[u8]) -> Option<(&[u8], &[u8])>
    ensures words { MatchOption result (words_behind behind.now ≡ [])
        (λ p. words_behind behind.now ≡ p.0.now ∷ words_behind p.1.now) }
    ensures shorter { MatchOption result (behind.now ≡ [])
        (λ p. length p.1.now + 1 ≤ length behind.now) }
{
    if behind.is_empty() {
        return None;
    }
    Some(split_word(&behind[1..]))
}

/// Whether a word is this text.
pub fn is_word(word: &[u8], text: &[u8]) -> bool
    ensures { result ≡ bytes_eq word.now text.now }
{
    match (word, text) {
        ([a], [b]) => a == b,
        ([a, word @ ..], [b, text @ ..]) => a == b && word == text,
        _ => word.is_empty() && text.is_empty(),
    }
}
