//! The words of the healer: the numbers of the lost servers.

ghost use Rattle.std.specs.Prelude.{◌≡◌, ℕ, List, None, Some, map, string_bytes, MatchOption};
ghost use Rattle.wtf_healer.specs.Words.{lost_in, with_word};
ghost use Rattle.wtf_healer.specs.Spared.{IsLostOf};

use crate::lost::Lost;
use wtf_lex::number_within;

/// The greatest number that a server can have.
const LAST_SERVER: u64 = 15;

/// The servers that the words name; `None` where a word is no number of a server, where two are the same, and where there is no
/// word. A number has neither a sign nor a leading zero.
pub(crate) fn lost_by(words: &[String]) -> Option<Lost>
    ensures { MatchOption result (lost_in (map string_bytes words.now) ≡ None)
        (λ lost. (ks : List ℕ) × (lost_in (map string_bytes words.now) ≡ Some ks) × IsLostOf ks lost) }
{
    if words.is_empty() {
        return None;
    }
    let mut lost = Lost::none();
    for word in words {
        lost = match with_word(lost, word.as_bytes()) {
            Some(more) => more,
            None => return None,
        };
    }
    Some(lost)
}

/// These servers and that of one word more.
fn with_word(lost: Lost, word: &[u8]) -> Option<Lost>
    ensures { (ks : List ℕ) → IsLostOf ks lost →
        MatchOption result (with_word (Some ks) word.now ≡ None)
        (λ more. (all : List ℕ) × (with_word (Some ks) word.now ≡ Some all) × IsLostOf all more) }
{
    let Some(server) = number_within(LAST_SERVER, word) else {
        return None;
    };
    let server = server as u8;
    if lost.has(server) {
        return None;
    }
    Some(lost.and(server))
}
