//! Numbers as decimal digits.

ghost use Rattle.std.specs.Prelude.{◌≡◌, ◌≤◌, ◌<◌, ◌+◌, ◌*◌, IfSome, MatchOption};
ghost use Rattle.std.specs.List.{list_all};
ghost use Rattle.wtf_lex.specs.Numbers.{is_digit, is_numeral, number_within};

/// Whether a word is `0`, or digits without a leading zero.
fn is_numeral(word: &[u8]) -> bool
    ensures { result ≡ is_numeral word.now }
{
    match word {
        [] => false,
        [d] => d.is_ascii_digit(),
        [d, ..] => *d != b'0' && are_digits(word),
    }
}

/// Whether each byte is a digit.
fn are_digits(word: &[u8]) -> bool
    ensures { result ≡ list_all is_digit word.now }
{
    word.iter().all(|b| b.is_ascii_digit())
}

/// The number that a word spells, where it is at most `most`.
pub fn number_within(most: u64, word: &[u8]) -> Option<u64>
    ensures value { result ≡ number_within most word.now }
    ensures within { IfSome result (λ n. n ≤ most) }
{
    if !is_numeral(word) {
        return None;
    }
    let mut value = 0;
    for d in word {
        value = more_within(most, value, u64::from(*d - b'0'))?;
    }
    Some(value)
}

/// A number with one digit more, where it is at most `most`.
fn more_within(most: u64, value: u64, digit: u64) -> Option<u64>
    requires { digit < 10 }
    ensures { MatchOption result (most < value * 10 + digit)
        (λ n. (n ≡ value * 10 + digit) × (n ≤ most)) }
{
    let next = value.checked_mul(10)?.checked_add(digit)?;
    if next > most {
        return None;
    }
    Some(next)
}
