//! As many arguments as a verb takes, taken off the line from the left.

ghost use Rattle.std.specs.Prelude.{◌≡◌, ◌≤◌, length, count_by};
ghost use Rattle.wtf_lex.specs.Words.{is_space, words_behind};
ghost use Rattle.wtf_script.specs.Counts.{none_of, one_of, two_of, three_of, four_of, two_and_maybe_one, one_and_many};
ghost use Rattle.wtf_script.specs.Arguments.{AsksAs};

use wtf_lex::next_word;
use wtf_model::Kind;
use wtf_model::limits::MAX_SOURCES;

/// That there is no argument.
pub(crate) fn no_word(args: &[u8]) -> Result<(), Kind>
    ensures { result ≡ none_of (words_behind args.now) }
{
    if next_word(args).is_some() {
        return Err(Kind::Count);
    }
    Ok(())
}

/// The argument, where there is just one.
pub(crate) fn one_word(args: &[u8]) -> Result<&[u8], Kind>
    ensures { AsksAs (λ p. p.now) result (one_of (words_behind args.now)) }
{
    let Some((a, behind)) = next_word(args) else {
        return Err(Kind::Count);
    };
    if next_word(behind).is_some() {
        return Err(Kind::Count);
    }
    Ok(a)
}

/// The arguments, where there are just two.
pub(crate) fn two_words(args: &[u8]) -> Result<(&[u8], &[u8]), Kind>
    ensures { AsksAs (λ p. (p.0.now, p.1.now)) result (two_of (words_behind args.now)) }
{
    let Some((a, behind)) = next_word(args) else {
        return Err(Kind::Count);
    };
    let b = one_word(behind)?;
    Ok((a, b))
}

/// The arguments, where there are just three.
pub(crate) fn three_words(args: &[u8]) -> Result<(&[u8], &[u8], &[u8]), Kind>
    ensures { AsksAs (λ p. (p.0.now, p.1.now, p.2.now)) result (three_of (words_behind args.now)) }
{
    let Some((a, behind)) = next_word(args) else {
        return Err(Kind::Count);
    };
    let (b, c) = two_words(behind)?;
    Ok((a, b, c))
}

/// The arguments, where there are just four.
pub(crate) fn four_words(args: &[u8]) -> Result<(&[u8], &[u8], &[u8], &[u8]), Kind>
    ensures { AsksAs (λ p. (p.0.now, p.1.now, p.2.now, p.3.now)) result
        (four_of (words_behind args.now)) }
{
    let Some((a, behind)) = next_word(args) else {
        return Err(Kind::Count);
    };
    let (b, c, d) = three_words(behind)?;
    Ok((a, b, c, d))
}

/// Two arguments, and what stands behind them, which is a third argument or nothing.
pub(crate) fn two_words_and_more(args: &[u8]) -> Result<(&[u8], &[u8], &[u8]), Kind>
    ensures { AsksAs (λ p. (p.0.now, p.1.now, words_behind p.2.now)) result
        (two_and_maybe_one (words_behind args.now)) }
{
    let Some((a, behind)) = next_word(args) else {
        return Err(Kind::Count);
    };
    let Some((b, more)) = next_word(behind) else {
        return Err(Kind::Count);
    };
    if count_words(more) > 1 {
        return Err(Kind::Count);
    }
    Ok((a, b, more))
}

/// One argument, and what stands behind it: 1 to 16 arguments more.
pub(crate) fn word_and_many(args: &[u8]) -> Result<(&[u8], &[u8]), Kind>
    ensures { AsksAs (λ p. (p.0.now, words_behind p.1.now)) result
        (one_and_many (words_behind args.now)) }
{
    let Some((a, more)) = next_word(args) else {
        return Err(Kind::Count);
    };
    let count = count_words(more);
    if count < 1 || count as u64 > MAX_SOURCES {
        return Err(Kind::Count);
    }
    Ok((a, more))
}

/// How many words there are.
fn count_words(behind: &[u8]) -> usize
    ensures { result ≡ length (words_behind behind.now) }
{
    if behind.is_empty() {
        return 0;
    }
    let (_, words) = behind.split_at(1);
    count_spaces(words) + 1
}

fn count_spaces(bytes: &[u8]) -> usize
    ensures value { result ≡ count_by is_space bytes.now }
    ensures bound { result ≤ length bytes.now }
{
    bytes.iter().filter(|b| **b == b' ').count()
}
