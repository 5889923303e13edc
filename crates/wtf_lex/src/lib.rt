//! The words of a line and the numbers that they spell, for what reads scripts and what reads answers.
//!
//! A line is words parted by single spaces. `split_word` gives the first word and what stands behind it, and
//! `next_word` the word behind a space and what stands behind that: together they give the words that the
//! definition gives (`words_of`), in order, and what is left gets shorter. `is_word` says whether a word is a
//! text.
//!
//! A number is `0`, or digits without a leading zero and without a sign. `number_within` gives the number that
//! a word spells where it is at most a given one, and none where the word spells none or a greater one: exactly
//! as the definition of that name says, whatever the length of the word.
//!
//! Nothing here takes memory or copies a byte: words are parts of the line. Where bytes of a line may stand,
//! and what a line with two spaces in a row is, is a matter of `wtf_script`.
#![tactic(auto)]

mod numbers;
mod words;

pub use numbers::number_within;
pub use words::{is_word, next_word, split_word};
