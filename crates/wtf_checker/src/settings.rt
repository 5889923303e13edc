//! The line of settings with which an output begins.

ghost use Rattle.std.specs.Prelude.{◌≡◌, ◌↔◌, ◌≤◌, ◌∷◌, ℕ, List, decimal, IsTrue, IfOk, IfSome, MatchOption};
ghost use Rattle.wtf_base.specs.declared.settings.Settings.{Settings};
ghost use Rattle.wtf_checker.specs.Lawful.{first_text};
ghost use Rattle.wtf_checker.specs.Spelled.{Spells};
ghost use Rattle.wtf_lex.specs.Words.{words_behind};

use std::alloc::Global;
use wtf_base::{OutOfMemory, Settings};
use wtf_lex::{next_word, number_within, split_word};
use wtf_print::print_settings;

/// The number that a word spells, and what stands behind the word behind it.
fn number_and_word(most: u64, behind: &[u8]) -> Option<(u64, &[u8])>
    ensures spelled { (n : ℕ) (key : List ℕ) (ws : List (List ℕ)) → n ≤ most →
        words_behind behind.now ≡ decimal n ∷ key ∷ ws →
        MatchOption result ⊥ (λ p. (p.0 ≡ n) × (words_behind p.1.now ≡ ws)) }
    ensures within { IfSome result (λ p. p.0 ≤ most) }
{
    let Some((word, behind)) = next_word(behind) else {
        return None;
    };
    let Some(number) = number_within(most, word) else {
        return None;
    };
    let Some((_, behind)) = next_word(behind) else {
        return None;
    };
    Some((number, behind))
}

/// The settings whose numbers stand at their places, whatever stands between.
fn spelled(text: &[u8]) -> Option<Settings>
    ensures { (s : Settings) → first_text s ≡ text.now → Spells s result }
{
    let (_, behind) = split_word(text);
    let Some((_, behind)) = next_word(behind) else {
        return None;
    };
    let Some((servers, behind)) = number_and_word(255, behind) else {
        return None;
    };
    let Some((replicas, behind)) = number_and_word(255, behind) else {
        return None;
    };
    let Some((region, _)) = number_and_word(4_294_967_295, behind) else {
        return None;
    };
    let settings = Settings::new(servers as u8, replicas as u8, region as u32);
    settings
}

/// Whether a line is that of the settings, with number 0.
fn is_first_text(alloc: Global, settings: Settings, text: &[u8]) -> Result<bool, OutOfMemory>
    ensures { IfOk result (λ b. IsTrue b ↔ (first_text settings ≡ text.now)) }
{
    let mut printed = Vec::with_capacity(alloc, text.len())?;
    print_settings(settings, 0, &mut printed)?;
    Ok(printed.as_slice() == text)
}

/// The settings whose line this is, with number 0; `None` exactly where it is that of none.
pub(crate) fn read_settings(alloc: Global, text: &[u8]) -> Result<Option<Settings>, OutOfMemory>
    ensures { IfOk result (λ found. MatchOption found
        ((s : Settings) → first_text s ≡ text.now → ⊥) (λ s. first_text s ≡ text.now)) }
{
    let Some(settings) = spelled(text) else {
        return Ok(None);
    };
    if is_first_text(alloc, settings, text)? {
        return Ok(Some(settings));
    }
    Ok(None)
}
