//! The words behind the program's directory: how many servers and copies there are, how large a region is,
//! and whether the script is made from a number.
//!
//! `read_words` takes words exactly as `asked_of` (`specs/Words`) says, and gives what they ask for: settings
//! within their limits, and a script that is read or one that is made from a number, of so many lines. Words
//! that ask for nothing are `Refused`; want of memory is told apart from that.
//!
//! Words are read by `clap`, as the kit has it: `--servers N`, `--replicas N`, `--region N`, and `--gen N` with
//! `--lines N`, each at most once, in any order, also as `--servers=N`. Numbers are those of scripts, digits
//! without a sign or a leading zero; there is no other word. A number outside its limits, more replicas than
//! servers, and one of `--gen` and `--lines` without the other are refused too.
//!
//! Which folder the program runs over is no matter of these words: its first word is that of `wtf_cli`.
#![tactic(auto)]

ghost use Rattle.std.specs.Prelude.{◌≡◌, ◌≢◌, ◌≤◌, false, None, Some, [], IfOk, IfSome, IfErr, map, string_bytes, option_map};
ghost use Rattle.clap.specs.Words.{app_of, fault_of, first_of, found_of, matches_of, rows_of, rule_of};
ghost use Rattle.wtf_words.specs.Words.{HasLine, asked_of, chosen, chosen_numbers, generated_by, option_number, numbers, option_rule, request, script_by, script_of, settings_app, wtf_app};

use clap::error::ErrorKind;
use clap::{Arg, ArgAction, ArgMatches, Command};
use std::alloc::{AllocError, Global};
use thiserror::Error;
use wtf_base::Settings;
use wtf_lex::number_within;

mod examples;

/// What a script is made from: a number, and how many lines it gives.
#[derive(Clone, Copy, Debug)]
pub struct Recipe {
    pub number: u64,
    pub lines: u64,
}

/// Where the script of a run comes from.
#[derive(Clone, Copy, Debug)]
pub enum Script {
    /// It is read.
    Read,
    /// It is made from a number.
    Generated(Recipe),
}

/// What the words ask for.
#[derive(Clone, Copy, Debug)]
pub struct Asked {
    pub settings: Settings,
    pub script: Script,
}

/// Why nothing came of the words.
#[derive(Clone, Copy, Debug, PartialEq, Eq, Error)]
pub enum WordsError {
    /// They ask for no run.
    #[error("words refused")]
    Refused,
    /// Memory could not be had.
    #[error("out of memory")]
    Memory,
}

/// What these words ask for: `--servers N`, 1 to 16, or 4; `--replicas N`, 1 to 3 and at most one a server, or 2;
/// `--region N`, 64 to 1,048,576 bytes, or 65,536; and `--gen N`, 0 to 18,446,744,073,709,551,615, with `--lines N`, 1 to
/// 1,000,000, a script of so many lines that is made from the number. Neither of these two stands without the other. A
/// number has no sign and no leading zero, no option stands twice, and there is no other word.
pub fn read_words(alloc: Global, words: &[String]) -> Result<Asked, WordsError>
    ensures asked { IfOk result (λ a. asked_of (map string_bytes words.now) ≡ Some (request a)) }
    ensures lines { IfOk result (λ a. HasLine a.script) }
    ensures refused { IfErr result (λ e. e ≡ WordsError.Refused →
        asked_of (map string_bytes words.now) ≡ None) }
{
    let matches = match match_words(alloc, words) {
        Ok(matches) => matches,
        Err(e) => return Err(e),
    };
    match asked_in(&matches) {
        Some(asked) => Ok(asked),
        None => Err(WordsError::Refused),
    }
}

/// What each option has among the words.
fn match_words<'a>(alloc: Global, words: &'a [String]) -> Result<ArgMatches<'a>, WordsError>
    ensures taken { IfOk result (λ m. fault_of wtf_app (map string_bytes words.entry.now) ≡ []) }
    ensures rows { IfOk result (λ m.
        rows_of (found_of m) ≡ matches_of wtf_app (map string_bytes words.entry.now)) }
    ensures refused { IfErr result (λ e. e ≡ WordsError.Refused →
        fault_of wtf_app (map string_bytes words.entry.now) ≢ []) }
{
    let Ok(command) = wtf_command(alloc) else {
        return Err(WordsError::Memory);
    };
    match command.try_get_matches_from(words) {
        Ok(matches) => Ok(matches),
        Err(e) => Err(why(e.kind())),
    }
}

/// Why a parse ended with an error of this kind.
fn why(kind: ErrorKind) -> WordsError
    ensures { result ≡ WordsError.Refused → kind ≢ ErrorKind.OutOfMemory }
{
    match kind {
        ErrorKind::OutOfMemory => WordsError::Memory,
        _ => WordsError::Refused,
    }
}

/// The command that the words are those of. It has five options, no help and no version.
fn wtf_command<'a>(alloc: Global) -> Result<Command<'a>, AllocError>
    ensures { IfOk result (λ c. app_of c ≡ wtf_app) }
{
    let command = settings_command(alloc)?;
    command
        .arg(option_named(alloc, "gen"))?
        .arg(option_named(alloc, "lines"))
}

/// The command with the options of the settings alone.
fn settings_command<'a>(alloc: Global) -> Result<Command<'a>, AllocError>
    ensures { IfOk result (λ c. app_of c ≡ settings_app) }
{
    Command::new(alloc, "wtf")
        .no_binary_name(true)
        .disable_help_flag(true)
        .arg(option_named(alloc, "servers"))?
        .arg(option_named(alloc, "replicas"))?
        .arg(option_named(alloc, "region"))
}

/// An option with one value, which stands at most once.
fn option_named<'a>(alloc: Global, name: &'a str) -> Arg<'a>
    ensures rule { rule_of result ≡ option_rule name.entry.now }
    ensures own { result.global ≡ false }
{
    Arg::new(alloc, name).long(name).action(ArgAction::Set)
}

/// What the options ask for, where it is inside its limits.
fn asked_in(matches: &ArgMatches<'_>) -> Option<Asked>
    ensures value { option_map request result ≡ chosen (rows_of (found_of matches.now)) }
    ensures lines { IfSome result (λ a. HasLine a.script) }
{
    let settings = settings_in(matches)?;
    let script = script_in(matches)?;
    Some(Asked { settings, script })
}

/// The settings with the numbers of the options, where there are such.
fn settings_in(matches: &ArgMatches<'_>) -> Option<Settings>
    ensures { option_map numbers result ≡ chosen_numbers (rows_of (found_of matches.now)) }
{
    let servers = number(matches, "servers", 16, 4)?;
    let replicas = number(matches, "replicas", 3, 2)?;
    let region = number(matches, "region", 1_048_576, 65_536)?;
    Settings::new(servers as u8, replicas as u8, region as u32)
}

/// The number of an option, at most `most`, or the one that it has where it is not among the words.
fn number(matches: &ArgMatches<'_>, name: &str, most: u64, otherwise: u64) -> Option<u64>
    requires { otherwise ≤ most }
    ensures value { result ≡ option_number name.now most otherwise (rows_of (found_of matches.now)) }
    ensures within { IfSome result (λ n. n ≤ most) }
{
    match matches.get_str(name) {
        Some(text) => number_within(most, text.as_bytes()),
        None => Some(otherwise),
    }
}

/// Where the script comes from.
fn script_in(matches: &ArgMatches<'_>) -> Option<Script>
    ensures value { result ≡ script_of (rows_of (found_of matches.now)) }
    ensures lines { IfSome result HasLine }
{
    script_by(text_of(matches, "gen"), text_of(matches, "lines"))
}

/// The text of an option, where it is among the words.
fn text_of<'a>(matches: &ArgMatches<'a>, name: &str) -> Option<&'a str>
    ensures { option_map (λ text. text.now) result ≡ first_of name.now (rows_of (found_of matches.now)) }
{
    matches.get_str(name)
}

/// Where the script comes from, by the texts of `--gen` and `--lines`: neither of the two stands without the other.
fn script_by(number: Option<&str>, lines: Option<&str>) -> Option<Script>
    ensures value { result ≡ script_by (option_map (λ text. text.now) number.entry)
        (option_map (λ text. text.now) lines.entry) }
    ensures lines { IfSome result HasLine }
{
    match (number, lines) {
        (Some(number), Some(lines)) => generated(number, lines),
        (None, None) => Some(Script::Read),
        _ => None,
    }
}

/// A script of so many lines that is made from the number.
fn generated(number: &str, lines: &str) -> Option<Script>
    ensures value { result ≡ generated_by number.now lines.now }
    ensures lines { IfSome result HasLine }
{
    let number = number_within(u64::MAX, number.as_bytes())?;
    let lines = number_within(1_000_000, lines.as_bytes())?;
    if lines == 0 {
        return None;
    }
    Some(Script::Generated(Recipe { number, lines }))
}
