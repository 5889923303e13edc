//! What a script's line asks, or the first thing that is wrong with it.

ghost use Rattle.std.specs.Prelude.{◌≡◌, IfOk};
ghost use Rattle.std.specs.List.{list_all, list_any};
ghost use Rattle.wtf_model.specs.Form.{IsFormEvent};
ghost use Rattle.wtf_lex.specs.Words.{words_of, words_behind};
ghost use Rattle.wtf_script.specs.Arguments.{AnswersAs};
ghost use Rattle.wtf_script.specs.Grammar.{event_asked, words_event, is_printable, is_empty_word, spelled, event_of};

use crate::LineError;
use crate::args::client_of;
use crate::calls::verb_of;
use crate::events::job_event;
use crate::limits::LINE_BYTES;
use crate::plain::is_plain;
use std::alloc::Global;
use wtf_lex::{is_word, next_word, split_word};
use wtf_model::{Event, Kind};

/// The event that a line asks for, the line without its line feed. A line of no form is `Bad`, with the first
/// thing that is wrong with it, in the order of `Kind`: the line, its actor, its verb, the number of its
/// arguments, and then the leftmost argument that is wrong.
#[tactic(auto, unfolding(crate::specs::Grammar::event_of, crate::specs::Grammar::words_event))]
pub fn parse_line(alloc: Global, line: &[u8]) -> Result<Event, LineError>
    ensures exact { AnswersAs result (event_of line.now) }
    ensures form { IfOk result IsFormEvent }
{
    spelled(line)?;
    let (actor, behind) = split_word(line);
    asked_of(alloc, actor, behind)
}

/// What the actor asks by what stands behind it.
#[tactic(auto, unfolding(crate::specs::Grammar::event_asked))]
fn asked_of(alloc: Global, actor: &[u8], behind: &[u8]) -> Result<Event, LineError>
    ensures { AnswersAs result (event_asked actor.now (words_behind behind.now)) }
{
    if is_word(actor, b"sys") {
        let Some((word, args)) = next_word(behind) else {
            return Err(LineError::Bad(Kind::Verb));
        };
        return job_event(alloc, word, args);
    }
    let client = client_of(actor)?;
    let Some((word, args)) = next_word(behind) else {
        return Err(LineError::Bad(Kind::Verb));
    };
    let verb = verb_of(alloc, word, args)?;
    Ok(Event::Client(client, verb))
}

/// That a line can be read as words.
#[tactic(auto, unfolding(crate::specs::Grammar::spelled))]
fn spelled(line: &[u8]) -> Result<(), Kind>
    ensures { result ≡ spelled line.now }
{
    if line.len() > LINE_BYTES {
        return Err(Kind::Long);
    }
    if line.is_empty() {
        return Err(Kind::Empty);
    }
    // What is wrong is looked for only in a line that is not plain.
    if is_plain(line) {
        return Ok(());
    }
    if !is_shown(line) {
        return Err(Kind::Byte);
    }
    if has_empty_word(line) {
        return Err(Kind::Space);
    }
    Ok(())
}

/// Whether each byte can be shown.
fn is_shown(line: &[u8]) -> bool
    ensures { result ≡ list_all is_printable line.now }
{
    line.iter().all(|b| is_printable(*b))
}

/// Whether a byte can be shown.
fn is_printable(b: u8) -> bool
    ensures { result ≡ is_printable b }
{
    b == b' ' || b.is_ascii_graphic()
}

/// Whether a space stands at the front, at the end or behind another.
fn has_empty_word(line: &[u8]) -> bool
    ensures { result ≡ list_any is_empty_word (words_of line.now) }
{
    line.split(|b| *b == b' ').any(|word| word.is_empty())
}
