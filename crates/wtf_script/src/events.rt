//! What the system is asked: one row a verb of `sys`.

ghost use Rattle.std.specs.Prelude.{◌≡◌};
ghost use Rattle.wtf_lex.specs.Words.{words_behind};
ghost use Rattle.wtf_script.specs.Arguments.{AnswersAs};
ghost use Rattle.wtf_script.specs.Grammar.{job_kind_of, plan_event, job_alone, number_alone, piece_event, event_alone, system_event, job_event};

use crate::LineError;
use crate::args::{job_of, number_from_to, number_of_word, path_of};
use crate::calls::path_alone;
use crate::counts::{four_words, no_word, one_word};
use std::alloc::Global;
use wtf_lex::is_word;
use wtf_model::limits::SCAN_PARTS;
use wtf_model::{Event, JobKind, Kind};

/// `compact`, `spill`.
#[tactic(auto, unfolding(crate::specs::Grammar::job_kind_of))]
fn job_kind_of(word: &[u8]) -> Result<JobKind, Kind>
    ensures { result ≡ job_kind_of word.now }
{
    if is_word(word, b"compact") {
        return Ok(JobKind::Compact);
    }
    if is_word(word, b"spill") {
        return Ok(JobKind::Spill);
    }
    Err(Kind::Word)
}

/// `plan J C P R`.
#[tactic(auto, unfolding(crate::specs::Grammar::plan_event))]
fn plan_event(alloc: Global, args: &[u8]) -> Result<Event, LineError>
    ensures { AnswersAs result (plan_event (words_behind args.now)) }
{
    let (j, c, p, r) = four_words(args)?;
    let job = job_of(j)?;
    let kind = job_kind_of(c)?;
    let path = path_of(alloc, p)?;
    let region = number_of_word(r)?;
    Ok(Event::Plan {
        job,
        kind,
        path,
        region,
    })
}

/// J.
#[tactic(auto, unfolding(crate::specs::Grammar::job_alone))]
fn job_alone(args: &[u8]) -> Result<u8, Kind>
    ensures { result ≡ job_alone (words_behind args.now) }
{
    let j = one_word(args)?;
    job_of(j)
}

/// K.
#[tactic(auto, unfolding(crate::specs::Grammar::number_alone))]
fn number_alone(args: &[u8]) -> Result<u64, Kind>
    ensures { result ≡ number_alone (words_behind args.now) }
{
    let k = one_word(args)?;
    number_of_word(k)
}

/// `piece K`.
#[tactic(auto, unfolding(crate::specs::Grammar::piece_event))]
fn piece_event(args: &[u8]) -> Result<Event, Kind>
    ensures { result ≡ piece_event (words_behind args.now) }
{
    let k = one_word(args)?;
    let n = number_from_to(1, u64::from(SCAN_PARTS), k)?;
    Ok(Event::Piece(n as u8))
}

/// A verb that takes no argument.
#[tactic(auto, unfolding(crate::specs::Grammar::event_alone))]
fn event_alone(event: Event, args: &[u8]) -> Result<Event, Kind>
    ensures { result ≡ event_alone event (words_behind args.now) }
{
    no_word(args)?;
    Ok(event)
}

/// What the system is asked of servers and of all files; any other word is no verb.
#[tactic(auto, unfolding(crate::specs::Grammar::system_event))]
fn system_event(alloc: Global, word: &[u8], args: &[u8]) -> Result<Event, LineError>
    ensures { AnswersAs result (system_event word.now (words_behind args.now)) }
{
    if is_word(word, b"down") {
        return Ok(Event::Down(number_alone(args)?));
    }
    if is_word(word, b"up") {
        return Ok(Event::Up(number_alone(args)?));
    }
    if is_word(word, b"save") {
        return Ok(event_alone(Event::Save, args)?);
    }
    if is_word(word, b"dump") {
        return Ok(Event::Dump(path_alone(alloc, args)?));
    }
    if is_word(word, b"tree") {
        return Ok(event_alone(Event::Tree, args)?);
    }
    Err(LineError::Bad(Kind::Verb))
}

/// What the system is asked of jobs and scans.
#[tactic(auto, unfolding(crate::specs::Grammar::job_event))]
pub(crate) fn job_event(alloc: Global, word: &[u8], args: &[u8]) -> Result<Event, LineError>
    ensures { AnswersAs result (job_event word.now (words_behind args.now)) }
{
    if is_word(word, b"plan") {
        return plan_event(alloc, args);
    }
    if is_word(word, b"put") {
        return Ok(Event::Put(job_alone(args)?));
    }
    if is_word(word, b"drop") {
        return Ok(Event::DropJob(job_alone(args)?));
    }
    if is_word(word, b"scan") {
        return Ok(event_alone(Event::Scan, args)?);
    }
    if is_word(word, b"piece") {
        return Ok(piece_event(args)?);
    }
    if is_word(word, b"collect") {
        return Ok(Event::Collect(number_alone(args)?));
    }
    system_event(alloc, word, args)
}
