//! What a client's verb asks, with what stands behind it: one row a verb.

ghost use Rattle.std.specs.Prelude.{◌≡◌};
ghost use Rattle.wtf_lex.specs.Words.{words_behind};
ghost use Rattle.wtf_script.specs.Arguments.{AnswersAs};
ghost use Rattle.wtf_script.specs.Grammar.{path_alone, two_paths, handle_alone, handle_number, handle_data, handle_slice, open_call, offset_of, place_of, seek_call, read_call, yank_call, peek_call, cut_call, concat_call, slice_call, bytes_call, handle_call, paths_call, path_call, alone, verb_of};

use crate::LineError;
use crate::args::{handle_of, number_from_to, number_of_word, path_of, paths_of, slice_of};
use crate::counts::{
    four_words, no_word, one_word, three_words, two_words, two_words_and_more, word_and_many,
};
use crate::data::data_of;
use std::alloc::Global;
use wtf_base::Bytes;
use wtf_lex::is_word;
use wtf_model::limits::MAX_SHOWN;
use wtf_model::{Kind, Op, Seek, Verb};
use wtf_path::Path;

/// P.
#[tactic(auto, unfolding(crate::specs::Grammar::path_alone))]
pub(crate) fn path_alone(alloc: Global, args: &[u8]) -> Result<Path, LineError>
    ensures { AnswersAs result (path_alone (words_behind args.now)) }
{
    let p = one_word(args)?;
    path_of(alloc, p)
}

/// P Q.
#[tactic(auto, unfolding(crate::specs::Grammar::two_paths))]
fn two_paths(alloc: Global, args: &[u8]) -> Result<(Path, Path), LineError>
    ensures { AnswersAs result (two_paths (words_behind args.now)) }
{
    let (p, q) = two_words(args)?;
    let p = path_of(alloc, p)?;
    let q = path_of(alloc, q)?;
    Ok((p, q))
}

/// F.
#[tactic(auto, unfolding(crate::specs::Grammar::handle_alone))]
fn handle_alone(args: &[u8]) -> Result<u8, Kind>
    ensures { result ≡ handle_alone (words_behind args.now) }
{
    let f = one_word(args)?;
    handle_of(f)
}

/// F N.
#[tactic(auto, unfolding(crate::specs::Grammar::handle_number))]
fn handle_number(args: &[u8]) -> Result<(u8, u64), Kind>
    ensures { result ≡ handle_number (words_behind args.now) }
{
    let (f, n) = two_words(args)?;
    let f = handle_of(f)?;
    let n = number_of_word(n)?;
    Ok((f, n))
}

/// F DATA.
#[tactic(auto, unfolding(crate::specs::Grammar::handle_data))]
fn handle_data(alloc: Global, args: &[u8]) -> Result<(u8, Bytes), LineError>
    ensures { AnswersAs result (handle_data (words_behind args.now)) }
{
    let (f, bytes) = two_words(args)?;
    let f = handle_of(f)?;
    let bytes = data_of(alloc, bytes)?;
    Ok((f, bytes))
}

/// F S.
#[tactic(auto, unfolding(crate::specs::Grammar::handle_slice))]
fn handle_slice(args: &[u8]) -> Result<(u8, u8), Kind>
    ensures { result ≡ handle_slice (words_behind args.now) }
{
    let (f, s) = two_words(args)?;
    let f = handle_of(f)?;
    let s = slice_of(s)?;
    Ok((f, s))
}

/// `open F P`.
#[tactic(auto, unfolding(crate::specs::Grammar::open_call))]
fn open_call(alloc: Global, args: &[u8]) -> Result<Op<Bytes>, LineError>
    ensures { AnswersAs result (open_call (words_behind args.now)) }
{
    let (f, p) = two_words(args)?;
    let f = handle_of(f)?;
    let p = path_of(alloc, p)?;
    Ok(Op::Open(f, p))
}

/// The third argument of a seek that takes one.
#[tactic(auto, unfolding(crate::specs::Grammar::offset_of))]
fn offset_of(more: &[u8]) -> Result<u64, Kind>
    ensures { result ≡ offset_of (words_behind more.now) }
{
    let n = one_word(more)?;
    number_of_word(n)
}

/// `set N`, `fwd N`, `back N`, `end`.
#[tactic(auto, unfolding(crate::specs::Grammar::place_of))]
fn place_of(way: &[u8], more: &[u8]) -> Result<Seek, Kind>
    ensures { result ≡ place_of way.now (words_behind more.now) }
{
    if is_word(way, b"set") {
        return Ok(Seek::Set(offset_of(more)?));
    }
    if is_word(way, b"fwd") {
        return Ok(Seek::Fwd(offset_of(more)?));
    }
    if is_word(way, b"back") {
        return Ok(Seek::Back(offset_of(more)?));
    }
    if is_word(way, b"end") {
        no_word(more)?;
        return Ok(Seek::End);
    }
    Err(Kind::Word)
}

/// `seek F set N`, `seek F fwd N`, `seek F back N`, `seek F end`.
#[tactic(auto, unfolding(crate::specs::Grammar::seek_call))]
fn seek_call(args: &[u8]) -> Result<Op<Bytes>, Kind>
    ensures { result ≡ seek_call (words_behind args.now) }
{
    let (f, way, more) = two_words_and_more(args)?;
    let f = handle_of(f)?;
    let place = place_of(way, more)?;
    Ok(Op::Seek(f, place))
}

/// `read F N`.
#[tactic(auto, unfolding(crate::specs::Grammar::read_call))]
fn read_call(args: &[u8]) -> Result<Op<Bytes>, Kind>
    ensures { result ≡ read_call (words_behind args.now) }
{
    let (f, n) = two_words(args)?;
    let f = handle_of(f)?;
    let n = number_from_to(0, MAX_SHOWN, n)?;
    Ok(Op::Read(f, n))
}

/// `yank F N S`.
#[tactic(auto, unfolding(crate::specs::Grammar::yank_call))]
fn yank_call(args: &[u8]) -> Result<Op<Bytes>, Kind>
    ensures { result ≡ yank_call (words_behind args.now) }
{
    let (f, n, s) = three_words(args)?;
    let f = handle_of(f)?;
    let n = number_of_word(n)?;
    let s = slice_of(s)?;
    Ok(Op::Yank(f, n, s))
}

/// `peek S OFF N`.
#[tactic(auto, unfolding(crate::specs::Grammar::peek_call))]
fn peek_call(args: &[u8]) -> Result<Op<Bytes>, Kind>
    ensures { result ≡ peek_call (words_behind args.now) }
{
    let (s, off, n) = three_words(args)?;
    let from = slice_of(s)?;
    let off = number_of_word(off)?;
    let len = number_from_to(0, MAX_SHOWN, n)?;
    Ok(Op::Peek { from, off, len })
}

/// `cut S OFF N T`.
#[tactic(auto, unfolding(crate::specs::Grammar::cut_call))]
fn cut_call(args: &[u8]) -> Result<Op<Bytes>, Kind>
    ensures { result ≡ cut_call (words_behind args.now) }
{
    let (s, off, n, t) = four_words(args)?;
    let from = slice_of(s)?;
    let off = number_of_word(off)?;
    let len = number_of_word(n)?;
    let to = slice_of(t)?;
    Ok(Op::Cut { from, off, len, to })
}

/// `concat Q P ..`.
#[tactic(auto, unfolding(crate::specs::Grammar::concat_call))]
fn concat_call(alloc: Global, args: &[u8]) -> Result<Op<Bytes>, LineError>
    ensures { AnswersAs result (concat_call (words_behind args.now)) }
{
    let (q, more) = word_and_many(args)?;
    let target = path_of(alloc, q)?;
    let sources = paths_of(alloc, more)?;
    Ok(Op::Concat(target, sources))
}

/// The calls on slices; any other word is no verb.
#[tactic(auto, unfolding(crate::specs::Grammar::slice_call))]
fn slice_call(word: &[u8], args: &[u8]) -> Result<Op<Bytes>, Kind>
    ensures { result ≡ slice_call word.now (words_behind args.now) }
{
    if is_word(word, b"yank") {
        return yank_call(args);
    }
    if is_word(word, b"peek") {
        return peek_call(args);
    }
    if is_word(word, b"cut") {
        return cut_call(args);
    }
    if is_word(word, b"paste") {
        let (f, s) = handle_slice(args)?;
        return Ok(Op::Paste(f, s));
    }
    if is_word(word, b"glue") {
        let (f, s) = handle_slice(args)?;
        return Ok(Op::Glue(f, s));
    }
    Err(Kind::Verb)
}

/// The calls on the bytes of an open file.
#[tactic(auto, unfolding(crate::specs::Grammar::bytes_call))]
fn bytes_call(alloc: Global, word: &[u8], args: &[u8]) -> Result<Op<Bytes>, LineError>
    ensures { AnswersAs result (bytes_call word.now (words_behind args.now)) }
{
    if is_word(word, b"read") {
        return Ok(read_call(args)?);
    }
    if is_word(word, b"write") {
        let (f, bytes) = handle_data(alloc, args)?;
        return Ok(Op::Write(f, bytes));
    }
    if is_word(word, b"append") {
        let (f, bytes) = handle_data(alloc, args)?;
        return Ok(Op::Append(f, bytes));
    }
    if is_word(word, b"truncate") {
        let (f, n) = handle_number(args)?;
        return Ok(Op::Truncate(f, n));
    }
    if is_word(word, b"punch") {
        let (f, n) = handle_number(args)?;
        return Ok(Op::Punch(f, n));
    }
    Ok(slice_call(word, args)?)
}

/// The calls on handles.
#[tactic(auto, unfolding(crate::specs::Grammar::handle_call))]
fn handle_call(alloc: Global, word: &[u8], args: &[u8]) -> Result<Op<Bytes>, LineError>
    ensures { AnswersAs result (handle_call word.now (words_behind args.now)) }
{
    if is_word(word, b"open") {
        return open_call(alloc, args);
    }
    if is_word(word, b"close") {
        return Ok(Op::Close(handle_alone(args)?));
    }
    if is_word(word, b"seek") {
        return Ok(seek_call(args)?);
    }
    if is_word(word, b"tell") {
        return Ok(Op::Tell(handle_alone(args)?));
    }
    bytes_call(alloc, word, args)
}

/// The calls on several paths.
#[tactic(auto, unfolding(crate::specs::Grammar::paths_call))]
fn paths_call(alloc: Global, word: &[u8], args: &[u8]) -> Result<Op<Bytes>, LineError>
    ensures { AnswersAs result (paths_call word.now (words_behind args.now)) }
{
    if is_word(word, b"rename") {
        let (p, q) = two_paths(alloc, args)?;
        return Ok(Op::Rename(p, q));
    }
    if is_word(word, b"link") {
        let (p, q) = two_paths(alloc, args)?;
        return Ok(Op::Link(p, q));
    }
    if is_word(word, b"copy") {
        let (p, q) = two_paths(alloc, args)?;
        return Ok(Op::Copy(p, q));
    }
    if is_word(word, b"concat") {
        return concat_call(alloc, args);
    }
    handle_call(alloc, word, args)
}

/// The calls on one path.
#[tactic(auto, unfolding(crate::specs::Grammar::path_call))]
fn path_call(alloc: Global, word: &[u8], args: &[u8]) -> Result<Op<Bytes>, LineError>
    ensures { AnswersAs result (path_call word.now (words_behind args.now)) }
{
    if is_word(word, b"mkdir") {
        return Ok(Op::Mkdir(path_alone(alloc, args)?));
    }
    if is_word(word, b"rmdir") {
        return Ok(Op::Rmdir(path_alone(alloc, args)?));
    }
    if is_word(word, b"create") {
        return Ok(Op::Create(path_alone(alloc, args)?));
    }
    if is_word(word, b"unlink") {
        return Ok(Op::Unlink(path_alone(alloc, args)?));
    }
    if is_word(word, b"list") {
        return Ok(Op::List(path_alone(alloc, args)?));
    }
    if is_word(word, b"stat") {
        return Ok(Op::Stat(path_alone(alloc, args)?));
    }
    paths_call(alloc, word, args)
}

/// A verb that takes no argument.
#[tactic(auto, unfolding(crate::specs::Grammar::alone))]
fn alone(verb: Verb, args: &[u8]) -> Result<Verb, Kind>
    ensures { result ≡ alone verb (words_behind args.now) }
{
    no_word(args)?;
    Ok(verb)
}

/// The verbs of a client.
#[tactic(auto, unfolding(crate::specs::Grammar::verb_of))]
pub(crate) fn verb_of(alloc: Global, word: &[u8], args: &[u8]) -> Result<Verb, LineError>
    ensures { AnswersAs result (verb_of word.now (words_behind args.now)) }
{
    if is_word(word, b"begin") {
        return Ok(alone(Verb::Begin, args)?);
    }
    if is_word(word, b"try") {
        return Ok(alone(Verb::Try, args)?);
    }
    if is_word(word, b"step") {
        return Ok(alone(Verb::Step, args)?);
    }
    if is_word(word, b"commit") {
        return Ok(alone(Verb::Commit, args)?);
    }
    if is_word(word, b"abort") {
        return Ok(alone(Verb::Abort, args)?);
    }
    Ok(Verb::Call(path_call(alloc, word, args)?))
}
