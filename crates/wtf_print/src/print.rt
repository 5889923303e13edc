//! The texts of answers.

ghost use Rattle.std.specs.Prelude.{◌≡◌, ◌++◌, ◌∷◌, [], decimal, OnOk};
ghost use Rattle.std.specs.List.{flat_map};
ghost use Rattle.hex.specs.Hex.{encode_lower};
ghost use Rattle.wtf_print.specs.Texts.{name_text, word_text, kind_text, holder_text, row_text, links_text, text_of, settings_text};
ghost use Rattle.wtf_print.specs.Forms.{IsWritable};
ghost use Rattle.wtf_model.specs.declared.answer.Answer.{Answer};
ghost use Rattle.wtf_model.specs.Same.{AreSame};

use itoa::Buffer;
use wtf_base::{Bytes, OutOfMemory, Settings};
use wtf_model::{Answer, Holder, Kind, Row, Word};

/// Appends a number.
fn push_number(out: &mut Vec<u8>, n: u64) -> Result<(), OutOfMemory>
    ensures { OnOk result (out.new.items ≡ out.old.items ++ decimal n) }
{
    let mut buffer = Buffer::new();
    out.extend_from_slice(buffer.format(n).as_bytes())?;
    Ok(())
}

/// Appends a text.
fn push_text(out: &mut Vec<u8>, text: &[u8]) -> Result<(), OutOfMemory>
    ensures { OnOk result (out.new.items ≡ out.old.items ++ text.now) }
{
    out.extend_from_slice(text)?;
    Ok(())
}

/// Appends a text and a number.
fn push_with_number(out: &mut Vec<u8>, text: &[u8], n: u64) -> Result<(), OutOfMemory>
    ensures { OnOk result (out.new.items ≡ out.old.items ++ (text.now ++ decimal n)) }
{
    push_text(out, text)?;
    push_number(out, n)
}

/// Appends bytes as hexadecimal digits: the buffer grows once, and the digits are written in place.
fn push_hex(out: &mut Vec<u8>, bytes: &[u8]) -> Result<(), OutOfMemory>
    ensures { OnOk result (out.new.items ≡ out.old.items ++ encode_lower bytes.now) }
{
    let start = out.len();
    let Some(room) = bytes.len().checked_mul(2) else {
        return Err(OutOfMemory);
    };
    let Some(end) = start.checked_add(room) else {
        return Err(OutOfMemory);
    };
    out.resize(end, 0)?;
    let (_, digits) = out.as_mut_slice().split_at_mut(start);
    hex::encode_to_slice(bytes, digits).unwrap();
    Ok(())
}

/// Appends the names, each behind a space.
fn push_names(out: &mut Vec<u8>, names: &[Bytes]) -> Result<(), OutOfMemory>
    ensures { OnOk result (out.new.items ≡ out.old.items ++ flat_map name_text names.now) }
{
    for name in names {
        push_text(out, b" ")?;
        push_text(out, name.as_slice())?;
    }
    Ok(())
}

/// Appends a row of a shown tree behind a space.
#[tactic(auto, unfolding(crate::specs::Texts::row_text))]
fn push_row(out: &mut Vec<u8>, row: &Row) -> Result<(), OutOfMemory>
    ensures { OnOk result (out.new.items ≡ out.old.items ++ row_text row.now) }
{
    match row.len {
        None => {
            push_text(out, b" d:")?;
            push_text(out, row.path.as_bytes())
        }
        Some(len) => {
            push_text(out, b" f:")?;
            push_text(out, row.path.as_bytes())?;
            push_with_number(out, b":", len)
        }
    }
}

/// Appends the rows of a shown tree, each behind a space.
fn push_rows(out: &mut Vec<u8>, rows: &[Row]) -> Result<(), OutOfMemory>
    ensures { OnOk result (out.new.items ≡ out.old.items ++ flat_map row_text rows.now) }
{
    for row in rows {
        push_row(out, row)?;
    }
    Ok(())
}

/// Appends the label of a client or a job.
#[tactic(auto, unfolding(crate::specs::Texts::holder_text))]
fn push_holder(out: &mut Vec<u8>, holder: Holder) -> Result<(), OutOfMemory>
    ensures { OnOk result (out.new.items ≡ out.old.items ++ holder_text holder) }
{
    match holder {
        Holder::Client(c) => push_with_number(out, b"c", u64::from(c)),
        Holder::Job(j) => push_with_number(out, b"j", u64::from(j)),
    }
}

/// The word of a refusal.
#[tactic(auto, unfolding(crate::specs::Texts::word_text))]
fn word_bytes(word: Word) -> &'static [u8]
    ensures { result.now ≡ word_text word }
{
    match word {
        Word::Exists => b"exists",
        Word::NoParent => b"noparent",
        Word::NoEnt => b"noent",
        Word::NotDir => b"notdir",
        Word::Root => b"root",
        Word::NotEmpty => b"notempty",
        Word::IsDir => b"isdir",
        Word::Busy => b"busy",
        Word::InUse => b"inuse",
        Word::NoHandle => b"nohandle",
        Word::Range => b"range",
        Word::TooBig => b"toobig",
        Word::NoSlice => b"noslice",
        Word::Replaying => b"replaying",
        Word::Full => b"full",
        Word::InTx => b"intx",
        Word::NoTx => b"notx",
        Word::NoJob => b"nojob",
        Word::JobInUse => b"jobinuse",
        Word::NoRegion => b"noregion",
        Word::NoServer => b"noserver",
        Word::ScanBusy => b"scanbusy",
        Word::NoScan => b"noscan",
        Word::Live => b"live",
        Word::Long => b"long",
    }
}

/// Appends what is wrong with a line.
#[tactic(auto, unfolding(crate::specs::Texts::kind_text))]
fn push_kind(out: &mut Vec<u8>, kind: Kind) -> Result<(), OutOfMemory>
    ensures { OnOk result (out.new.items ≡ out.old.items ++ kind_text kind) }
{
    match kind {
        Kind::Long => push_text(out, b"long"),
        Kind::Empty => push_text(out, b"empty"),
        Kind::Byte => push_text(out, b"byte"),
        Kind::Space => push_text(out, b"space"),
        Kind::Actor => push_text(out, b"actor"),
        Kind::Verb => push_text(out, b"verb"),
        Kind::Count => push_text(out, b"count"),
        Kind::Handle => push_text(out, b"handle"),
        Kind::Slice => push_text(out, b"slice"),
        Kind::Job => push_text(out, b"job"),
        Kind::Number => push_text(out, b"number"),
        Kind::Limit => push_text(out, b"limit"),
        Kind::Path(n) => push_with_number(out, b"path ", u64::from(n)),
        Kind::DataForm => push_text(out, b"data"),
        Kind::Word => push_text(out, b"word"),
    }
}

/// Appends a text and two numbers with a space between them.
fn push_with_numbers(out: &mut Vec<u8>, text: &[u8], a: u64, b: u64) -> Result<(), OutOfMemory>
    ensures { OnOk result
        (out.new.items ≡ out.old.items ++ (text.now ++ decimal a ++ 32 ∷ [] ++ decimal b)) }
{
    push_with_number(out, text, a)?;
    push_with_number(out, b" ", b)
}

/// Appends how many paths a file has, where it has more than one.
#[tactic(auto, unfolding(crate::specs::Texts::links_text))]
fn push_links(out: &mut Vec<u8>, links: u64) -> Result<(), OutOfMemory>
    ensures { OnOk result (out.new.items ≡ out.old.items ++ links_text links) }
{
    if links < 2 {
        return Ok(());
    }
    push_with_number(out, b" links ", links)
}

/// Appends the text of an answer.
#[tactic(auto, unfolding(crate::specs::Texts::text_of))]
fn push_answer(answer: &Answer, out: &mut Vec<u8>) -> Result<(), OutOfMemory>
    ensures { OnOk result (out.new.items ≡ out.old.items ++ text_of answer.now) }
{
    match answer {
        Answer::Okay => push_text(out, b"ok"),
        Answer::Begun(n) => push_with_number(out, b"begun ", *n),
        Answer::Shown(bytes) => {
            push_text(out, b"data x:")?;
            push_hex(out, bytes.as_slice())
        }
        Answer::At(n) => push_with_number(out, b"at ", *n),
        Answer::Len(n) => push_with_number(out, b"len ", *n),
        Answer::Dir => push_text(out, b"dir"),
        Answer::File { len, links } => {
            push_with_number(out, b"file ", *len)?;
            push_links(out, *links)
        }
        Answer::Names(names) => {
            push_text(out, b"names")?;
            push_names(out, names.as_slice())
        }
        Answer::Committed(n) => push_with_number(out, b"committed ", *n),
        Answer::Retry { base, now } => push_with_numbers(out, b"retry ", *base, *now),
        Answer::Replayed(i) => push_with_number(out, b"replayed ", u64::from(*i)),
        Answer::Aborted(i, inner) => {
            push_with_number(out, b"aborted ", u64::from(*i))?;
            push_text(out, b" ")?;
            push_answer(inner, out)
        }
        Answer::Planned => push_text(out, b"planned"),
        Answer::Installed(n) => push_with_number(out, b"installed ", *n),
        Answer::Stale { base, now } => push_with_numbers(out, b"stale ", *base, *now),
        Answer::Scanning => push_text(out, b"scanning 64"),
        Answer::Held(holder) => {
            push_text(out, b"held ")?;
            push_holder(out, *holder)
        }
        Answer::More(n) => push_with_number(out, b"more ", u64::from(*n)),
        Answer::Done => push_text(out, b"done"),
        Answer::Collected(n) => push_with_number(out, b"collected ", *n),
        Answer::Saved(n) => push_with_number(out, b"saved ", *n),
        Answer::Tree(rows) => {
            push_text(out, b"tree")?;
            push_rows(out, rows.as_slice())
        }
        Answer::Refused(word) => {
            push_text(out, b"refused ")?;
            push_text(out, word_bytes(*word))
        }
        Answer::FaultRead(k) => push_with_number(out, b"fault read ", u64::from(*k)),
        Answer::FaultWrite => push_text(out, b"fault write"),
        Answer::FaultPunch(k) => push_with_number(out, b"fault punch ", u64::from(*k)),
        Answer::FaultSave => push_text(out, b"fault save"),
        Answer::Damaged(k) => push_with_number(out, b"damaged ", u64::from(*k)),
        Answer::Bad(kind) => {
            push_text(out, b"bad ")?;
            push_kind(out, *kind)
        }
    }
}

/// Appends the one text of an answer, without a line feed; no other answer in form has it. Where
/// memory is wanting, the front of the text may have been appended.
pub fn print_answer(answer: &Answer, out: &mut Vec<u8>) -> Result<(), OutOfMemory>
    ensures text { OnOk result (out.new.items ≡ out.old.items ++ text_of answer.now) }
    ensures one { (other : Answer) → IsWritable answer.now → IsWritable other →
        text_of other ≡ text_of answer.now → AreSame answer.now other }
{
    push_answer(answer, out)
}

/// Appends the text of the settings and of the number of installs so far, with which the output begins,
/// without a line feed. Where memory is wanting, the front of the text may have been appended.
#[tactic(auto, unfolding(crate::specs::Texts::settings_text))]
pub fn print_settings(settings: Settings, number: u64, out: &mut Vec<u8>) -> Result<(), OutOfMemory>
    ensures { OnOk result (out.new.items ≡ out.old.items ++ settings_text settings number) }
{
    push_with_number(out, b"wtf servers ", u64::from(settings.servers))?;
    push_with_number(out, b" replicas ", u64::from(settings.replicas))?;
    push_with_number(out, b" region ", u64::from(settings.region))?;
    push_with_number(out, b" number ", number)?;
    Ok(())
}
