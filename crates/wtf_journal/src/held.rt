//! What the records of a journal give: the image of the last one, with the changes after it made in it.

ghost use Rattle.std.specs.Prelude.{◌≡◌, None, true, false, IfOk, MatchOption};
ghost use Rattle.wtf_imagefmt.specs.Images.{HasText};
ghost use Rattle.wtf_imagefmt.specs.Reading.{image_of};
ghost use Rattle.wtf_imagefmt.specs.Rows.{ImageRows};
ghost use Rattle.wtf_changes.specs.Applying.{IsSomeImage};
ghost use Rattle.wtf_changes.specs.Drafts.{taken, written};
ghost use Rattle.wtf_changes.specs.Rows.{change_rows};
ghost use Rattle.wtf_journal.specs.Held.{DrawsHeld, IsKeptAs, IsMadeBy, IsTextOf, changed_by, held_by, image_by, is_changes, made_in, nothing_held, rows_shown, view_by};

use crate::Meaning;
use crate::body::{CHANGES, IMAGE};
use std::alloc::Global;
use std::marker::Model;
use std::mem;
use wtf_base::OutOfMemory;
use wtf_changes::{ApplyError, Changes, Draft, read};
use wtf_imagefmt::{image_of, write};
use wtf_spillfmt::ListError;

/// What the records so far give.
#[derive(Drop)]
pub(crate) enum Shown {
    /// No image: there was no record.
    Nothing,
    /// The image with these bytes.
    Image(Vec<u8>),
    /// An image in which changes were made.
    Changed(Draft),
}

/// The image that the records so far give, if there is one.
#[derive(Drop)]
pub(crate) struct Held {
    alloc: Global,
    shown: Shown,
}

impl Model for Held {
    ghost use Rattle.wtf_journal.specs.Held.{HeldView, IsKeptAs, is_changed, rows_shown};

    ghost Value = { HeldView };

    ghost view = { λ h. record { rows = rows_shown h.shown; behind = is_changed h.shown } };

    ghost invariant = { λ h. IsKeptAs h.shown };
}

impl Held {
    /// Nothing yet.
    pub(crate) fn none(alloc: Global) -> Held
        ensures { result ≡ nothing_held }
    {
        Held {
            alloc,
            shown: Shown::Nothing,
        }
    }

    /// Whether changes came behind the last image.
    pub(crate) fn is_behind(&self) -> bool
        ensures { result ≡ self.now.behind }
    {
        matches!(self.shown, Shown::Changed(_))
    }

    /// The bytes of the image, none where there is none.
    pub(crate) fn into_image(self) -> Result<Vec<u8>, OutOfMemory>
        ensures { IfOk result (λ v. IsTextOf self.rows v.items) }
    {
        bytes_of(self.alloc, self.shown)
    }
}

impl Meaning for Held {
    ghost makes = { view_by };

    fn take(&mut self, body: &[u8]) -> Result<bool, OutOfMemory> {
        let before = mem::replace(&mut self.shown, Shown::Nothing);
        let Some(shown) = made(self.alloc, before, body)? else {
            return Ok(false);
        };
        self.shown = shown;
        Ok(true)
    }
}

// The bytes of an image, none where there is none.
fn bytes_of(alloc: Global, shown: Shown) -> Result<Vec<u8>, OutOfMemory>
    requires { IsKeptAs shown }
    ensures { IfOk result (λ v. IsTextOf (rows_shown shown) v.items) }
{
    match shown {
        Shown::Nothing => Ok(Vec::new(alloc)),
        Shown::Image(image) => Ok(image),
        Shown::Changed(draft) => text_of(alloc, &draft),
    }
}

// The bytes of an image in which changes were made.
fn text_of(alloc: Global, draft: &Draft) -> Result<Vec<u8>, OutOfMemory>
    requires { taken (written draft.now) ≡ draft.now }
    ensures { IfOk result (λ v. HasText (written draft.now) v.items) }
{
    let image = draft.image(alloc)?;
    write(alloc, &image)
}

// Whether a body is one of changes.
fn is_changes(body: &[u8]) -> bool
    ensures { result ≡ is_changes body.now }
{
    !body.is_empty() && body[0] == CHANGES
}

// What a body makes of what there was before it, if it is in the format.
fn made(alloc: Global, before: Shown, body: &[u8]) -> Result<Option<Shown>, OutOfMemory>
    requires { IsKeptAs before }
    ensures { IfOk result (λ o. MatchOption o (held_by (rows_shown before) body.now ≡ None)
        (IsMadeBy (held_by (rows_shown before) body.now) (is_changes body.now))) }
{
    if body.is_empty() {
        return Ok(None);
    }
    if body[0] == IMAGE {
        return image_in(alloc, &body[1..]);
    }
    if body[0] != CHANGES {
        return Ok(None);
    }
    changed(alloc, before, &body[1..])
}

// Bytes, if they are an image.
fn image_in(alloc: Global, bytes: &[u8]) -> Result<Option<Shown>, OutOfMemory>
    ensures { IfOk result (λ o. MatchOption o (image_by bytes.now ≡ None)
        (IsMadeBy (image_by bytes.now) false)) }
{
    match image_of(alloc, bytes) {
        Ok(_) => {}
        Err(ListError::NotAList) => return Ok(None),
        Err(ListError::Memory) => return Err(OutOfMemory),
    }
    let mut image = Vec::new(alloc);
    image.extend_from_slice(bytes)?;
    Ok(Some(Shown::Image(image)))
}

// What there was before with changes made in it, if the bytes are changes of it.
fn changed(alloc: Global, before: Shown, bytes: &[u8]) -> Result<Option<Shown>, OutOfMemory>
    requires { IsKeptAs before }
    ensures { IfOk result (λ o. MatchOption o (changed_by (rows_shown before) bytes.now ≡ None)
        (IsMadeBy (changed_by (rows_shown before) bytes.now) true)) }
{
    let Some(draft) = draft_of(alloc, before)? else {
        return Ok(None);
    };
    match read(alloc, bytes) {
        Ok(changes) => make(alloc, draft, &changes),
        Err(ListError::NotAList) => Ok(None),
        Err(ListError::Memory) => Err(OutOfMemory),
    }
}

// A draft of the image that there was before, if there was one.
fn draft_of(alloc: Global, before: Shown) -> Result<Option<Draft>, OutOfMemory>
    requires { IsKeptAs before }
    ensures { IfOk result (λ o. MatchOption o (rows_shown before ≡ None) (DrawsHeld (rows_shown before))) }
{
    match before {
        Shown::Nothing => Ok(None),
        Shown::Image(image) => Ok(Some(drawn(alloc, &image)?)),
        Shown::Changed(draft) => Ok(Some(draft)),
    }
}

// A draft of the image with these bytes.
fn drawn(alloc: Global, image: &[u8]) -> Result<Draft, OutOfMemory>
    requires { IsSomeImage image.now }
    ensures { IfOk result (DrawsHeld (image_of image.now)) }
{
    match image_of(alloc, image) {
        Ok(image) => Draft::of(alloc, &image),
        Err(_) => Err(OutOfMemory),
    }
}

// An image with changes made in it, if it can have them.
fn make(alloc: Global, draft: Draft, changes: &Changes) -> Result<Option<Shown>, OutOfMemory>
    ensures { (x : ImageRows) → draft ≡ taken x → IfOk result (λ o. MatchOption o
        (made_in x (change_rows changes.now) ≡ None)
        (IsMadeBy (made_in x (change_rows changes.now)) true)) }
{
    let mut draft = draft;
    match draft.change(alloc, changes) {
        Ok(()) => Ok(Some(Shown::Changed(draft))),
        Err(ApplyError::NotChanges) => Ok(None),
        Err(ApplyError::Memory) => Err(OutOfMemory),
    }
}
