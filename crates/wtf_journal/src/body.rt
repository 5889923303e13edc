//! What the body of a record holds.

ghost use Rattle.std.specs.Prelude.{◌≡◌, ◌++◌, ◌<◌, ◌^◌, ◌∷◌, [], length, IfOk};
ghost use Rattle.wtf_journal.specs.Records.{framed};
ghost use Rattle.wtf_journal.specs.Views.{body_of, record_bytes, kind_of};

use std::alloc::{AllocError, Global};

// What stands before the bytes of an image, and of changes, in a body.
pub(crate) const IMAGE: u8 = 0;

pub(crate) const CHANGES: u8 = 1;

/// What the body of a record holds.
#[derive(Clone, Copy, Debug)]
pub enum Record<'a> {
    /// An image.
    Image(&'a [u8]),
    /// Changes that are made in the image before them.
    Changes(&'a [u8]),
}

// What stands before its bytes, and these.
fn parts<'a>(body: Record<'a>) -> (u8, &'a [u8])
    ensures { (result.0 ≡ kind_of body.entry) × (result.1.now ≡ record_bytes body.entry) }
{
    match body {
        Record::Image(bytes) => (IMAGE, bytes),
        Record::Changes(bytes) => (CHANGES, bytes),
    }
}

// The length of a body, the body, and a closed gate.
pub(crate) fn record_of(alloc: Global, body: Record<'_>) -> Result<Vec<u8>, AllocError>
    ensures bytes { IfOk result (λ v. v.items ≡ framed (body_of body.entry) ++ 0 ∷ []) }
    ensures short { IfOk result (λ v. length v.items < 2 ^ 64) }
{
    let (kind, rest) = parts(body);
    let mut bytes = Vec::new(alloc);
    bytes.extend_from_slice(&(rest.len() as u64 + 1).to_be_bytes())?;
    bytes.push(kind)?;
    bytes.extend_from_slice(rest)?;
    bytes.push(0)?;
    Ok(bytes)
}
