//! Changes made in an image.

ghost use Rattle.std.specs.Prelude.{◌≡◌, IfOk, IfErr};
ghost use Rattle.wtf_imagefmt.specs.Rows.{image_rows};
ghost use Rattle.wtf_imagefmt.specs.Images.{HasText};
ghost use Rattle.wtf_changes.specs.Applying.{IsSomeImage, HasApplied, IsApplyRefusal, no_changes_by};

use crate::ApplyError;
use crate::draft::Draft;
use crate::reading::read;
use std::alloc::Global;
use wtf_base::OutOfMemory;
use wtf_imagefmt::{Image, image_of, write};
use wtf_spillfmt::ListError;

/// The rows of an image.
fn read_image(alloc: Global, image: &[u8]) -> Result<Image, OutOfMemory>
    requires { IsSomeImage image.now }
    ensures { IfOk result (λ x. HasText (image_rows x) image.now) }
{
    match image_of(alloc, image) {
        Ok(image) => Ok(image),
        Err(_) => Err(OutOfMemory),
    }
}

/// Why bytes that could not be read are no changes.
fn no_changes(why: ListError) -> ApplyError
    ensures { result ≡ no_changes_by why }
{
    match why {
        ListError::NotAList => ApplyError::NotChanges,
        ListError::Memory => ApplyError::Memory,
    }
}

/// An image with changes made in it, as an image. `NotChanges` comes just where the second bytes are no
/// changes, or give a region to a file that is not there behind them.
pub fn apply(alloc: Global, image: &[u8], changes: &[u8]) -> Result<Vec<u8>, ApplyError>
    requires { IsSomeImage image.now }
    ensures made { IfOk result (λ v. HasApplied image.now changes.now v.items) }
    ensures refused { IfErr result (IsApplyRefusal image.now changes.now) }
{
    let image = read_image(alloc, image)?;
    let changes = match read(alloc, changes) {
        Ok(changes) => changes,
        Err(why) => return Err(no_changes(why)),
    };
    let mut draft = Draft::of(alloc, &image)?;
    match draft.change(alloc, &changes) {
        Ok(()) => {}
        Err(why) => return Err(why),
    }
    let image = draft.image(alloc)?;
    let bytes = write(alloc, &image)?;
    Ok(bytes)
}
