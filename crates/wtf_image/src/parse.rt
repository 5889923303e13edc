//! Bytes, read as the image that has them for its text.

ghost use Rattle.std.specs.Prelude.{◌≡◌, IfOk, IfErr};
ghost use Rattle.wtf_imagefmt.specs.Rows.{image_rows};
ghost use Rattle.wtf_image.specs.Images.{HasText, IsNoneOr, no_image_by};

use crate::LoadError;
use std::alloc::Global;
use wtf_imagefmt::{Image, image_of};
use wtf_spillfmt::ListError;

/// The image whose text the bytes are.
pub(crate) fn parse(alloc: Global, bytes: &[u8]) -> Result<Image, LoadError>
    ensures image { IfOk result (λ image. HasText (image_rows image) bytes.now) }
    ensures cause { IfErr result (IsNoneOr bytes.now) }
{
    match image_of(alloc, bytes) {
        Ok(image) => Ok(image),
        Err(why) => Err(no_image(why)),
    }
}

/// Why bytes that could not be read are no image.
fn no_image(why: ListError) -> LoadError
    ensures { result ≡ no_image_by why }
{
    match why {
        ListError::NotAList => LoadError::NotAnImage,
        ListError::Memory => LoadError::Memory,
    }
}
