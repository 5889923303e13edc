//! Runs on images that are damaged.

use std::alloc::Global;
use std::test::Fail;
use wtf_dev::{MemStore, Shelf};
use wtf_trial::devices::{Ended, NONE, run_on, stores};
use wtf_trial::texts::*;

/// A damaged image of an empty store: how many of its bytes are left, the byte that is another, and the line of the refusal.
struct Damaged {
    len: usize,
    at: usize,
    byte: u8,
    line: &'static [u8],
}

/// There is no server, what stands at the root is no directory, and a byte is missing.
const REFUSED: [Damaged; 3] = [
    Damaged {
        len: 42,
        at: 8,
        byte: 0,
        line: b"image refused 4 badsettings\n",
    },
    Damaged {
        len: 42,
        at: 37,
        byte: 1,
        line: b"image refused 1 notanimage\n",
    },
    Damaged {
        len: 41,
        at: 41,
        byte: 0,
        line: b"image refused 1 notanimage\n",
    },
];

/// An image with another byte at one place, where it has such a place.
pub(crate) fn spoiled(alloc: Global, image: &[u8], at: usize, byte: u8) -> Result<Vec<u8>, Fail> {
    let mut spoiled = image.to_vec(alloc)?;
    if let Some(place) = spoiled.get_mut(at) {
        *place = byte;
    }
    Ok(spoiled)
}

/// The first bytes of an image.
fn front(image: &[u8], n: usize) -> &[u8] {
    if n < image.len() {
        return &image[..n];
    }
    image
}

/// Whether a run with an empty script took an image, or refused it and left it.
fn is_taken_or_left(ended: &Ended, image: &[u8]) -> bool {
    let output = ended.output.as_slice();
    match ended.status {
        0 => output.starts_with(b"wtf servers ") && output.ends_with(b"\n"),
        6 => REFUSALS.iter().any(|line| *line == output) && ended.kept.as_slice() == image,
        _ => false,
    }
}

/// Runs an empty script on an image: its status, where the image was taken, or was refused and left.
fn status_on(alloc: Global, shelf: &mut Shelf<MemStore>, image: &[u8]) -> Result<Option<u8>, Fail> {
    let ended = run_on(alloc, "", &[], NONE, shelf, image)?;
    if is_taken_or_left(&ended, image) {
        return Ok(Some(ended.status));
    }
    Ok(None)
}

/// Whether an image is taken or refused where this byte is another.
fn is_spoiled_known(
    alloc: Global,
    shelf: &mut Shelf<MemStore>,
    whole: &[u8],
    at: usize,
) -> Result<bool, Fail> {
    let other = spoiled(alloc, whole, at, 0xff)?;
    Ok(status_on(alloc, shelf, other.as_slice())?.is_some())
}

/// Whether an image that ends before this byte is refused; an empty one is none, and is taken.
fn is_front_known(
    alloc: Global,
    shelf: &mut Shelf<MemStore>,
    whole: &[u8],
    at: usize,
) -> Result<bool, Fail> {
    let status = if at > 0 { 6 } else { 0 };
    Ok(status_on(alloc, shelf, front(whole, at))? == Some(status))
}

/// The first byte of an image where one of both is not so; its length where there is none.
fn first_unknown(alloc: Global, shelf: &mut Shelf<MemStore>, whole: &[u8]) -> Result<usize, Fail> {
    for at in 0..whole.len() {
        if !is_spoiled_known(alloc, shelf, whole, at)?
            || !is_front_known(alloc, shelf, whole, at)?
        {
            return Ok(at);
        }
    }
    Ok(whole.len())
}

/// The image of files in a directory is taken or refused however it is damaged.
fn is_each_byte_known(alloc: Global) -> Result<bool, Fail> {
    let mut shelf = stores(alloc, 16, 0, None)?;
    let first = run_on(alloc, "", LOG_SCRIPT, NONE, &mut shelf, &[])?;
    let whole = first.kept.as_slice();
    Ok(first_unknown(alloc, &mut shelf, whole)? == whole.len())
}

/// Whether an image is refused with this line, and left.
fn is_refused_so(alloc: Global, image: &[u8], line: &[u8]) -> Result<bool, Fail> {
    let mut shelf = stores(alloc, 16, 0, None)?;
    let ended = run_on(alloc, "", SCRIPT, NONE, &mut shelf, image)?;
    Ok(ended.has(6, line) && ended.kept.as_slice() == image)
}

fn is_told(alloc: Global, row: &Damaged) -> Result<bool, Fail> {
    let image = spoiled(alloc, front(EMPTY_IMAGE, row.len), row.at, row.byte)?;
    is_refused_so(alloc, image.as_slice(), row.line)
}

/// Each byte of an image is spoiled in turn, and the image ends before each of its bytes.
#[test]
fn damaged_images_are_taken_or_refused(rt: HostRuntime) -> Result<(), Fail> {
    assert!(rt; is_each_byte_known(rt.alloc())?);
    Ok(())
}

/// Each refusal has its line, and the image stays on the keeper.
#[test]
fn refused_images_are_told(rt: HostRuntime) -> Result<(), Fail> {
    for row in REFUSED.iter() {
        assert!(rt; is_told(rt.alloc(), row)?, "byte {}", row.at);
    }
    Ok(())
}
