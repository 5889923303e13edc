//! Runs on images that are cut or spoiled.

use crate::devices::{Ended, run, stores};
use crate::fault::{Fault, NONE};
use crate::judge::is_lawful;
use crate::odd::OddStore;
use crate::rebuilt::{Rebuilt, push_looks};
use crate::report::{Counts, Wrong, told};
use crate::scripts::LOG;
use crate::texts::{behind_lines, first_bytes, first_lines, spoil, text_of};
use crate::zeros::are_answers;
use std::alloc::Global;
use std::io;
use wtf_dev::Shelf;
use wtf_serve::{FINISHED, IMAGE_REFUSED};

/// The line of an image that ends too early.
const NO_IMAGE: &[u8] = b"image refused 1 notanimage\n";

/// The lines of refused images.
const REFUSALS: [&[u8]; 4] = [
    NO_IMAGE,
    b"image refused 2 badtree\n",
    b"image refused 3 pointeroutside\n",
    b"image refused 4 badsettings\n",
];

/// What each byte of an image is made in turn, where not all values are tried.
const SPOILS: [u8; 4] = [0x00, 0x01, 0x80, 0xff];

/// The image that the log leaves ends before each of its bytes in turn, but the first: it is refused, and stays.
pub fn cut_images(rt: &HostRuntime, counts: &mut Counts) -> io::Result<()> {
    let mut shelf = stores(rt.alloc(), &NONE)?;
    let left = run(rt.alloc(), &LOG, &NONE, &mut shelf, &[])?;
    each_front(rt, &mut shelf, left.kept(), counts)
}

/// Tries the fronts of an image.
fn each_front(
    rt: &HostRuntime,
    shelf: &mut Shelf<OddStore>,
    image: &[u8],
    counts: &mut Counts,
) -> io::Result<()> {
    for at in 1..image.len() as u64 {
        try_front(rt, shelf, first_bytes(image, at), counts)?;
    }
    Ok(())
}

/// Runs a script on the front of an image.
fn try_front(
    rt: &HostRuntime,
    shelf: &mut Shelf<OddStore>,
    front: &[u8],
    counts: &mut Counts,
) -> io::Result<()> {
    let fault = Fault {
        at: front.len() as u64,
        ..NONE
    };
    let ended = run(rt.alloc(), &LOG, &NONE, shelf, front)?;
    let found = wrong_refusal(&ended, front, &[NO_IMAGE]);
    told(rt, &LOG, &fault, found, &ended, counts)
}

/// What is wrong with a run that is to refuse an image, by one of these lines.
fn wrong_refusal(ended: &Ended, image: &[u8], lines: &[&[u8]]) -> Option<Wrong> {
    if ended.status != IMAGE_REFUSED {
        return Some(Wrong::Status);
    }
    if !is_one_of(ended.output(), lines) {
        return Some(Wrong::Text);
    }
    if ended.kept() != image {
        return Some(Wrong::Kept);
    }
    None
}

/// Whether an output is one of these lines.
fn is_one_of(output: &[u8], lines: &[&[u8]]) -> bool {
    let mut one = false;
    for line in lines.iter() {
        one = one || *line == output;
    }
    one
}

/// Each byte of the image that the log leaves is spoiled in turn: the image is refused, and stays, or the run on it answers
/// as one on the tree that it shows.
pub fn spoiled_images(rt: &HostRuntime, all: bool, counts: &mut Counts) -> io::Result<()> {
    let mut shelf = stores(rt.alloc(), &NONE)?;
    let left = run(rt.alloc(), &LOG, &NONE, &mut shelf, &[])?;
    each_spoiled(rt, &mut shelf, left.kept(), all, counts)
}

/// Tries another byte at each place of an image.
fn each_spoiled(
    rt: &HostRuntime,
    shelf: &mut Shelf<OddStore>,
    image: &[u8],
    all: bool,
    counts: &mut Counts,
) -> io::Result<()> {
    for at in 0..image.len() {
        for byte in 0..=255u8 {
            if all || SPOILS.contains(&byte) {
                try_spoiled(rt, shelf, image, at, byte, counts)?;
            }
        }
    }
    Ok(())
}

/// Begins a run with an image of which one byte is another, and counts whether what came of it is right.
fn try_spoiled(
    rt: &HostRuntime,
    shelf: &mut Shelf<OddStore>,
    image: &[u8],
    at: usize,
    byte: u8,
    counts: &mut Counts,
) -> io::Result<()> {
    let fault = Fault {
        at: at as u64,
        with: u64::from(byte),
        ..NONE
    };
    let spoiled = spoil(rt.alloc(), image, at, byte)?;
    let script = LOG.with_lines(b"sys tree\n");
    let ended = run(rt.alloc(), &script, &NONE, shelf, spoiled.as_slice())?;
    let found = wrong_spoiled(rt.alloc(), shelf, &ended, spoiled.as_slice())?;
    told(rt, &script, &fault, found, &ended, counts)
}

/// What is wrong with a run on an image of which one byte is another.
fn wrong_spoiled(
    alloc: Global,
    shelf: &mut Shelf<OddStore>,
    ended: &Ended,
    image: &[u8],
) -> io::Result<Option<Wrong>> {
    if ended.status == FINISHED {
        return wrong_taken(alloc, shelf, ended.output(), image);
    }
    Ok(wrong_refusal(ended, image, &REFUSALS))
}

/// What is wrong with a run on an image that was taken, and whose tree was shown.
fn wrong_taken(
    alloc: Global,
    shelf: &mut Shelf<OddStore>,
    shown: &[u8],
    image: &[u8],
) -> io::Result<Option<Wrong>> {
    let tree = first_lines(behind_lines(shown, 1), 1);
    let mut lines = Vec::new(alloc);
    push_looks(&mut lines, text_of(tree))?;
    let ended = run(
        alloc,
        &LOG.with_lines(lines.as_slice()),
        &NONE,
        shelf,
        image,
    )?;
    if ended.status != FINISHED {
        return Ok(Some(Wrong::Status));
    }
    wrong_behind(alloc, lines.as_slice(), ended.output())
}

/// What is wrong with the answers of a run on an image: one on an empty store would answer so, behind lines that make the tree that
/// it shows.
fn wrong_behind(alloc: Global, lines: &[u8], output: &[u8]) -> io::Result<Option<Wrong>> {
    let mut rebuilt = Rebuilt::new(alloc);
    let are_all = are_answers(alloc, &LOG.with_lines(lines), output);
    if !are_all || !rebuilt.make(alloc, text_of(output))? {
        return Ok(Some(Wrong::Text));
    }
    let (made, answers) = (rebuilt.lines.as_slice(), rebuilt.output.as_slice());
    if !is_lawful(alloc, [made, lines, &[]], [answers, &[], &[]]) {
        return Ok(Some(Wrong::Unlawful));
    }
    Ok(None)
}
