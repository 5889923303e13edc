//! An image is loaded, or refused.

ghost use Rattle.std.specs.Prelude.{◌≡◌, ◌≤◌, true, length, IfOk, IfErr, OnOk};
ghost use Rattle.wtf_imagefmt.specs.Rows.{ImageRows, image_rows};
ghost use Rattle.wtf_imagefmt.specs.Shapes.{IsImage};
ghost use Rattle.wtf_image.specs.Images.{HasText};
ghost use Rattle.wtf_image.specs.Tables.{AreCounts, shown, ShowsRows};
ghost use Rattle.wtf_image.specs.Rules.{AreGoodSettings, IsGoodTree, size_in, is_lost, are_inside_without};
ghost use Rattle.wtf_image.specs.Loading.{IsChecked, IsLoadRefusal, IsRefusalWithout, IsCheckRefusal, IsLateRefusal, IsPartly, IsLoaded};
ghost use Rattle.wtf_image.specs.Outcome.{IsLoadOf, IsLoadWithout};

use crate::LoadError;
use crate::counts::{counts_of, seed_counts};
use crate::inside::are_files_inside;
use crate::names::{directories, seed_dirs};
use crate::parse::parse;
use crate::seeding::{seed_files, seed_paths};
use crate::settings::good_settings;
use crate::tree::is_tree;
use std::alloc::Global;
use std::collections::BTreeMap;
use wtf_base::{InodeId, OutOfMemory, Settings};
use wtf_dev::{Shelf, SliceStore};
use wtf_imagefmt::Image;
use wtf_kv::Kv;
use wtf_values::{Key, Value};

/// What was loaded: the metadata of all files, the settings, and the number of the transaction that
/// begins next.
#[derive(Drop)]
pub struct Loaded {
    pub kv: Kv<Key, Value>,
    pub settings: Settings,
    pub next_tx: u64,
}

/// The settings of an image. It answers `NotAnImage` and `BadSettings`, and looks neither at the tree
/// nor at pointers.
pub fn check(alloc: Global, bytes: &[u8]) -> Result<Settings, LoadError>
    ensures settings { IfOk result (IsChecked bytes.now) }
    ensures cause { IfErr result (IsCheckRefusal bytes.now) }
{
    let image = match parse(alloc, bytes) {
        Ok(image) => image,
        Err(why) => return Err(why),
    };
    match good_settings(&image) {
        Some(settings) => return Ok(settings),
        None => return Err(LoadError::BadSettings),
    }
}

/// The store with the files and the paths of an image, at its number of installs.
fn store_of(alloc: Global, image: &Image) -> Result<Kv<Key, Value>, OutOfMemory>
    requires { IsImage (image_rows image.now) }
    ensures { IfOk result (IsPartly (image_rows image.now)) }
{
    let mut kv = Kv::start(alloc, image.header.installs)?;
    seed_files(&mut kv, image.files.as_slice())?;
    seed_paths(alloc, &mut kv, image.paths.as_slice())?;
    Ok(kv)
}

/// What comes of all paths is added: the names in directories, and how many paths a file has.
fn add_names(
    alloc: Global,
    kv: &mut Kv<Key, Value>,
    image: &Image,
    counts: &BTreeMap<InodeId, u64>,
) -> Result<(), OutOfMemory>
    requires shape { IsImage (image_rows image.now) }
    requires tree { IsGoodTree (image_rows image.now) }
    requires partly { IsPartly (image_rows image.now) kv.old }
    requires counts { AreCounts counts.now.entries image.now.paths.items }
    ensures { OnOk result (IsLoaded (image_rows image.now) kv.new) }
{
    let paths = image.paths.as_slice();
    let dirs = directories(alloc, paths)?;
    seed_dirs(alloc, kv, &dirs, paths)?;
    seed_counts(kv, counts, image.files.as_slice())?;
    Ok(())
}

/// Whether the tree and the pointers of an image with good settings are good; the store has its files
/// and paths, the table how often each inode is named, and a server is lost where its bit is set.
fn try_rules<S: SliceStore>(
    alloc: Global,
    kv: &Kv<Key, Value>,
    image: &Image,
    counts: &BTreeMap<InodeId, u64>,
    shelf: &Shelf<S>,
    lost: u16,
) -> Result<(), LoadError>
    requires counts { AreCounts counts.now.entries image.now.paths.items }
    requires rows { ShowsRows (shown kv.now) (image_rows image.now).paths (image_rows image.now).files }
    requires shelf { image.now.header.servers ≤ length shelf.now }
    ensures tree { OnOk result (IsGoodTree (image_rows image.now)) }
    ensures inside { OnOk result (are_inside_without (is_lost lost)
        (size_in S.kind shelf.now) (image_rows image.now) ≡ true) }
    ensures cause { IfErr result (IsLateRefusal (is_lost lost)
        (size_in S.kind shelf.now) (image_rows image.now)) }
{
    let good = match is_tree(alloc, kv, image, counts) {
        Ok(good) => good,
        Err(_) => return Err(LoadError::Memory),
    };
    if !good {
        return Err(LoadError::BadTree);
    }
    if !are_files_inside(lost, image.header.servers, shelf, image.files.as_slice()) {
        return Err(LoadError::PointerOutside);
    }
    Ok(())
}

/// The metadata of an image, over stores that have as many servers as its settings say. The store is at
/// the image's number of installs, nothing is pinned, and each key has that number as its version.
/// Bytes are refused by the first rule that they break, in the order of `LoadError`. What spilled lists
/// name is not looked at: no stored byte is read.
pub fn load<S: SliceStore>(
    alloc: Global,
    bytes: &[u8],
    shelf: &Shelf<S>,
) -> Result<Loaded, LoadError>
    requires { (x : ImageRows) → HasText x bytes.now → AreGoodSettings x →
        x.header.servers ≤ length shelf.now }
    ensures loaded { IfOk result (IsLoadOf (size_in S.kind shelf.now) bytes.now) }
    ensures cause { IfErr result (IsLoadRefusal (size_in S.kind shelf.now) bytes.now) }
{
    load_without(alloc, bytes, shelf, 0)
}

/// As `load`, where server k is lost if bit k of `lost` is set. The store of a lost server may have any
/// length, which is not looked at: a pointer to it lies outside only if the server is none of the
/// image's, or the file none of the eight.
pub fn load_without<S: SliceStore>(
    alloc: Global,
    bytes: &[u8],
    shelf: &Shelf<S>,
    lost: u16,
) -> Result<Loaded, LoadError>
    requires { (x : ImageRows) → HasText x bytes.now → AreGoodSettings x →
        x.header.servers ≤ length shelf.now }
    ensures loaded { IfOk result (IsLoadWithout (is_lost lost) (size_in S.kind shelf.now) bytes.now) }
    ensures cause { IfErr result (IsRefusalWithout (is_lost lost)
        (size_in S.kind shelf.now) bytes.now) }
{
    let image = match parse(alloc, bytes) {
        Ok(image) => image,
        Err(why) => return Err(why),
    };
    let settings = match good_settings(&image) {
        Some(settings) => settings,
        None => return Err(LoadError::BadSettings),
    };
    let mut kv = match store_of(alloc, &image) {
        Ok(kv) => kv,
        Err(_) => return Err(LoadError::Memory),
    };
    let counts = match counts_of(alloc, image.paths.as_slice()) {
        Ok(counts) => counts,
        Err(_) => return Err(LoadError::Memory),
    };
    match try_rules(alloc, &kv, &image, &counts, shelf, lost) {
        Ok(()) => {}
        Err(why) => return Err(why),
    }
    match add_names(alloc, &mut kv, &image, &counts) {
        Ok(()) => {}
        Err(_) => return Err(LoadError::Memory),
    }
    Ok(Loaded {
        kv,
        settings,
        next_tx: image.header.next_tx,
    })
}
