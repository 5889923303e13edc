//! How a run begins: the keeper is loaded, and what it gave opens the run or is refused.

ghost use Rattle.std.specs.Prelude.{◌≡◌, ◌≢◌, [], Err, IfOk, IfErr, OnOk};
ghost use Rattle.wtf_dev.specs.Streams.{SourceView};
ghost use Rattle.wtf_image.specs.declared.error.LoadError.TheVariants as error;
ghost use Rattle.wtf_serve.specs.Beginnings.{IsOpenedBy, IsUnopenedBy, IsOpenedFrom, EndsBy};
ghost use Rattle.wtf_serve.specs.Cores.{engine};
ghost use Rattle.wtf_serve.specs.Endings.{devices, IsKeeperKept};
ghost use Rattle.wtf_serve.specs.Unopened.{IsRunWith, refusal_line, Refuses};

use crate::service::{
    IMAGE_REFUSED, LOADING_FAILED, OUT_OF_MEMORY, WORDS_REFUSED, WRITING_FAILED, write_all,
};
use std::alloc::Global;
use wtf_base::Settings;
use wtf_core::Core;
use wtf_dev::{Keeper, LoadFault, Shelf, Sink, SliceStore};
use wtf_image::{LoadError, check};

/// Why what a keeper gave does not open a run.
#[derive(Clone, Copy, Debug)]
pub enum NotOpened {
    /// There are fewer stores than servers.
    Few,
    /// The image is refused, or memory could not be had.
    Image(LoadError),
}

/// The core of a keeper that holds nothing: that of the settings that are asked for.
fn new_core<S: SliceStore>(
    alloc: Global,
    settings: Settings,
    shelf: &Shelf<S>,
) -> Result<Core, NotOpened>
    ensures opened { IfOk result (IsOpenedBy (engine S.kind) settings [] shelf.now) }
    ensures cause { IfErr result (IsUnopenedBy S.kind settings [] shelf.now) }
{
    if shelf.len() < settings.servers {
        return Err(NotOpened::Few);
    }
    match Core::new(alloc, settings) {
        Ok(core) => Ok(core),
        Err(_) => Err(NotOpened::Image(LoadError::Memory)),
    }
}

/// The core that an image says.
fn loaded_core<S: SliceStore>(
    alloc: Global,
    settings: Settings,
    image: &[u8],
    shelf: &Shelf<S>,
) -> Result<Core, NotOpened>
    requires { image.now ≢ [] }
    ensures opened { IfOk result (IsOpenedBy (engine S.kind) settings image.now shelf.now) }
    ensures cause { IfErr result (IsUnopenedBy S.kind settings image.now shelf.now) }
{
    let of_image = match check(alloc, image) {
        Ok(of_image) => of_image,
        Err(why) => return Err(NotOpened::Image(why)),
    };
    if shelf.len() < of_image.servers {
        return Err(NotOpened::Few);
    }
    match Core::load(alloc, image, shelf) {
        Ok(core) => Ok(core),
        Err(why) => Err(NotOpened::Image(why)),
    }
}

/// The core of what a keeper gave, where these settings are asked for.
pub fn core_of<S: SliceStore>(
    alloc: Global,
    settings: Settings,
    bytes: &[u8],
    shelf: &Shelf<S>,
) -> Result<Core, NotOpened>
    ensures opened { IfOk result (IsOpenedBy (engine S.kind) settings bytes.now shelf.now) }
    ensures cause { IfErr result (IsUnopenedBy S.kind settings bytes.now shelf.now) }
{
    if bytes.is_empty() {
        return new_core(alloc, settings, shelf);
    }
    loaded_core(alloc, settings, bytes, shelf)
}

/// The line of a refused image.
fn line_of(why: LoadError) -> &'static [u8]
    requires { why ≢ error.Memory }
    ensures { result.now ≡ refusal_line why }
{
    match why {
        LoadError::NotAnImage => b"image refused 1 notanimage\n",
        LoadError::BadTree => b"image refused 2 badtree\n",
        LoadError::PointerOutside => b"image refused 3 pointeroutside\n",
        LoadError::BadSettings => b"image refused 4 badsettings\n",
        LoadError::Memory => b"",
    }
}

/// Writes the line of a refused image, and answers the status.
fn refuse<O: Sink>(out: &mut O, why: LoadError) -> u8
    requires { why ≢ error.Memory }
    ensures { Refuses why result (O.view out.old) (O.view out.new) }
{
    match write_all(out, line_of(why)) {
        Ok(()) => IMAGE_REFUSED,
        Err(_) => WRITING_FAILED,
    }
}

/// Ends a run that was not opened: writes why an image is refused, and answers the status.
pub fn end<O: Sink>(out: &mut O, why: NotOpened) -> u8
    ensures ends { EndsBy why result (O.view out.old) (O.view out.new) }
    ensures untouched { result ≡ 2 → out.new ≡ out.old }
{
    match why {
        NotOpened::Few => WORDS_REFUSED,
        NotOpened::Image(LoadError::Memory) => OUT_OF_MEMORY,
        NotOpened::Image(refusal) => refuse(out, refusal),
    }
}

/// Loads what the keeper holds, and opens the run by it; or the status of a run that ends here.
pub(crate) fn open<O: Sink, S: SliceStore, K: Keeper>(
    alloc: Global,
    settings: Settings,
    out: &mut O,
    shelf: &Shelf<S>,
    keeper: &mut K,
) -> Result<Core, u8>
    ensures opened { IfOk result
        (IsOpenedFrom (engine S.kind) settings (K.view keeper.old) shelf.now) }
    ensures unopened { IfErr result (λ status. (source : SourceView) →
        IsRunWith S.kind (K.follows keeper.old keeper.new) settings status
        (devices source (O.view out.old) shelf.now (K.view keeper.old))
        (devices source (O.view out.new) shelf.now (K.view keeper.new))) }
    ensures kept { IsKeeperKept (K.follows keeper.old keeper.new) (K.view keeper.old)
        (K.view keeper.new) }
    ensures unwritten { OnOk result (out.new ≡ out.old) }
    ensures refused { result ≡ Err 2 → out.new ≡ out.old }
{
    let bytes = match keeper.load(alloc) {
        Ok(bytes) => bytes,
        Err(LoadFault::Failed) => return Err(LOADING_FAILED),
        Err(LoadFault::Memory) => return Err(OUT_OF_MEMORY),
    };
    match core_of(alloc, settings, bytes.as_slice(), shelf) {
        Ok(core) => Ok(core),
        Err(why) => Err(end(out, why)),
    }
}
