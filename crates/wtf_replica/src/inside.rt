//! Whether extents lie inside the stores.

ghost use Rattle.std.specs.Prelude.{◌≡◌, ◌≤◌, ◌<◌, length};
ghost use Rattle.wtf_replica.specs.Inside.{size_in, lies_inside, slice_lies_inside};

use wtf_base::{Pointer, Slice};
use wtf_dev::{Shelf, SliceStore};

/// The length of a backing file, in bytes.
fn size_of<S: SliceStore>(shelf: &Shelf<S>, k: u8, file: u8) -> u64
    requires k { k < length shelf.now }
    requires file { file < 8 }
    ensures { result ≡ size_in S.kind shelf.now k file }
{
    shelf.length(k, file)
}

/// Whether an extent lies inside the stores of so many servers: in one of their eight files, before its end.
pub fn lies_inside<S: SliceStore>(servers: u8, shelf: &Shelf<S>, extent: Pointer) -> bool
    requires { servers ≤ length shelf.now }
    ensures { result ≡ lies_inside servers (size_in S.kind shelf.now) extent }
{
    if extent.server.0 >= servers || extent.file >= 8 {
        return false;
    }
    let size = size_of(shelf, extent.server.0, extent.file);
    extent.at <= size && extent.len as u64 <= size - extent.at
}

/// Whether each copy of a slice does.
pub fn slice_lies_inside<S: SliceStore>(servers: u8, shelf: &Shelf<S>, slice: &Slice) -> bool
    requires { servers ≤ length shelf.now }
    ensures { result ≡ slice_lies_inside servers (size_in S.kind shelf.now) slice.now }
{
    for i in 0..slice.width() {
        if !lies_inside(servers, shelf, slice.pointer(i)) {
            return false;
        }
    }
    true
}
