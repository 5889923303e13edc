//! Whether pointers name bytes inside the stores. On a server that is lost no length is looked at.

ghost use Rattle.std.specs.Prelude.{◌≡◌, ◌≤◌, ◌<◌, length};
ghost use Rattle.std.specs.List.{list_all};
ghost use Rattle.wtf_base.specs.Slices.{pointers_of};
ghost use Rattle.wtf_imagefmt.specs.Rows.{part_row, base_row, entry_rows, region_row, region_rows, file_rows};
ghost use Rattle.wtf_image.specs.Rules.{size_in, is_lost, lies_inside_without, is_part_inside_without, is_base_inside_without, is_region_inside_without, is_file_inside_without};

use wtf_base::{Pointer, Slice};
use wtf_dev::{Shelf, SliceStore};
use wtf_imagefmt::{FileRecord, RegionRecord};
use wtf_overlay::{Overlay, Part};
use wtf_replica::lies_inside;
use wtf_values::Spill;

/// Whether the bit of a server is set in a mask.
fn is_lost(lost: u16, server: u8) -> bool
    requires { server < 16 }
    ensures { result ≡ is_lost lost server }
{
    (lost >> server) % 2 == 1
}

/// Whether an extent lies inside the stores of so many servers, for all that is known of lost ones.
fn is_extent_inside<S: SliceStore>(
    lost: u16,
    servers: u8,
    shelf: &Shelf<S>,
    extent: Pointer,
) -> bool
    requires { servers ≤ length shelf.now }
    ensures { result ≡ lies_inside_without (is_lost lost) servers (size_in S.kind shelf.now) extent }
{
    if extent.server.0 >= servers || extent.file >= 8 {
        return false;
    }
    let _few = shelf.len();
    if is_lost(lost, extent.server.0) {
        return true;
    }
    lies_inside(servers, shelf, extent)
}

/// Whether each copy of a slice does.
fn is_slice_inside<S: SliceStore>(lost: u16, servers: u8, shelf: &Shelf<S>, slice: &Slice) -> bool
    requires { servers ≤ length shelf.now }
    ensures { result ≡ list_all (lies_inside_without (is_lost lost) servers
        (size_in S.kind shelf.now)) (pointers_of slice.now) }
{
    for i in 0..slice.width() {
        if !is_extent_inside(lost, servers, shelf, slice.pointer(i)) {
            return false;
        }
    }
    true
}

/// Whether each copy of what an entry holds does. Zeros name no bytes.
fn is_part_inside<S: SliceStore>(lost: u16, servers: u8, shelf: &Shelf<S>, part: Part) -> bool
    requires { servers ≤ length shelf.now }
    ensures { result ≡ is_part_inside_without (is_lost lost) servers
        (size_in S.kind shelf.now) (part_row part) }
{
    match part {
        Part::Zero => true,
        Part::Held(slice) => is_slice_inside(lost, servers, shelf, &slice),
    }
}

/// Whether each pointer of a list's entries does.
fn is_list_inside<S: SliceStore>(lost: u16, servers: u8, shelf: &Shelf<S>, list: &Overlay) -> bool
    requires { servers ≤ length shelf.now }
    ensures { result ≡ list_all (λ e. is_part_inside_without (is_lost lost) servers
        (size_in S.kind shelf.now) e.part) (entry_rows list.now) }
{
    for i in 0..list.len() {
        if !is_part_inside(lost, servers, shelf, list.get(i).part) {
            return false;
        }
    }
    true
}

/// Whether each copy of a spilled list does. What the list names is not looked at.
fn is_base_inside<S: SliceStore>(
    lost: u16,
    servers: u8,
    shelf: &Shelf<S>,
    base: Option<Spill>,
) -> bool
    requires { servers ≤ length shelf.now }
    ensures { result ≡ is_base_inside_without (is_lost lost) servers
        (size_in S.kind shelf.now) (base_row base) }
{
    match base {
        None => true,
        Some(spill) => is_slice_inside(lost, servers, shelf, &spill.slice),
    }
}

/// Whether each pointer of a region does.
fn is_region_inside<S: SliceStore>(
    lost: u16,
    servers: u8,
    shelf: &Shelf<S>,
    region: &RegionRecord,
) -> bool
    requires { servers ≤ length shelf.now }
    ensures { result ≡ is_region_inside_without (is_lost lost) servers
        (size_in S.kind shelf.now) (region_row region.now) }
{
    is_base_inside(lost, servers, shelf, region.value.base)
        && is_list_inside(lost, servers, shelf, &region.value.list)
}

/// Whether each pointer of a file's regions does.
fn are_regions_inside<S: SliceStore>(
    lost: u16,
    servers: u8,
    shelf: &Shelf<S>,
    regions: &[RegionRecord],
) -> bool
    requires { servers ≤ length shelf.now }
    ensures { result ≡ list_all (is_region_inside_without (is_lost lost) servers
        (size_in S.kind shelf.now)) (region_rows regions.now) }
{
    for region in regions {
        if !is_region_inside(lost, servers, shelf, region) {
            return false;
        }
    }
    true
}

/// Whether each pointer of the files names bytes inside the stores of so many servers. Bit k of `lost`
/// says that server k is lost: of a pointer to it only the numbers of server and file are tried.
pub(crate) fn are_files_inside<S: SliceStore>(
    lost: u16,
    servers: u8,
    shelf: &Shelf<S>,
    files: &[FileRecord],
) -> bool
    requires { servers ≤ length shelf.now }
    ensures { result ≡ list_all (is_file_inside_without (is_lost lost) servers
        (size_in S.kind shelf.now)) (file_rows files.now) }
{
    for file in files {
        if !are_regions_inside(lost, servers, shelf, file.regions.as_slice()) {
            return false;
        }
    }
    true
}
