//! Whether records ascend, and none stands twice.

ghost use Rattle.std.specs.Prelude.{◌≡◌};
ghost use Rattle.wtf_imagefmt.specs.Shapes.{ascends};
ghost use Rattle.wtf_changes.specs.Rows.{region_rows};
ghost use Rattle.wtf_changes.specs.Shapes.{path_before, file_before, region_before};

use crate::records::{FileChange, PathChange, RegionChange};

/// Whether each path comes before the next one.
pub(crate) fn paths_ascend(paths: &[PathChange]) -> bool
    ensures { result ≡ ascends path_before paths.now }
{
    let Some((first, rest)) = paths.split_first() else {
        return true;
    };
    let mut before = first;
    for path in rest {
        if before.path >= path.path {
            return false;
        }
        before = path;
    }
    true
}

/// Whether each inode comes before the next one.
pub(crate) fn files_ascend(files: &[FileChange]) -> bool
    ensures { result ≡ ascends file_before files.now }
{
    let Some((first, rest)) = files.split_first() else {
        return true;
    };
    let mut before = first;
    for file in rest {
        if before.inode >= file.inode {
            return false;
        }
        before = file;
    }
    true
}

/// Whether each region comes before the next one: by its file, and then by its number.
pub(crate) fn regions_ascend(regions: &[RegionChange]) -> bool
    ensures { result ≡ ascends region_before (region_rows regions.now) }
{
    let Some((first, rest)) = regions.split_first() else {
        return true;
    };
    let mut before = first;
    for region in rest {
        if (before.inode, before.number) >= (region.inode, region.number) {
            return false;
        }
        before = region;
    }
    true
}
