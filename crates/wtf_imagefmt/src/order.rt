//! Whether records ascend, and none stands twice.

ghost use Rattle.std.specs.Prelude.{◌≡◌};
ghost use Rattle.wtf_imagefmt.specs.Rows.{region_rows, file_rows};
ghost use Rattle.wtf_imagefmt.specs.Shapes.{ascends, path_before, file_before, region_before};

use crate::records::{FileRecord, PathRecord, RegionRecord};

/// Whether each path comes before the next one.
pub fn paths_ascend(paths: &[PathRecord]) -> bool
    ensures { result ≡ ascends path_before paths.now }
{
    let Some((first, rest)) = paths.split_first() else {
        return true;
    };
    let mut before = first;
    for path in rest {
        if before.path >= path.path {
            return false;
        }
        before = path;
    }
    true
}

/// Whether each inode comes before the next one.
pub fn files_ascend(files: &[FileRecord]) -> bool
    ensures { result ≡ ascends file_before (file_rows files.now) }
{
    let Some((first, rest)) = files.split_first() else {
        return true;
    };
    let mut before = first;
    for file in rest {
        if before.inode >= file.inode {
            return false;
        }
        before = file;
    }
    true
}

/// Whether each number comes before the next one.
pub fn regions_ascend(regions: &[RegionRecord]) -> bool
    ensures { result ≡ ascends region_before (region_rows regions.now) }
{
    let Some((first, rest)) = regions.split_first() else {
        return true;
    };
    let mut before = first;
    for region in rest {
        if before.number >= region.number {
            return false;
        }
        before = region;
    }
    true
}
