//! The calls.

use wtf_model::Paths;
use wtf_path::Path;

/// A call on slices, or one that makes a file of others, with its arguments in the order of the
/// script's line. Labels are numbers from 0 to 15, offsets and lengths are in bytes (NSDI 2016,
/// section 2.5).
#[derive(Clone, Copy, Debug)]
pub enum SliceOp<'a> {
    Yank(u8, u64, u8),
    Peek {
        from: u8,
        off: u64,
        len: u64,
    },
    Cut {
        from: u8,
        off: u64,
        len: u64,
        to: u8,
    },
    Paste(u8, u8),
    Glue(u8, u8),
    Concat(&'a Path, &'a Paths),
    Copy(&'a Path, &'a Path),
}
