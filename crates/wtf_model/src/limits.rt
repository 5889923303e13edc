//! The limits of what a script's line can name and carry.

/// Clients, from 0.
pub const MAX_CLIENTS: u8 = 32;

/// Handle labels of a transaction, from 0.
pub const MAX_HANDLES: u8 = 16;

/// Slice labels of a transaction, from 0.
pub const MAX_SLICES: u8 = 16;

/// Job labels, from 0.
pub const MAX_JOBS: u8 = 8;

/// Calls that a transaction's log holds.
pub const MAX_LOGGED: u32 = 4096;

/// Bytes that one call may ask to be shown.
pub const MAX_SHOWN: u64 = 8192;

/// Bytes that one call may hand in to be stored.
pub const MAX_WRITTEN: u64 = 16384;

/// Bytes of a file that is shown whole.
pub const MAX_DUMPED: u64 = 1_048_576;

/// The greatest number in a line.
pub const MAX_NUMBER: u64 = 4_294_967_296;

/// Files that one call may put together.
pub const MAX_SOURCES: u64 = 16;

/// Parts of a scan.
pub const SCAN_PARTS: u8 = 64;

/// Regions of a file.
pub const MAX_REGIONS: u64 = 4096;
