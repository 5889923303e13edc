//! The limits of scripts and of their lines. Those of what a line names and carries stand in `wtf_model`.

/// The most bytes of a script, 1 GiB.
pub const SCRIPT_BYTES: u64 = 1_073_741_824;

/// The most bytes of a line, without its line feed.
pub const LINE_BYTES: usize = 65_536;

/// The most bytes that are asked of a source at once, and so the most that are held behind a line.
pub const CHUNK_BYTES: usize = 65_536;
