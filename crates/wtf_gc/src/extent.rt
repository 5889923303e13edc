//! Bytes of backing files, in a row.
ghost use Rattle.std.specs.Prelude.{◌≤◌};

/// Bytes of a backing file of a server, from one offset up to and without another.
#[derive(Clone, Copy, Debug)]
pub(crate) struct Extent {
    pub(crate) server: u8,
    pub(crate) file: u8,
    pub(crate) from: u64,
    pub(crate) to: u64,
    pub(crate) ghost order: { from ≤ to },
}

/// The bytes of a file from one offset up to and without another.
#[derive(Debug, Drop, Clone, Copy)]
pub(crate) struct Span {
    pub(crate) from: u64,
    pub(crate) to: u64,
}
