//! What comes of an append.

/// What came of adding pieces at the end of a file.
#[derive(Clone, Copy, Debug, PartialEq, Eq)]
pub enum Added {
    /// They stand at its end.
    Done,
    /// The file would pass the greatest length. Nothing was changed.
    TooBig,
}
