//! What comes of an install.

/// What comes of an install.
#[derive(Debug, Drop)]
pub enum Tried<K> {
    /// All changes were installed, under this number.
    Installed(u64),
    /// A key is in the way. It has moved since the base, and nothing was installed.
    Conflict {
        /// The key.
        key: K,
        /// Its version at the base.
        seen: u64,
        /// Its version now, which is above the base.
        now: u64,
    },
}
