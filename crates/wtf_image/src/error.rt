//! Why bytes are not taken for an image.

use thiserror::Error;

/// Why no image was loaded: the first of these that holds, in this order. `Memory` may come in the
/// place of any other answer.
#[derive(Clone, Copy, Debug, PartialEq, Eq, Error)]
pub enum LoadError {
    /// The bytes do not have the shape of an image.
    #[error("not an image")]
    NotAnImage,
    /// The settings or one of the two numbers are outside their limits, or an inode is of a
    /// transaction that has not begun.
    #[error("the image's settings are outside their limits")]
    BadSettings,
    /// The paths and files do not make a tree.
    #[error("the image's paths and files make no tree")]
    BadTree,
    /// A pointer names bytes outside the stores.
    #[error("a pointer of the image lies outside the stores")]
    PointerOutside,
    /// Memory could not be had.
    #[error("out of memory")]
    Memory,
}
