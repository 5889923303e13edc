//! What devices answer in place of a result.

use thiserror::Error;

/// A device did not do what it was asked.
#[derive(Clone, Copy, Debug, PartialEq, Eq, Error)]
#[error("a device did not do what it was asked")]
pub struct Failed;

/// Why an image could not be loaded. The keeper still holds it.
#[derive(Clone, Copy, Debug, PartialEq, Eq, Error)]
pub enum LoadFault {
    /// The device did not give its bytes.
    #[error("a device did not do what it was asked")]
    Failed,
    /// Memory could not be had.
    #[error("out of memory")]
    Memory,
}
