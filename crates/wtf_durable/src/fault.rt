//! Why a durable store could not be opened, or did not answer an event.

use thiserror::Error;
use wtf_image::LoadError;
use wtf_journal::JournalFault;

/// Why a durable store could not be opened.
#[derive(Clone, Copy, Debug, PartialEq, Eq, Error)]
pub enum Unopened {
    /// The journal could not be opened.
    #[error("{0}")]
    Journal(JournalFault),
    /// The image that the journal gives is refused.
    #[error("{0}")]
    Image(LoadError),
    /// There are fewer stores than servers.
    #[error("too few stores")]
    Small,
    /// The tree of an empty journal could not be saved.
    #[error("the first save failed")]
    Save,
    /// Memory could not be had.
    #[error("out of memory")]
    Memory,
}

/// Why an event was not answered. No other follows: the journal is opened again.
#[derive(Clone, Copy, Debug, PartialEq, Eq, Error)]
pub enum DurableFault {
    /// The journal could not be written.
    #[error("the journal failed")]
    Journal,
    /// Memory could not be had.
    #[error("out of memory")]
    Memory,
}
