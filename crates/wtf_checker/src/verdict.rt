//! What a check finds.

/// What a check finds of an output.
#[derive(Clone, Copy, Debug)]
pub enum Verdict {
    /// Each of so many lines is answered lawfully, and nothing is left over.
    Lawful(u64),
    /// The first refused line: 0 is that of the settings, and one more than there are lines is what is left over.
    Refused(u64),
}
