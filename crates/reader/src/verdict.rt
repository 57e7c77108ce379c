//! What a line says before anyone's name is asked.

/// What a line says before anyone's name is asked.
#[derive(Clone, Copy, Debug, PartialEq, Eq)]
pub enum Verdict {
    /// more words are covered than may speak together: their count
    Overload(u32),
    /// no cards explain the line: the distance of the covered words from it
    Noise(u32),
    /// the covered words explain the line: their count
    Reading(u32),
}
