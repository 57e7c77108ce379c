//! What a line says of the enrolled cards.
ghost use Rattle.std.specs.Prelude.{◌≡◌};

/// What a line says of the enrolled cards.
// Overload and noise stand in the reader's verdict too: one enum for both would have cases that no reader can answer.
#[derive(Clone, Copy, Debug, PartialEq, Eq)]
pub enum Verdict {
    /// more words are covered than may speak together: their count
    Overload(u32),
    /// no cards explain the line: the distance of the covered words from it
    Noise(u32),
    /// the covered words explain the line, but some number among them is not enrolled: the smallest such number, and the
    /// count of the covered words
    Foreign { smallest: u32, count: u32 },
    /// the covered words explain the line, and all their numbers are enrolled: their count
    Named(u32),
}

impl Verdict {
    ghost use Rattle.register.specs.Texts.{listed_count};

    /// How many numbers it lists.
    pub(crate) fn listed_count(self) -> u32
        ensures { result ≡ listed_count self }
    {
        match self {
            Verdict::Overload(_) | Verdict::Noise(_) => 0,
            Verdict::Foreign { count, .. } => count,
            Verdict::Named(count) => count,
        }
    }
}
