//! Covered numbers, listed and counted.
ghost use Rattle.std.specs.Prelude.{◌≡◌, ◌+◌, ◌<◌, [], ◌∷◌, ◌++◌, take};

use arrayvec::ArrayVec;

/// Covered numbers in the order in which they were found: how many they are, and a list of the first 32, which is as many
/// as may speak together.
// A count stands beside the list, since an overload tells how many are covered, also beyond what the list holds.
#[derive(Default, Drop)]
pub(crate) struct Covered {
    pub(crate) count: u32,
    pub(crate) listed: ArrayVec<u32, 32>,
}

impl Covered {
    /// Counts a number, and lists it where there is room.
    pub(crate) fn note(&mut self, number: u32)
        requires { self.old.count < 65536 }
        ensures count { self.new.count ≡ self.old.count + 1 }
        ensures listed { self.new.listed.items ≡ take 32 (self.old.listed.items ++ number ∷ []) }
    {
        self.count += 1;
        if !self.listed.is_full() {
            self.listed.push(number);
        }
    }
}
