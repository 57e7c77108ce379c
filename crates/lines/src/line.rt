//! What a line means, and the calls of every line.
ghost use Rattle.std.specs.Prelude.{◌≡◌, ℕ, ◌≤◌, Bool, true, false, List, length, slice_index_or, slice_set};
ghost use Rattle.frames.specs.Frames.{slot_answer};
ghost use Rattle.lines.specs.Lines.{Laws, lent_laws};

use faults::{Fault, Refusal, refuse_unless};

/// A row of slots, each standing or clear. The count of slots, 0 to 4,096, never changes.
///
/// What a line means is its `row`. A call that makes a slot stand or be clear does to the memory behind the line what
/// `wrote` says, of the line before, the slot, whether it stands, and the line after; and no call alters what is `kept`
/// besides the row. Each call on a slot past the row is refused with 7 and the slot, and the line is then the same value
/// as before.
pub trait Line {
    ghost row: { Self → List Bool };

    ghost wrote: { Self → ℕ → Bool → Self → Type 0 };

    ghost kept: { Self → Self → Type 0 };

    ghost laws: { Laws row kept };

    /// How many slots the line has.
    fn slots(&self) -> u32
        ensures { result ≡ length (row self.now) };

    // A rule of the project names drive and drop, so no one call with a flag stands for both.
    /// Makes a slot stand, and touches no other. A slot past the row is refused with 7 and the slot.
    fn drive(&mut self, slot: u32) -> Result<(), Fault>
        ensures answer { result ≡ slot_answer (length (row self.old)) slot tt }
        ensures after { row self.new ≡ slice_set (row self.old) slot true }
        ensures memory { wrote self.old slot true self.new }
        ensures rest { kept self.old self.new }
        ensures refused { length (row self.old) ≤ slot → self.new ≡ self.old };

    /// Makes a slot clear, and touches no other. A slot past the row is refused with 7 and the slot.
    fn drop(&mut self, slot: u32) -> Result<(), Fault>
        ensures answer { result ≡ slot_answer (length (row self.old)) slot tt }
        ensures after { row self.new ≡ slice_set (row self.old) slot false }
        ensures memory { wrote self.old slot false self.new }
        ensures rest { kept self.old self.new }
        ensures refused { length (row self.old) ≤ slot → self.new ≡ self.old };

    /// Whether a slot stands. A slot past the row is refused with 7 and the slot.
    fn look(&self, slot: u32) -> Result<bool, Fault>
        ensures { result ≡ slot_answer (length (row self.now)) slot (slice_index_or (row self.now) slot false) };
}

/// Accepts a slot of a row of so many slots; any other is refused with 7 and the slot.
// It takes the count, not the line: the language refuses a method that hands its own type on to a function over its trait.
pub(crate) fn within(slots: u32, slot: u32) -> Result<(), Fault>
    ensures { result ≡ slot_answer slots slot tt }
{
    refuse_unless(slot < slots, Refusal::Slot, slot as u64)
}

impl<L: Line> Line for &mut L {
    ghost row = { λ l. L.Line.row l.now };

    ghost wrote = { λ l s b m. L.Line.wrote l.now s b m.now };

    ghost kept = { λ l m. (m.ghost_name ≡ l.ghost_name) × L.Line.kept l.now m.now };

    ghost laws = { lent_laws L.Line.laws };

    fn slots(&self) -> u32 {
        (**self).slots()
    }

    fn drive(&mut self, slot: u32) -> Result<(), Fault> {
        (**self).drive(slot)
    }

    fn drop(&mut self, slot: u32) -> Result<(), Fault> {
        (**self).drop(slot)
    }

    fn look(&self, slot: u32) -> Result<bool, Fault> {
        (**self).look(slot)
    }
}
