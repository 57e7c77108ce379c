//! Packed lines: rows of slots carried in supplied bytes.
//!
//! Slot s is bit 7 - (s mod 8) of byte s div 8. No other bit of the bytes is read or altered.
ghost use Rattle.std.specs.Prelude.{◌≡◌};
ghost use Rattle.lines.specs.Packed.{packed_after, packed_means, PackedKept, packed_laws};

use crate::line::{Line, within};
use faults::Fault;

/// A line over supplied bytes.
#[derive(Drop)]
pub struct Packed<'a> {
    bytes: &'a mut [u8],
    // A rule of the project: a row has as many slots as told, and the bytes do not tell.
    told: u32,
}

impl<'a> Packed<'a> {
    /// A line of as many slots as told, or 8 for each byte if fewer, and of the first 4,096 at most.
    pub fn new(bytes: &'a mut [u8], told: u32) -> Packed<'a>
        ensures bytes { result.bytes.now ≡ bytes.old }
        ensures place { result.bytes.ghost_name ≡ bytes.entry.ghost_name }
        ensures told { result.told ≡ told }
    {
        Packed { bytes, told }
    }
}

#[tactic(auto, using(crate::proofs::Packing::packed_steps))]
impl<'a> Line for Packed<'a> {
    ghost row = { packed_means };

    ghost wrote = { λ l s b m. m.bytes.now ≡ packed_after l.bytes.now l.told s b };

    ghost kept = { PackedKept };

    ghost laws = { packed_laws };

    fn slots(&self) -> u32 {
        let carried = self.bytes.len().min(512) * 8;
        self.told.min(carried as u32)
    }

    fn drive(&mut self, slot: u32) -> Result<(), Fault> {
        within((*self).slots(), slot)?;
        frames::put(self.bytes, slot, true)
    }

    fn drop(&mut self, slot: u32) -> Result<(), Fault> {
        within((*self).slots(), slot)?;
        frames::put(self.bytes, slot, false)
    }

    #[tactic(auto, using(crate::proofs::Packing::packed_at))]
    fn look(&self, slot: u32) -> Result<bool, Fault> {
        within(self.slots(), slot)?;
        frames::look(self.bytes, slot)
    }
}
