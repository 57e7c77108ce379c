//! Level lines: rows of slots carried in supplied 16-bit levels, one a slot.
ghost use Rattle.std.specs.Prelude.{◌≡◌};
ghost use Rattle.lines.specs.Level.{level_after, level_means, LevelKept, level_laws};

use crate::line::{Line, within};
use faults::Fault;

/// A line over supplied levels: a slot stands when its level is above 0. Drive raises the level by 1, up to 65,535, and
/// drop sets it to 0.
#[derive(Drop)]
pub struct Level<'a> {
    levels: &'a mut [u16],
}

impl<'a> Level<'a> {
    /// A line of a slot for each level, and of the first 4,096 at most.
    pub fn new(levels: &'a mut [u16]) -> Level<'a>
        ensures levels { result.levels.now ≡ levels.old }
        ensures place { result.levels.ghost_name ≡ levels.entry.ghost_name }
    {
        Level { levels }
    }
}

#[tactic(auto, using(crate::proofs::Levels::level_steps))]
impl<'a> Line for Level<'a> {
    ghost row = { level_means };

    ghost wrote = { λ l s b m. m.levels.now ≡ level_after l.levels.now s b };

    ghost kept = { LevelKept };

    ghost laws = { level_laws };

    fn slots(&self) -> u32 {
        self.levels.len().min(4096) as u32
    }

    fn drive(&mut self, slot: u32) -> Result<(), Fault> {
        within((*self).slots(), slot)?;
        let level = &mut self.levels[slot as usize];
        *level = level.saturating_add(1);
        Ok(())
    }

    fn drop(&mut self, slot: u32) -> Result<(), Fault> {
        within((*self).slots(), slot)?;
        self.levels[slot as usize] = 0;
        Ok(())
    }

    fn look(&self, slot: u32) -> Result<bool, Fault> {
        within(self.slots(), slot)?;
        Ok(self.levels[slot as usize] > 0)
    }
}
