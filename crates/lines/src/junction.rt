//! Junctions: a slot stands when it stands on either of two lines.
ghost use Rattle.std.specs.Prelude.{◌≡◌};
ghost use Rattle.lines.specs.Junction.{junction_row, JunctionWrote, junction_laws};

use crate::line::{Line, within};
use faults::Fault;

/// A line over any two lines.
#[derive(Drop)]
pub struct Junction<L, N> {
    first: L,
    second: N,
}

impl<L, N> Junction<L, N> {
    /// The junction of two lines; it has no slots where their counts differ.
    pub fn new(first: L, second: N) -> Junction<L, N>
        ensures first { result.first ≡ first }
        ensures second { result.second ≡ second }
    {
        Junction { first, second }
    }

    /// Gives both lines below back.
    pub fn into_below(self) -> (L, N)
        ensures first { result.0 ≡ self.first }
        ensures second { result.1 ≡ self.second }
    {
        let Junction { first, second } = self;
        (first, second)
    }
}

#[tactic(auto, using(crate::proofs::Joints::junction_steps))]
impl<L: Line, N: Line> Line for Junction<L, N> {
    ghost row = { λ l. junction_row (L.Line.row l.first) (N.Line.row l.second) };

    ghost wrote = { λ l s b m. JunctionWrote L.Line.row L.Line.wrote N.Line.row N.Line.wrote l.first l.second s b m.first m.second };

    ghost kept = { λ l m. L.Line.kept l.first m.first × N.Line.kept l.second m.second };

    ghost laws = { junction_laws (λ l. l.first) (λ l. l.second) L.Line.laws N.Line.laws };

    fn slots(&self) -> u32 {
        let slots = self.first.slots();
        if slots == self.second.slots() {
            slots
        } else {
            0
        }
    }

    fn drive(&mut self, slot: u32) -> Result<(), Fault> {
        within((*self).slots(), slot)?;
        self.first.drive(slot)
    }

    fn drop(&mut self, slot: u32) -> Result<(), Fault> {
        within((*self).slots(), slot)?;
        self.first.drop(slot)?;
        self.second.drop(slot)
    }

    fn look(&self, slot: u32) -> Result<bool, Fault> {
        within(self.slots(), slot)?;
        Ok(self.first.look(slot)? || self.second.look(slot)?)
    }
}
