//! Inverted lines: a slot stands where the slot below is clear.
ghost use Rattle.std.specs.Prelude.{◌≡◌, not};
ghost use Rattle.lines.specs.Lines.{Written};
ghost use Rattle.lines.specs.Inverted.{inverted_row, inverted_laws};

use crate::line::Line;
use faults::Fault;

/// A line over any line, with every slot the other way.
#[derive(Drop)]
pub struct Inverted<L> {
    below: L,
}

impl<L> Inverted<L> {
    /// The inverted line over a line.
    pub fn new(below: L) -> Inverted<L>
        ensures { result.below ≡ below }
    {
        Inverted { below }
    }

    /// Gives the line below back.
    pub fn into_below(self) -> L
        ensures { result ≡ self.below }
    {
        let Inverted { below } = self;
        below
    }
}

#[tactic(auto, using(crate::proofs::Inversion::inverted_set))]
impl<L: Line> Line for Inverted<L> {
    ghost row = { λ l. inverted_row (L.Line.row l.below) };

    ghost wrote = { λ l s b m. Written L.Line.row L.Line.wrote l.below s (not b) m.below };

    ghost kept = { λ l m. L.Line.kept l.below m.below };

    ghost laws = { inverted_laws (λ l. l.below) L.Line.laws };

    fn slots(&self) -> u32 {
        self.below.slots()
    }

    fn drive(&mut self, slot: u32) -> Result<(), Fault> {
        self.below.drop(slot)
    }

    fn drop(&mut self, slot: u32) -> Result<(), Fault> {
        self.below.drive(slot)
    }

    fn look(&self, slot: u32) -> Result<bool, Fault> {
        Ok(!self.below.look(slot)?)
    }
}
