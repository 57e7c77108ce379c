//! Stride lines: every slot of a line below, in steps.
ghost use Rattle.std.specs.Prelude.{◌≡◌, length};
ghost use Rattle.std.specs.Int.{IsGcd};
ghost use Rattle.frames.specs.Frames.{slot_answer};
ghost use Rattle.lines.specs.Stride.{strides, stride_slots, stride_place, stride_row, StrideWrote, stride_laws};

use crate::line::{Line, within};
use faults::Fault;

/// A line over any line: slot i is the slot below at the stride times i, modulo the count of slots.
#[derive(Drop)]
pub struct Stride<L> {
    below: L,
    stride: u32,
    // Without the count each call would look for the greatest common divisor again, which is no plainer.
    count: u32,
    ghost steps: { count ≡ stride_slots stride count },
}

impl<L: Line> Stride<L> {
    /// The stride line over a line. It has as many slots as the line below, and none where the stride is not from 1 to
    /// 4,095 or shares a factor above 1 with that count.
    pub fn new(below: L, stride: u32) -> Stride<L>
        ensures below { result.below ≡ below }
        ensures stride { result.stride ≡ stride }
        ensures count { result.count ≡ stride_slots stride (length (L.Line.row below)) }
    {
        let slots = below.slots();
        let count = if steps_through(stride, slots) {
            slots
        } else {
            0
        };
        Stride {
            below,
            stride,
            count,
        }
    }

    /// The slot below a slot. A slot past the row is refused with 7 and the slot.
    #[tactic(auto, using(crate::proofs::Steps::product_small, crate::proofs::Steps::stride_length))]
    fn place(&self, slot: u32) -> Result<u32, Fault>
        ensures { result ≡ slot_answer (length (stride_row self.now.stride self.now.count (L.Line.row self.now.below))) slot (stride_place self.now.stride self.now.count slot) }
    {
        within(self.slots(), slot)?;
        let steps = self.stride * slot;
        Ok(steps % self.count)
    }
}

impl<L> Stride<L> {
    /// Gives the line below back.
    pub fn into_below(self) -> L
        ensures { result ≡ self.below }
    {
        let Stride { below, .. } = self;
        below
    }
}

/// Whether a stride steps through a line of so many slots.
#[tactic(auto, using(crate::proofs::Factors::alone_from_gcd))]
fn steps_through(stride: u32, slots: u32) -> bool
    ensures { result ≡ strides stride slots }
{
    stride > 0 && stride < 4096 && greatest_common_divisor(stride, slots) == 1
}

/// The greatest number that divides both, by Euclid's algorithm.
fn greatest_common_divisor(a: u32, n: u32) -> u32
    ensures { IsGcd a n result }
{
    if n == 0 {
        a
    } else {
        greatest_common_divisor(n, a % n)
    }
}

#[tactic(auto, using(crate::proofs::Steps::stride_steps))]
impl<L: Line> Line for Stride<L> {
    ghost row = { λ l. stride_row l.stride l.count (L.Line.row l.below) };

    ghost wrote = { λ l s b m. StrideWrote L.Line.row L.Line.wrote l.stride l.count l.below s b m.below };

    ghost kept = { λ l m. (m.stride ≡ l.stride) × (m.count ≡ l.count) × L.Line.kept l.below m.below };

    ghost laws = { stride_laws (λ l. l.below) (λ l. l.stride) (λ l. l.count) L.Line.laws };

    fn slots(&self) -> u32 {
        if self.below.slots() == self.count {
            self.count
        } else {
            0
        }
    }

    fn drive(&mut self, slot: u32) -> Result<(), Fault> {
        let place = self.place(slot)?;
        self.below.drive(place)
    }

    fn drop(&mut self, slot: u32) -> Result<(), Fault> {
        let place = self.place(slot)?;
        self.below.drop(place)
    }

    fn look(&self, slot: u32) -> Result<bool, Fault> {
        let place = self.place(slot)?;
        self.below.look(place)
    }
}
