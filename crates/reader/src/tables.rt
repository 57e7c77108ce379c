//! The tables by which a line is read.
ghost use Rattle.std.specs.Prelude.{◌≡◌, ℕ, ◌*◌, ◌-◌, ◌^◌, ◌<◌, ◌≤◌, false, ◌||◌, length, slice_index, slice_index_or};
ghost use Rattle.std.specs.List.{AllByRecursion};
ghost use Rattle.words.specs.Words.{slot_at, in_word};
ghost use Rattle.reader.specs.Distances.{joined};
ghost use Rattle.reader.specs.Working.{Tabled, Within, spot_votes};

use crate::bases::BASES;
use crate::pairs::{PAIRS, Pair};
use crate::spot::Spot;
use fields::Field;
use words::Code;

/// As many slots as the line of any plan has.
pub(crate) const SLOTS: usize = 4096;

/// A code with tables of what any two elements give, and of what the higher coefficients make of each symbol.
///
/// The tables are lent: owning them was tried, and the copy of 77 KB for each reading missed the bar of speed.
#[derive(Drop)]
pub(crate) struct Tables<'a, F: Field> {
    pub(crate) code: &'a Code<'a, F>,
    pub(crate) pairs: &'a [Pair; PAIRS],
    pub(crate) bases: &'a [u8; BASES],
    ghost tabled: { Tabled (F.Field.tables code.now.field.now) code.now.plan.now pairs.now bases.now },
}

impl<'a, F: Field> Tables<'a, F> {
    /// Lets each standing slot vote for the one lowest coefficient whose word, of these higher coefficients, goes through
    /// it: how many votes each lowest coefficient has.
    pub(crate) fn tally(&self, high: usize, spots: &[Spot]) -> [u16; 64]
        requires high { high < self.now.code.now.plan.now.q ^ (self.now.code.now.plan.now.k - 1) }
        requires within { Within self.now.code.now.plan.now.n self.now.code.now.plan.now.q spots.now }
        requires few { length spots.now ≤ 4096 }
        ensures { (c : ℕ) → c < self.now.code.now.plan.now.q → slice_index result c ≡ spot_votes (F.Field.tables self.now.code.now.field.now) self.now.code.now.plan.now.k high c spots.now }
    {
        let q = self.code.field.order() as usize;
        let n = self.code.plan.n() as usize;
        let mut votes = [0; 64];
        for spot in spots {
            let base = self.bases[high * n + spot.place as usize] as usize;
            let lowest = self.pairs[base * q + spot.symbol as usize].difference as usize;
            votes[lowest] += 1;
        }
        votes
    }

    /// The slot of a number's word at a place.
    // That a number is one of the code's stands in each contract: a type for it would carry the code along, and is no plainer.
    fn slot(&self, number: u32, place: u32) -> usize
        requires number { number < self.now.code.now.plan.now.q ^ self.now.code.now.plan.now.k }
        requires place { place < self.now.code.now.plan.now.n }
        ensures is { result ≡ slot_at (F.Field.tables self.now.code.now.field.now) self.now.code.now.plan.now.k number place }
        ensures few { result < 4096 }
    {
        let q = self.code.field.order();
        let base = self.bases[(number / q * self.code.plan.n() + place) as usize] as u32;
        let symbol = self.pairs[(base * q + number % q) as usize].sum as u32;
        (place * q + symbol) as usize
    }

    /// Marks the slots of a number's word.
    fn mark(&self, number: u32, joined: &mut [bool; SLOTS])
        requires { number < self.now.code.now.plan.now.q ^ self.now.code.now.plan.now.k }
        ensures { (slot : ℕ) → slot < self.now.code.now.plan.now.n * (F.Field.tables self.now.code.now.field.now).order → slice_index_or joined.new slot false ≡ (slice_index_or joined.old slot false || in_word (F.Field.tables self.now.code.now.field.now) self.now.code.now.plan.now.k number slot) }
    {
        for place in 0..self.code.plan.n() {
            joined[self.slot(number, place)] = true;
        }
    }

    /// Which slots are in the joined words of some numbers.
    pub(crate) fn joined(&self, numbers: &[u32]) -> [bool; SLOTS]
        requires { AllByRecursion (λ x. x < self.now.code.now.plan.now.q ^ self.now.code.now.plan.now.k) numbers.now }
        ensures { (slot : ℕ) → slot < self.now.code.now.plan.now.n * (F.Field.tables self.now.code.now.field.now).order → slice_index_or result slot false ≡ joined (F.Field.tables self.now.code.now.field.now) self.now.code.now.plan.now.k numbers.now slot }
    {
        let mut joined = [false; SLOTS];
        for number in numbers {
            self.mark(*number, &mut joined);
        }
        joined
    }
}
