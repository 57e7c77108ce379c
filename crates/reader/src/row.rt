//! The row of a line's slots, and what it shows.
ghost use Rattle.std.specs.Prelude.{◌≡◌, ◌*◌, ◌^◌, ◌<◌, ◌≤◌, map, length, take, sum_by, cond, IsOk, IfOk};
ghost use Rattle.std.specs.List.{AllByRecursion, zip};
ghost use Rattle.frames.specs.Frames.{differ};
ghost use Rattle.reader.specs.Distances.{cover, distance};
ghost use Rattle.reader.specs.Verdicts.{verdict, listed};
ghost use Rattle.reader.specs.Working.{standing, spot_of};

use crate::covered::Covered;
use crate::spot::Spot;
use crate::tables::{SLOTS, Tables};
use crate::verdict::Verdict;
use arrayvec::ArrayVec;
use faults::Fault;
use fields::Field;
use lines::Line;

/// The row of a line's slots, with the tables of the code that it is read by.
#[derive(Drop)]
pub(crate) struct Row<'r, 'a, F: Field> {
    pub(crate) tables: &'r Tables<'a, F>,
    pub(crate) slots: &'r [bool],
    ghost long: { length slots.now ≡ tables.now.code.now.plan.now.n * tables.now.code.now.plan.now.q },
}

impl<'r, 'a, F: Field> Row<'r, 'a, F> {
    /// The verdict on the row; where it is a reading, the list then begins with it.
    pub(crate) fn weigh(&self, list: &mut [u32]) -> Verdict
        requires { self.now.tables.now.code.now.plan.now.d ≤ length list.old }
        ensures verdict { result ≡ verdict (F.Field.tables self.now.tables.now.code.now.field.now) self.now.tables.now.code.now.plan.now.n self.now.tables.now.code.now.plan.now.k self.now.tables.now.code.now.plan.now.d self.now.tables.now.code.now.plan.now.e self.now.slots.now }
        ensures list { list.new ≡ listed (F.Field.tables self.now.tables.now.code.now.field.now) self.now.tables.now.code.now.plan.now.n self.now.tables.now.code.now.plan.now.k self.now.tables.now.code.now.plan.now.d self.now.tables.now.code.now.plan.now.e self.now.slots.now list.old }
    {
        let plan = self.tables.code.plan;
        let covered = self.covered();
        if covered.count > plan.d() {
            return Verdict::Overload(covered.count);
        }
        let numbers = covered.listed.as_slice();
        let distance = self.distance(numbers);
        if distance > plan.e() {
            return Verdict::Noise(distance);
        }
        list[..numbers.len()].copy_from_slice(numbers);
        Verdict::Reading(covered.count)
    }

    /// The covered numbers in ascending order.
    fn covered(&self) -> Covered
        ensures count { result.count ≡ length (cover (F.Field.tables self.now.tables.now.code.now.field.now) self.now.tables.now.code.now.plan.now.n self.now.tables.now.code.now.plan.now.k self.now.tables.now.code.now.plan.now.e self.now.slots.now) }
        ensures listed { result.listed.items ≡ take 32 (cover (F.Field.tables self.now.tables.now.code.now.field.now) self.now.tables.now.code.now.plan.now.n self.now.tables.now.code.now.plan.now.k self.now.tables.now.code.now.plan.now.e self.now.slots.now) }
    {
        let plan = self.tables.code.plan;
        let q = plan.q() as usize;
        let needed = (plan.n() - plan.e()) as u16;
        let spots = self.standing();
        let mut covered = Covered::default();
        for high in 0..plan.cards() as usize / q {
            let votes = self.tables.tally(high, spots.as_slice());
            for (lowest, votes) in votes[..q].iter().enumerate() {
                if *votes >= needed {
                    covered.note((high * q + lowest) as u32);
                }
            }
        }
        covered
    }

    /// The standing slots in ascending order.
    fn standing(&self) -> ArrayVec<Spot, SLOTS>
        ensures { result.items ≡ map (spot_of self.now.tables.now.code.now.plan.now.q) (standing self.now.slots.now) }
    {
        let q = self.tables.code.plan.q() as usize;
        let mut spots = ArrayVec::new();
        // Row by row, so that place and symbol are at hand: dividing each standing slot by q was tried, and with one
        // coefficient a reading of a full line took 1.6 times as long.
        for place in 0..self.tables.code.plan.n() as usize {
            let row = &self.slots[place * q..place * q + q];
            for (symbol, stands) in row.iter().enumerate() {
                if *stands {
                    spots.push(Spot {
                        place: place as u8,
                        symbol: symbol as u8,
                    });
                }
            }
        }
        spots
    }

    /// The distance of some numbers from the row.
    fn distance(&self, numbers: &[u32]) -> u32
        requires { AllByRecursion (λ x. x < self.now.tables.now.code.now.plan.now.q ^ self.now.tables.now.code.now.plan.now.k) numbers.now }
        ensures { result ≡ distance (F.Field.tables self.now.tables.now.code.now.field.now) self.now.tables.now.code.now.plan.now.n self.now.tables.now.code.now.plan.now.k self.now.slots.now numbers.now }
    {
        differing(self.slots, &self.tables.joined(numbers))
    }
}

/// In how many slots a row differs from some marks.
fn differing(row: &[bool], marks: &[bool]) -> u32
    requires { length row.now ≤ 4096 }
    ensures { result ≡ sum_by (λ slot. cond (differ slot.0 slot.1) 1 0) (zip row.now marks.now) }
{
    // Summed, which the compiler does for many slots at once; filtering and counting was tried, and it did not.
    row.iter()
        .zip(marks)
        .map(|(stands, marked)| u32::from(*stands != *marked))
        .sum()
}

/// Which slots of a line stand. It looks at each slot once.
pub(crate) fn look_over<L: Line>(line: &L) -> Result<ArrayVec<bool, SLOTS>, Fault>
    ensures accepted { IsOk result }
    ensures slots { IfOk result (λ slots. slots.items ≡ L.Line.row line.now) }
{
    let mut slots = ArrayVec::new();
    for slot in 0..line.slots() {
        slots.push(line.look(slot)?);
    }
    Ok(slots)
}
