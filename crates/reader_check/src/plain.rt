//! A second reader, written plainly: word by word, place by place, slot by slot.
use arrayvec::ArrayVec;
use faults::Fault;
use fields::Field;
use lines::Line;
use reader::Verdict;
use words::{Code, place_and_symbol};

/// A line, and the code by which it is read plainly.
#[derive(Drop)]
pub(crate) struct PlainReader<'a, F: Field, L: Line> {
    code: &'a Code<'a, F>,
    line: &'a L,
}

impl<'a, F: Field, L: Line> PlainReader<'a, F, L> {
    /// The reader of a line by a code.
    pub(crate) fn new(code: &'a Code<'a, F>, line: &'a L) -> PlainReader<'a, F, L> {
        PlainReader { code, line }
    }

    /// The verdict on a line of the plan's slots, and the list after it.
    pub(crate) fn read(&self, list: &mut [u32; 40]) -> Result<Verdict, Fault> {
        let code = self.code;
        let (count, covered) = self.covered_numbers()?;
        if count > code.plan.d() {
            return Ok(Verdict::Overload(count));
        }
        let numbers = covered.as_slice();
        let distance = self.distance(numbers)?;
        if distance > code.plan.e() {
            return Ok(Verdict::Noise(distance));
        }
        list[..numbers.len()].copy_from_slice(numbers);
        Ok(Verdict::Reading(count))
    }

    /// How many numbers are covered, and a list of them as far as there is room.
    // A count stands beside the list, since it may be more than the list holds. Here and below a loop counts: each look may
    // refuse, so that a chain would be a `try_fold`, which is no plainer.
    fn covered_numbers(&self) -> Result<(u32, ArrayVec<u32, 40>), Fault> {
        let code = self.code;
        let mut count: u32 = 0;
        let mut covered = ArrayVec::new();
        for number in 0..code.plan.cards() {
            if self.clear_slots(number)? <= code.plan.e() {
                count = count.saturating_add(1);
                if !covered.is_full() {
                    covered.push(number);
                }
            }
        }
        Ok((count, covered))
    }

    /// How many slots of a number's word are clear on the line.
    fn clear_slots(&self, number: u32) -> Result<u32, Fault> {
        let code = self.code;
        let mut clear: u32 = 0;
        for place in 0..code.plan.n() {
            if !self.line.look(code.slot(number, place)?)? {
                clear = clear.saturating_add(1);
            }
        }
        Ok(clear)
    }

    /// The distance of some numbers from the line.
    fn distance(&self, numbers: &[u32]) -> Result<u32, Fault> {
        let code = self.code;
        let mut distance: u32 = 0;
        for slot in 0..code.plan.slots() {
            if self.line.look(slot)? != self.is_spoken(numbers, slot)? {
                distance = distance.saturating_add(1);
            }
        }
        Ok(distance)
    }

    /// Whether a slot is in the word of at least one of some numbers.
    fn is_spoken(&self, numbers: &[u32], slot: u32) -> Result<bool, Fault> {
        let code = self.code;
        let (place, symbol) = place_and_symbol(code.field, code.plan, slot)?;
        for number in numbers {
            if code.symbol(*number, place)? == symbol {
                return Ok(true);
            }
        }
        Ok(false)
    }
}
