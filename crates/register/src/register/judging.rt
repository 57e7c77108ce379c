//! What a line says of the enrolled cards.
ghost use Rattle.std.specs.Prelude.{◌≡◌, ◌<◌, ◌≤◌, [], length, take, IfOk, None};
ghost use Rattle.faults.specs.Faults.{answer};
ghost use Rattle.words.specs.Calls.{order_check};
ghost use Rattle.reader.specs.Calls.{reading_refusal, list_after};
ghost use Rattle.register.specs.Calls.{to_read, refusal, mark_check, list_left};
ghost use Rattle.register.specs.Promises.{JudgedByDistance, ReadingIsGuaranteed};
ghost use Rattle.register.specs.Racks.{rack_of};
ghost use Rattle.register.specs.Verdicts.{judged, with_names, smallest_foreign, reading_count};

use crate::frame::Frame;
use crate::register::Register;
use crate::verdict::Verdict;
use faults::Fault;
use fields::Field;
use lines::Line;
use names::Name;
use words::{Plan, same_order};

impl<'a, N: Name> Register<'a, N> {
    /// Judges a line without any frame: overload with the count of the covered words, if these are more than d; otherwise
    /// noise with their distance from the line, if that is more than e; otherwise foreign with the smallest covered number
    /// that is not enrolled and the count, if there is one; otherwise named with the count. For named and foreign the list
    /// then begins with the covered numbers in ascending order. Everything else of the list stays.
    ///
    /// The checks, in order: a field of another order (1, with that order), a line that has not n × q slots (8, with its
    /// slots), a list shorter than d (15, with its length).
    pub fn judge<F: Field, L: Line>(
        &self,
        field: &F,
        plan: &Plan,
        line: &L,
        list: &mut [u32],
    ) -> Result<Verdict, Fault>
        ensures answer { result ≡ answer (reading_refusal (F.Field.tables field.now) plan.now (L.Line.row line.now) list.old) (judged (F.Field.tables field.now) plan.now self.now.entries.now (L.Line.row line.now)) }
        ensures list { list.new ≡ list_after (F.Field.tables field.now) plan.now (L.Line.row line.now) list.old }
        ensures promises { IfOk result (λ v. JudgedByDistance (F.Field.tables field.now) plan.now self.now.entries.now (L.Line.row line.now) v list.new) }
    {
        let verdict = reader::read(field, plan, line, list)?;
        Ok(self.with_names(verdict, list))
    }

    /// Reads a line with the frame: the answer is that of `judge`. The checks, in order: a field of another order (1, with
    /// that order), a frame that is not this register's, or none open (14, with its mark), a line that has not n × q slots
    /// (8, with its slots), a list shorter than d (15, with its length).
    pub fn read<F: Field, L: Line>(
        &self,
        field: &F,
        plan: &Plan,
        line: &L,
        frame: &Frame,
        list: &mut [u32],
    ) -> Result<Verdict, Fault>
        ensures answer { result ≡ answer (refusal N.Name.same (F.Field.tables field.now) plan.now (rack_of self.now (L.Line.row line.now)) (to_read frame.now.mark list.old)) (judged (F.Field.tables field.now) plan.now self.now.entries.now (L.Line.row line.now)) }
        ensures list { list.new ≡ list_left (F.Field.tables field.now) plan.now (refusal N.Name.same (F.Field.tables field.now) plan.now (rack_of self.now (L.Line.row line.now)) (to_read frame.now.mark list.old)) (L.Line.row line.now) list.old }
        ensures promises { IfOk result (λ v. ReadingIsGuaranteed N.Name.same (F.Field.tables field.now) plan.now (rack_of self.now (L.Line.row line.now)) v list.new) }
    {
        self.may_read(field, plan, frame)?;
        self.judge(field, plan, line, list)
    }

    /// The checks of `read` that are not those of `judge`.
    fn may_read<F: Field>(&self, field: &F, plan: &Plan, frame: &Frame) -> Result<(), Fault>
        ensures { result ≡ answer (order_check (F.Field.tables field.now) plan.now (mark_check (rack_of self.now []) frame.now.mark None)) tt }
    {
        same_order(field, plan)?;
        self.bears(frame)
    }

    /// The verdict by names, of the verdict before anyone's name is asked and the list as it is then.
    fn with_names(&self, verdict: reader::Verdict, list: &[u32]) -> Verdict
        requires listed { reading_count verdict ≤ length list.now }
        requires count { reading_count verdict < 65536 }
        ensures { result ≡ with_names verdict (smallest_foreign self.now.entries.now (take (reading_count verdict) list.now)) }
    {
        match verdict {
            reader::Verdict::Overload(count) => Verdict::Overload(count),
            reader::Verdict::Noise(distance) => Verdict::Noise(distance),
            reader::Verdict::Reading(count) => self.by_names(&list[..count as usize]),
        }
    }
}
