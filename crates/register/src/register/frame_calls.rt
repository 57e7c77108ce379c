//! Opening a frame, ticking and knocking in it, and closing it.
ghost use Rattle.std.specs.Prelude.{◌≡◌, ◌*◌, ◌^◌, ◌<◌, ◌≤◌, Bool, true, false, not, List, [], length, is_some, None, Ok, slice_index_or, slice_set};
ghost use Rattle.faults.specs.Faults.{answer};
ghost use Rattle.frames.specs.Frames.{slot_answer};
ghost use Rattle.register.specs.Calls.{to_open, to_tick, refusal, left_by, open_check, mark_check, tick_refusal, knock_refusal, knocked, close_refusal, closed, close_answer, unless};
ghost use Rattle.register.specs.Racks.{rack_of, driven, number_of, number_or_0};

use crate::frame::{Frame, Refused};
use crate::register::Register;
use faults::{Fault, Refusal, refuse_unless};
use fields::Field;
use lines::{Line, drop_all};
use names::Name;
use reader::has_slots;
use words::{Code, Plan, same_order};

impl<'a, N: Name> Register<'a, N> {
    /// Accepts the mark of an open frame of this register; any other is refused with 14 and that mark.
    pub(crate) fn bears(&self, frame: &Frame) -> Result<(), Fault>
        ensures { result ≡ answer (mark_check (rack_of self.now []) frame.now.mark None) tt }
    {
        refuse_unless(
            self.opened && frame.mark == self.mark,
            Refusal::Mark,
            frame.mark as u64,
        )
    }

    /// Accepts a register with no frame open; any other is refused with 13 and the mark.
    pub(crate) fn none_open(&self) -> Result<(), Fault>
        ensures { result ≡ answer (open_check (rack_of self.now []) None) tt }
    {
        refuse_unless(!self.opened, Refusal::Open, self.mark as u64)
    }

    /// Opens a frame: drops every slot of the line and hands out a frame that bears the mark. The checks, in order: a field
    /// of another order (1, with that order), an open frame (13, with the mark), a line that has not n × q slots (8, with
    /// its slots).
    pub fn open<F: Field, L: Line>(
        &mut self,
        field: &F,
        plan: &Plan,
        line: &mut L,
    ) -> Result<Frame, Fault>
        ensures answer { result ≡ answer (refusal N.Name.same (F.Field.tables field.now) plan.now (rack_of self.old (L.Line.row line.old)) to_open) (record { mark = self.old.mark; spent = false }) }
        ensures after { rack_of self.new (L.Line.row line.new) ≡ left_by N.Name.same (F.Field.tables field.now) plan.now (rack_of self.old (L.Line.row line.old)) to_open }
        ensures rest { L.Line.kept line.old line.new }
        ensures refused { is_some (refusal N.Name.same (F.Field.tables field.now) plan.now (rack_of self.old (L.Line.row line.old)) to_open) ≡ true → line.new ≡ line.old }
    {
        self.may_open(field, plan, line)?;
        drop_all(line)?;
        self.opened = true;
        Ok(Frame {
            mark: self.mark,
            spent: false,
        })
    }

    // A rule of the project hands each call field and plan, and the functions named `may_` make its first checks of both.
    /// The checks of `open`.
    fn may_open<F: Field, L: Line>(&self, field: &F, plan: &Plan, line: &L) -> Result<(), Fault>
        ensures { result ≡ answer (refusal N.Name.same (F.Field.tables field.now) plan.now (rack_of self.now (L.Line.row line.now)) to_open) tt }
    {
        same_order(field, plan)?;
        self.none_open()?;
        has_slots(plan, line)
    }

    /// Ticks a name: the n slots of its card are driven. The checks, in order: a field of another order (1, with that
    /// order), a frame that is not this register's, or none open (14, with its mark), a line that has not n × q slots (8,
    /// with its slots), a name that is not enrolled (12, with 0), a number without a word (9, with the number).
    pub fn tick<F: Field, L: Line>(
        &self,
        field: &F,
        plan: &Plan,
        line: &mut L,
        frame: &Frame,
        name: &N,
    ) -> Result<(), Fault>
        ensures answer { result ≡ answer (refusal N.Name.same (F.Field.tables field.now) plan.now (rack_of self.now (L.Line.row line.old)) (to_tick frame.now.mark name.now)) tt }
        ensures after { rack_of self.now (L.Line.row line.new) ≡ left_by N.Name.same (F.Field.tables field.now) plan.now (rack_of self.now (L.Line.row line.old)) (to_tick frame.now.mark name.now) }
        ensures rest { L.Line.kept line.old line.new }
        ensures refused { is_some (refusal N.Name.same (F.Field.tables field.now) plan.now (rack_of self.now (L.Line.row line.old)) (to_tick frame.now.mark name.now)) ≡ true → line.new ≡ line.old }
    {
        let code = Code::new(field, plan)?;
        let number = self.card_of(plan, line, frame, name)?;
        drive_word(&code, line, number)
    }

    /// The number of the card that a tick drives, after the checks of `tick` that follow that of the field.
    fn card_of<L: Line>(&self, plan: &Plan, line: &L, frame: &Frame, name: &N) -> Result<u32, Fault>
        ensures { result ≡ answer (tick_refusal N.Name.same plan.now (rack_of self.now (L.Line.row line.now)) frame.now.mark name.now) (number_or_0 (number_of N.Name.same name.now self.now.entries.now)) }
    {
        self.bears(frame)?;
        has_slots(plan, line)?;
        // Apart as in `strike`, by the same rule.
        let Some(number) = self.number_of(name) else {
            return Err(Fault::new(Refusal::Unknown, 0));
        };
        plan.has_word(number)?;
        Ok(number)
    }

    /// Knocks a slot: it changes from standing to clear or back. The checks, in order: a frame that is not this register's,
    /// or none open (14, with its mark), a slot past the row (7, with the slot).
    pub fn knock<L: Line>(&self, line: &mut L, frame: &Frame, slot: u32) -> Result<(), Fault>
        ensures answer { result ≡ answer (knock_refusal (rack_of self.now (L.Line.row line.old)) frame.now.mark slot) tt }
        ensures after { rack_of self.now (L.Line.row line.new) ≡ unless (knock_refusal (rack_of self.now (L.Line.row line.old)) frame.now.mark slot) (knocked (rack_of self.now (L.Line.row line.old)) slot) (rack_of self.now (L.Line.row line.old)) }
        ensures rest { L.Line.kept line.old line.new }
        ensures refused { is_some (knock_refusal (rack_of self.now (L.Line.row line.old)) frame.now.mark slot) ≡ true → line.new ≡ line.old }
    {
        self.bears(frame)?;
        turn_over(line, slot)
    }

    /// Closes a frame: none is open then. A frame that bears another mark, or one while none is open, is refused with 14
    /// and its mark, and handed back.
    pub fn close(&mut self, mut frame: Frame) -> Result<(), Refused>
        ensures answer { result ≡ close_answer (close_refusal (rack_of self.old []) frame.mark) frame }
        ensures after { (row : List Bool) → rack_of self.new row ≡ unless (close_refusal (rack_of self.old row) frame.mark) (closed (rack_of self.old row)) (rack_of self.old row) }
    {
        if let Err(fault) = self.bears(&frame) {
            return Err(Refused { fault, frame });
        }
        frame.spent = true;
        self.opened = false;
        Ok(())
    }
}

/// Makes a standing slot clear and a clear one stand. A slot past the row is refused with 7 and the slot.
fn turn_over<L: Line>(line: &mut L, slot: u32) -> Result<(), Fault>
    ensures answer { result ≡ slot_answer (length (L.Line.row line.old)) slot tt }
    ensures after { L.Line.row line.new ≡ slice_set (L.Line.row line.old) slot (not (slice_index_or (L.Line.row line.old) slot false)) }
    ensures rest { L.Line.kept line.old line.new }
    ensures refused { length (L.Line.row line.old) ≤ slot → line.new ≡ line.old }
{
    if (*line).look(slot)? {
        line.drop(slot)
    } else {
        line.drive(slot)
    }
}

/// Drives the n slots of a number's word.
fn drive_word<F: Field, L: Line>(code: &Code<'_, F>, line: &mut L, number: u32) -> Result<(), Fault>
    requires slots { length (L.Line.row line.old) ≡ code.now.plan.now.n * code.now.plan.now.q }
    requires card { number < code.now.plan.now.q ^ code.now.plan.now.k }
    ensures answer { result ≡ Ok tt }
    ensures after { L.Line.row line.new ≡ driven (F.Field.tables code.now.field.now) code.now.plan.now.k number (L.Line.row line.old) }
    ensures rest { L.Line.kept line.old line.new }
{
    for place in 0..code.plan.n() {
        line.drive(code.slot(number, place)?)?;
    }
    Ok(())
}
