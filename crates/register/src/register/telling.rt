//! The line of text of a verdict.
ghost use Rattle.std.specs.Prelude.{◌≡◌, length};
ghost use Rattle.faults.specs.Faults.{answer};
ghost use Rattle.register.specs.Calls.{text_refusal, list_left, unless};
ghost use Rattle.register.specs.Texts.{told_line, with_line};

use crate::register::Register;
use crate::text::{LINE_ROOM, Told};
use faults::{Fault, Refusal, refuse_unless};
use fields::Field;
use lines::Line;
use names::Name;
use reader::ready;
use words::Plan;

impl<'a, N: Name> Register<'a, N> {
    /// Judges a line and gives the verdict's line of text: a letter, N for named, F for foreign, O for overload or X for
    /// noise; for foreign the smallest number that is not enrolled; the count or the distance; for named and foreign each
    /// number of the list; a blank before every field but the letter, and a line feed last. It answers the count of bytes.
    /// The rest of the text stays, and the list is as `judge` leaves it.
    ///
    /// The checks, in order: those of `judge`, then a text under 256 bytes (15, with its length).
    pub fn judge_text<F: Field, L: Line>(
        &self,
        field: &F,
        plan: &Plan,
        line: &L,
        list: &mut [u32],
        text: &mut [u8],
    ) -> Result<usize, Fault>
        ensures answer { result ≡ answer (text_refusal (F.Field.tables field.now) plan.now (L.Line.row line.now) list.old text.old) (length (told_line (F.Field.tables field.now) plan.now self.now.entries.now (L.Line.row line.now))) }
        ensures list { list.new ≡ list_left (F.Field.tables field.now) plan.now (text_refusal (F.Field.tables field.now) plan.now (L.Line.row line.now) list.old text.old) (L.Line.row line.now) list.old }
        ensures text { text.new ≡ unless (text_refusal (F.Field.tables field.now) plan.now (L.Line.row line.now) list.old text.old) (with_line (told_line (F.Field.tables field.now) plan.now self.now.entries.now (L.Line.row line.now)) text.old) text.old }
    {
        may_tell(field, plan, line, list, text)?;
        let verdict = self.judge(field, plan, line, list)?;
        let count = verdict.listed_count() as usize;
        let numbers = &list[..count];
        Ok(Told { verdict, numbers }.write(text))
    }
}

/// The checks of `judge_text`.
fn may_tell<F: Field, L: Line>(
    field: &F,
    plan: &Plan,
    line: &L,
    list: &[u32],
    text: &[u8],
) -> Result<(), Fault>
    ensures { result ≡ answer (text_refusal (F.Field.tables field.now) plan.now (L.Line.row line.now) list.now text.now) tt }
{
    ready(field, plan, line, list)?;
    let room = text.len();
    refuse_unless(LINE_ROOM <= room, Refusal::Room, room as u64)
}
