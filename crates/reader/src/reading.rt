//! The reading of a line.
ghost use Rattle.std.specs.Prelude.{◌≡◌, ◌*◌, ◌≤◌, length, None, Some, Ok, IfOk, IfErr};
ghost use Rattle.faults.specs.Faults.{answer};
ghost use Rattle.reader.specs.Calls.{line_check, reading_refusal, list_after};
ghost use Rattle.reader.specs.Promises.{ReadByDistance};
ghost use Rattle.reader.specs.Verdicts.{verdict, listed};

use crate::bases::{BASES, base_up};
use crate::pairs::{PAIRS, Pair, pair_up};
use crate::row::{Row, look_over};
use crate::tables::Tables;
use crate::verdict::Verdict;
use faults::{Fault, Refusal, refuse_unless};
use fields::Field;
use lines::Line;
use words::{Code, Plan};

/// Reads which cards spoke on a line, before anyone's name is asked.
///
/// A word is covered when at most e of its n slots are clear on the line. More than d covered words are an overload, with
/// their count. Otherwise, if the line differs from their joined words in more than e slots, it is noise, with the count
/// of these slots. Otherwise it is a reading: the list then begins with the covered numbers in ascending order, and its
/// rest stays. Where there is no reading, the whole list stays.
///
/// The checks, in order: a field of another order (1, with that order), a line that has not n × q slots (8, with its
/// slots), a list shorter than d (15, with its length).
pub fn read<F: Field, L: Line>(
    field: &F,
    plan: &Plan,
    line: &L,
    list: &mut [u32],
) -> Result<Verdict, Fault>
    ensures answer { result ≡ answer (reading_refusal (F.Field.tables field.now) plan.now (L.Line.row line.now) list.old) (verdict (F.Field.tables field.now) plan.now.n plan.now.k plan.now.d plan.now.e (L.Line.row line.now)) }
    ensures list { list.new ≡ list_after (F.Field.tables field.now) plan.now (L.Line.row line.now) list.old }
    ensures promises { IfOk result (λ v. ReadByDistance (F.Field.tables field.now) plan.now.n plan.now.k plan.now.d plan.now.e (L.Line.row line.now) v list.new) }
{
    let code = checked(field, plan, line, list)?;
    decide(code, line, list)
}

/// The checks of `read`.
pub fn ready<F: Field, L: Line>(field: &F, plan: &Plan, line: &L, list: &[u32]) -> Result<(), Fault>
    ensures { result ≡ answer (reading_refusal (F.Field.tables field.now) plan.now (L.Line.row line.now) list.now) tt }
{
    checked(field, plan, line, list)?;
    Ok(())
}

/// The check that a line has the plan's n × q slots.
pub fn has_slots<L: Line>(plan: &Plan, line: &L) -> Result<(), Fault>
    ensures { result ≡ answer (line_check plan.now (L.Line.row line.now) None) tt }
{
    let slots = line.slots();
    refuse_unless(slots == plan.slots(), Refusal::Line, slots as u64)
}

/// The code of a field and a plan, after the checks of `read`.
fn checked<'a, F: Field, L: Line>(
    field: &'a F,
    plan: &'a Plan,
    line: &L,
    list: &[u32],
) -> Result<Code<'a, F>, Fault>
    ensures field { IfOk result (λ code. code.field.now ≡ field.now) }
    ensures plan { IfOk result (λ code. code.plan.now ≡ plan.now) }
    ensures accepted { IfOk result (λ _. reading_refusal (F.Field.tables field.now) plan.now (L.Line.row line.now) list.now ≡ None) }
    ensures refused { IfErr result (λ fault. reading_refusal (F.Field.tables field.now) plan.now (L.Line.row line.now) list.now ≡ Some fault) }
{
    let code = Code::new(field, plan)?;
    has_slots(plan, line)?;
    let room = list.len();
    refuse_unless(plan.d() as usize <= room, Refusal::Room, room as u64)?;
    Ok(code)
}

/// Reads a line of the plan's slots into a list that has room.
fn decide<F: Field, L: Line>(
    code: Code<'_, F>,
    line: &L,
    list: &mut [u32],
) -> Result<Verdict, Fault>
    requires slots { length (L.Line.row line.now) ≡ code.plan.now.n * code.plan.now.q }
    requires room { code.plan.now.d ≤ length list.old }
    ensures answer { result ≡ Ok (verdict (F.Field.tables code.entry.field.now) code.entry.plan.now.n code.entry.plan.now.k code.entry.plan.now.d code.entry.plan.now.e (L.Line.row line.now)) }
    ensures list { list.new ≡ listed (F.Field.tables code.entry.field.now) code.entry.plan.now.n code.entry.plan.now.k code.entry.plan.now.d code.entry.plan.now.e (L.Line.row line.now) list.old }
{
    let mut pairs = [Pair::default(); PAIRS];
    pair_up(&code, &mut pairs)?;
    let mut bases = [0; BASES];
    base_up(&code, &pairs, &mut bases);
    let tables = Tables {
        code: &code,
        pairs: &pairs,
        bases: &bases,
    };
    let slots = look_over(line)?;
    let row = Row {
        tables: &tables,
        slots: slots.as_slice(),
    };
    Ok(row.weigh(list))
}
