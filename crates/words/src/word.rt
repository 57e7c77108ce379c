//! The words of cards: symbols, slots and packed frames.
ghost use Rattle.std.specs.Prelude.{◌≡◌, ◌/◌, ◌%◌, None};
ghost use Rattle.faults.specs.Faults.{answer};
ghost use Rattle.words.specs.Calls.{order_check, symbol_refusal, slot_refusal, word_refusal, word_frame};
ghost use Rattle.words.specs.Words.{symbol, slot_at};

use crate::code::Code;
use crate::plan::Plan;
use faults::{Fault, Refusal, refuse_unless};
use fields::Field;
use frames::fits;

/// Accepts a field of the plan's order; any other is refused with 1 and its order. Every call that works by a plan makes
/// this check before all others.
pub fn same_order<F: Field>(field: &F, plan: &Plan) -> Result<(), Fault>
    ensures { result ≡ answer (order_check (F.Field.tables field.now) plan.now None) tt }
{
    let order = field.order();
    refuse_unless(order == plan.q(), Refusal::Field, order as u64)
}

/// The symbol of a number's word at a place. The checks, in order: a field of another order (1, with that order), a
/// number without a word (9, with the number), a place of n or more (7, with the first slot that it would have).
pub fn symbol<F: Field>(field: &F, plan: &Plan, number: u32, place: u32) -> Result<u32, Fault>
    ensures { result ≡ answer (symbol_refusal (F.Field.tables field.now) plan.now number place) (symbol (F.Field.tables field.now) plan.now.k number place) }
{
    Code::new(field, plan)?.symbol(number, place)
}

/// The slot of a number's word at a place, after the checks of `symbol`.
pub fn slot<F: Field>(field: &F, plan: &Plan, number: u32, place: u32) -> Result<u32, Fault>
    ensures { result ≡ answer (symbol_refusal (F.Field.tables field.now) plan.now number place) (slot_at (F.Field.tables field.now) plan.now.k number place) }
{
    Code::new(field, plan)?.slot(number, place)
}

/// The place and the symbol of a slot: quotient and remainder by q. The checks, in order: a field of another order (1,
/// with that order), a slot of n × q or more (7, with the slot).
pub fn place_and_symbol<F: Field>(field: &F, plan: &Plan, slot: u32) -> Result<(u32, u32), Fault>
    ensures { result ≡ answer (slot_refusal (F.Field.tables field.now) plan.now slot) (slot / plan.now.q, slot % plan.now.q) }
{
    same_order(field, plan)?;
    refuse_unless(slot < plan.slots(), Refusal::Slot, slot as u64)?;
    Ok((slot / plan.q(), slot % plan.q()))
}

/// Writes a number's word into a packed frame: the frame's slots are then the word's, and its spare bits stay. The
/// checks, in order: a field of another order (1, with that order), a frame of the wrong length (5, with its length), a
/// number without a word (9, with the number).
pub fn write_word<F: Field>(
    field: &F,
    plan: &Plan,
    number: u32,
    frame: &mut [u8],
) -> Result<(), Fault>
    ensures answer { result ≡ answer (word_refusal (F.Field.tables field.now) plan.now number frame.old) tt }
    ensures after { frame.new ≡ word_frame (F.Field.tables field.now) plan.now number frame.old }
{
    let code = Code::new(field, plan)?;
    fits(frame, plan.slots())?;
    plan.has_word(number)?;
    code.draw(number, frame)
}
