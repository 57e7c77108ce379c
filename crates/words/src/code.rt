//! A field and a plan of its order, by which the numbers of cards have words.
ghost use Rattle.std.specs.Prelude.{◌≡◌, ◌*◌, ◌<◌, length, None, Some, Ok, IfOk, IfErr};
ghost use Rattle.faults.specs.Faults.{answer};
ghost use Rattle.frames.specs.Frames.{bytes_for, framed};
ghost use Rattle.words.specs.Calls.{order_check, place_refusal};
ghost use Rattle.words.specs.Words.{symbol, slot_at, in_word};

use crate::plan::Plan;
use crate::word::same_order;
use faults::{Fault, Refusal, refuse_unless};
use fields::Field;
use frames::put;

/// A field and a plan of its order: together they say which word each number has.
///
/// Every call that works by a plan is handed a field beside it, by a rule of the project, and refuses a field of another
/// order before all else. What lies below takes the code.
#[derive(Drop)]
pub struct Code<'a, F: Field> {
    /// the field
    pub field: &'a F,
    /// the plan, of the field's order
    pub plan: &'a Plan,
    ghost same_order: { (F.Field.tables field.now).order ≡ plan.now.q },
}

impl<'a, F: Field> Code<'a, F> {
    /// The code of a field and a plan. A field of another order than the plan's is refused with 1 and its order.
    pub fn new(field: &'a F, plan: &'a Plan) -> Result<Code<'a, F>, Fault>
        ensures field { IfOk result (λ code. code.field.now ≡ field.now) }
        ensures plan { IfOk result (λ code. code.plan.now ≡ plan.now) }
        ensures refused { IfErr result (λ fault. order_check (F.Field.tables field.now) plan.now None ≡ Some fault) }
    {
        same_order(field, plan)?;
        Ok(Code { field, plan })
    }

    /// The symbol of a number's word at a place. The checks, in order: a number without a word (9, with the number), a
    /// place of n or more (7, with the first slot that it would have).
    pub fn symbol(&self, number: u32, place: u32) -> Result<u32, Fault>
        ensures { result ≡ answer (place_refusal self.now.plan.now number place) (symbol (F.Field.tables self.now.field.now) self.now.plan.now.k number place) }
    {
        let plan = self.plan;
        plan.has_word(number)?;
        refuse_unless(
            place < plan.n(),
            Refusal::Slot,
            place as u64 * plan.q() as u64,
        )?;
        self.value(number, place)
    }

    /// The slot of a number's word at a place, after the checks of `symbol`.
    pub fn slot(&self, number: u32, place: u32) -> Result<u32, Fault>
        ensures { result ≡ answer (place_refusal self.now.plan.now number place) (slot_at (F.Field.tables self.now.field.now) self.now.plan.now.k number place) }
    {
        let symbol = self.symbol(number, place)?;
        Ok(place * self.plan.q() + symbol)
    }

    /// Draws a word into a frame of the right length, place by place.
    pub(crate) fn draw(&self, number: u32, frame: &mut [u8]) -> Result<(), Fault>
        requires { length frame.old ≡ bytes_for (self.now.plan.now.n * self.now.plan.now.q) }
        ensures answer { result ≡ Ok tt }
        ensures after { frame.new ≡ framed (in_word (F.Field.tables self.now.field.now) self.now.plan.now.k number) (self.now.plan.now.n * self.now.plan.now.q) frame.old }
    {
        let q = self.plan.q();
        for place in 0..self.plan.n() {
            let symbol = self.value(number, place)?;
            for y in 0..q {
                put(frame, place * q + y, symbol == y)?;
            }
        }
        Ok(())
    }

    /// The value at x of the polynomial whose k coefficients are the digits of a number, the lowest first.
    fn value(&self, number: u32, x: u32) -> Result<u32, Fault>
        requires { x < self.now.plan.now.q }
        ensures { result ≡ Ok (symbol (F.Field.tables self.now.field.now) self.now.plan.now.k number x) }
    {
        let field = self.field;
        let q = field.order();
        // Three numbers go from turn to turn, and each call may refuse: a fold over the turns would be no plainer.
        let mut rest = number;
        let mut power = 1;
        let mut sum = 0;
        for j in 0..self.plan.k() {
            sum = field.sum(sum, field.product(rest % q, power)?)?;
            power = field.product(power, x)?;
            rest /= q;
        }
        Ok(sum)
    }
}
