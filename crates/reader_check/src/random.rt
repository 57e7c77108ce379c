//! A few hundred random lines over plans of both kinds of field and four kinds of line.
use crate::plain::PlainReader;
use faults::Fault;
use fields::{Binary, Field, Prime};
use lines::{Inverted, Junction, Line, Packed, Stride, drop_all};
use reader::read;
use std::process::Abort;
use std::test::Fail;
use words::{Code, Plan};

/// Numbers that follow one another without a plain rule.
#[derive(Drop)]
struct Dice {
    last: u32,
}

impl Dice {
    /// A number below a bound, or 0 where there is none.
    fn below(&mut self, bound: u32) -> u32 {
        let mut x = self.last;
        x ^= x << 13;
        x ^= x >> 17;
        x ^= x << 5;
        self.last = x;
        if bound == 0 { 0 } else { x / 8 % bound }
    }
}

/// A code by which random lines are read, and the dice that make them.
#[derive(Drop)]
struct Trial<'a, F: Field> {
    code: Code<'a, F>,
    dice: Dice,
}

impl<'a, F: Field> Trial<'a, F> {
    /// Lets some cards speak on a clear line and turns some slots over.
    fn speak<L: Line>(&mut self, line: &mut L, cards: u32, turned: u32) -> Result<(), Fault> {
        let plan = self.code.plan;
        drop_all(line)?;
        for _ in 0..cards {
            let number = self.dice.below(plan.cards());
            for place in 0..plan.n() {
                line.drive(self.code.slot(number, place)?)?;
            }
        }
        for _ in 0..turned {
            let slot = self.dice.below(plan.slots());
            if (*line).look(slot)? {
                line.drop(slot)?;
            } else {
                line.drive(slot)?;
            }
        }
        Ok(())
    }

    /// Reads a line by both readers, which are to agree in verdict and list.
    fn agree<L: Line>(&self, rt: &impl Abort, line: &L) {
        let mut list = [77; 40];
        let mut plainly = [77; 40];
        let code = &self.code;
        assert_eq!(rt;
            read(code.field, code.plan, line, &mut list),
            PlainReader::new(code, line).read(&mut plainly)
        );
        assert_eq!(rt; list, plainly);
    }

    /// Some lines with none to more cards than the plan bears, and with none to more turned slots than it bears.
    fn lines_agree<L: Line>(&mut self, rt: &impl Abort, line: &mut L) -> Result<(), Fail> {
        let plan = self.code.plan;
        for _ in 0..8 {
            let cards = self.dice.below(plan.d().min(30) + 3);
            let turned = self.dice.below(plan.e().min(30) + 3);
            self.speak(line, cards, turned)?;
            self.agree(rt, line);
        }
        Ok(())
    }
}

/// Lines of all kinds agree: a packed line, an inverted one, a stride and a junction.
fn kinds_agree<F: Field>(
    rt: &impl Abort,
    field: &F,
    plan: &Plan,
    stride: u32,
    seed: u32,
) -> Result<(), Fail> {
    let mut trial = Trial {
        code: Code::new(field, plan)?,
        dice: Dice { last: seed },
    };
    let slots = plan.slots();
    let mut bytes = [0x5a; 512];
    let mut others = [0; 512];
    trial.lines_agree(rt, &mut Packed::new(&mut bytes, slots))?;
    trial.lines_agree(rt, &mut Inverted::new(Packed::new(&mut bytes, slots)))?;
    trial.lines_agree(rt, &mut Stride::new(Packed::new(&mut bytes, slots), stride))?;
    let mut junction = Junction::new(
        Packed::new(&mut bytes, slots),
        Inverted::new(Packed::new(&mut others, slots)),
    );
    trial.lines_agree(rt, &mut junction)
}

#[test]
fn primes(rt: HostRuntime) -> Result<(), Fail> {
    kinds_agree(&rt, &Prime::new(5)?, &Plan::new(5, 5, 2, 2, 1)?, 7, 1)?;
    kinds_agree(&rt, &Prime::new(7)?, &Plan::new(7, 7, 3, 1, 2)?, 5, 2)?;
    kinds_agree(&rt, &Prime::new(13)?, &Plan::new(13, 12, 2, 5, 3)?, 11, 3)?;
    kinds_agree(&rt, &Prime::new(2)?, &Plan::new(2, 2, 1, 32, 0)?, 3, 4)?;
    kinds_agree(&rt, &Prime::new(61)?, &Plan::new(61, 61, 1, 32, 30)?, 60, 5)
}

#[test]
fn binaries(rt: HostRuntime) -> Result<(), Fail> {
    kinds_agree(&rt, &Binary::new(2)?, &Plan::new(4, 4, 2, 1, 1)?, 3, 6)?;
    kinds_agree(&rt, &Binary::new(3)?, &Plan::new(8, 8, 2, 3, 2)?, 5, 7)?;
    kinds_agree(&rt, &Binary::new(4)?, &Plan::new(16, 16, 2, 5, 5)?, 9, 8)?;
    kinds_agree(&rt, &Binary::new(3)?, &Plan::new(8, 7, 3, 3, 0)?, 9, 9)?;
    kinds_agree(&rt, &Binary::new(5)?, &Plan::new(32, 1, 1, 1, 0)?, 7, 10)
}
