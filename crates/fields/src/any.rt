//! A field of either kind, for a choice that is made at run time.
ghost use Rattle.fields.specs.Choices.{Chooses, any_tables};
ghost use Rattle.fields.specs.declared.any.AnyField.TheVariants.{Prime, Binary};
ghost use Rattle.fields.specs.BinarySteps.{admitted_laws};
ghost use Rattle.fields.specs.PrimeLaws.{prime_laws};

use crate::binary::Binary;
use crate::field::Field;
use crate::prime::Prime;
use faults::Fault;

/// Which field is meant: a kind, and its parameter.
#[derive(Clone, Copy, Debug, PartialEq, Eq)]
pub enum FieldChoice {
    /// the prime field of this order
    Prime(u32),
    /// the binary field of order 2 to the power of this number
    Binary(u32),
}

/// A field of either kind.
#[derive(Clone, Copy, Debug, PartialEq, Eq)]
pub enum AnyField {
    Prime(Prime),
    Binary(Binary),
}

/// The field that is meant. Where there is no such field, the choice is refused with 1 and its parameter.
impl TryFrom<FieldChoice> for AnyField {
    type Error = Fault;

    ghost try_from_gives = { Chooses };

    fn try_from(choice: FieldChoice) -> Result<AnyField, Fault> {
        match choice {
            FieldChoice::Prime(p) => Ok(AnyField::Prime(Prime::new(p)?)),
            FieldChoice::Binary(m) => Ok(AnyField::Binary(Binary::new(m)?)),
        }
    }
}

// Each call matches on the kind: the kinds are two and copied by value, and a dyn would have to be made and handed out.
impl Field for AnyField {
    ghost tables = { any_tables };

    ghost lawful = { elim [
      | Prime f ↦ prime_laws f.p f.admitted
      | Binary f ↦ admitted_laws f.m f.modulus f.admitted
    ] };

    fn order(&self) -> u32 {
        match self {
            AnyField::Prime(f) => f.order(),
            AnyField::Binary(f) => f.order(),
        }
    }

    fn sum(&self, a: u32, b: u32) -> Result<u32, Fault> {
        match self {
            AnyField::Prime(f) => f.sum(a, b),
            AnyField::Binary(f) => f.sum(a, b),
        }
    }

    fn negative(&self, a: u32) -> Result<u32, Fault> {
        match self {
            AnyField::Prime(f) => f.negative(a),
            AnyField::Binary(f) => f.negative(a),
        }
    }

    fn product(&self, a: u32, b: u32) -> Result<u32, Fault> {
        match self {
            AnyField::Prime(f) => f.product(a, b),
            AnyField::Binary(f) => f.product(a, b),
        }
    }
}
