//! The plan record: a plan, its field and its kind of names in four bytes.
ghost use Rattle.std.specs.Prelude.{◌≡◌, ◌+◌, ◌-◌, ◌*◌, ◌/◌, ◌%◌, ◌^◌, ◌<◌, ◌≤◌, length, Some, None, MatchResult};
ghost use Rattle.faults.specs.Faults.{answer};
ghost use Rattle.words.specs.Records.{record_refusal, record_of, record_bits, zero_refusal, kind_refusal, field_of, names_of, bits_refusal, reading, writing_refusal, written, FitsItsParts, Meant};

use crate::plan::Plan;
use faults::{Fault, Refusal, refuse_unless};
use fields::{AnyField, Field, FieldChoice};

/// A part of the record's 32 bits: its first bit, counted from the front, and how many bits it has.
#[derive(Clone, Copy)]
struct Part {
    place: u32,
    width: u32,
}

const KIND: Part = Part { place: 0, width: 2 };

const PARAMETER: Part = Part { place: 2, width: 6 };

const PLACES: Part = Part { place: 8, width: 7 };

const COEFFICIENTS: Part = Part {
    place: 15,
    width: 3,
};

const TOGETHER: Part = Part {
    place: 18,
    width: 6,
};

const WRONG: Part = Part {
    place: 24,
    width: 5,
};

const NAMES: Part = Part {
    place: 29,
    width: 1,
};

impl Part {
    /// The value that the part holds in 32 bits.
    fn held(self, bits: u32) -> u32
        requires within { self.place + self.width ≤ 32 }
        requires some { 1 ≤ self.width }
        requires narrow { self.width ≤ 7 }
        ensures { result ≡ bits / 2 ^ (32 - (self.place + self.width)) % 2 ^ self.width }
    {
        bits >> (32 - self.place - self.width) & ((1 << self.width) - 1)
    }

    /// A value as bits at its part.
    fn put(self, value: u32) -> u32
        requires within { self.place + self.width ≤ 32 }
        requires some { 1 ≤ self.width }
        requires fits { value < 2 ^ self.width }
        ensures { result ≡ value * 2 ^ (32 - (self.place + self.width)) }
    {
        value << (32 - self.place - self.width)
    }
}

/// Which names the cards of a house go by.
#[derive(Clone, Copy, Debug, PartialEq, Eq)]
pub enum NameKind {
    /// extension numbers of 16 bits
    Extensions = 0,
    /// room labels of 8 bytes
    RoomLabels = 1,
}

/// What a plan record says. Its numbers may be any: reading, writing and `field_and_plan` check them.
#[derive(Clone, Copy, Debug, PartialEq, Eq)]
pub struct PlanRecord {
    /// the field that is meant
    pub field: FieldChoice,
    /// places of a word
    pub n: u32,
    /// coefficients of a word
    pub k: u32,
    /// cards together
    pub d: u32,
    /// wrong slots borne
    pub e: u32,
    /// the kind of names
    pub names: NameKind,
}

impl PlanRecord {
    /// The field and the plan that the record means. The checks, in order: the field (1, with its parameter), then
    /// those of a plan.
    pub fn field_and_plan(&self) -> Result<(AnyField, Plan), Fault>
        ensures { MatchResult result (λ v. Meant self.now v.0 v.1) (λ f. record_refusal self.now ≡ Some f) }
    {
        let field = AnyField::try_from(self.field)?;
        let plan = Plan::new(field.order(), self.n, self.k, self.d, self.e)?;
        Ok((field, plan))
    }

    /// What four bytes say. The checks, in order: the length (5, with it), the zero bits (16, with the place of the
    /// first that is set), the kind and the field (1, with the parameter), then those of a plan.
    pub fn read(bytes: &[u8]) -> Result<PlanRecord, Fault>
        ensures { result ≡ reading bytes.now }
    {
        let [a, b, c, d] = bytes else {
            return Err(Fault::new(Refusal::Length, bytes.len() as u64));
        };
        checked(u32::from_be_bytes([*a, *b, *c, *d]))
    }

    /// Writes the record into four bytes. The checks, in order: the target's length (5, with it), the field (1, with the
    /// parameter), then those of a plan.
    pub fn write(&self, target: &mut [u8]) -> Result<(), Fault>
        ensures answer { result ≡ answer (writing_refusal self.now (length target.old)) tt }
        ensures after { target.new ≡ written self.now target.old }
    {
        refuse_unless(target.len() == 4, Refusal::Length, target.len() as u64)?;
        self.field_and_plan()?;
        target.copy_from_slice(&self.packed().to_be_bytes());
        Ok(())
    }

    /// The 32 bits of a record whose numbers fit their parts.
    fn packed(&self) -> u32
        requires { FitsItsParts self.now }
        ensures { result ≡ record_bits self.now }
    {
        let (kind, parameter) = match self.field {
            FieldChoice::Prime(p) => (0, p),
            FieldChoice::Binary(m) => (1, m),
        };
        KIND.put(kind)
            + PARAMETER.put(parameter)
            + PLACES.put(self.n)
            + COEFFICIENTS.put(self.k)
            + TOGETHER.put(self.d)
            + WRONG.put(self.e)
            + NAMES.put(self.names as u32)
    }
}

// Kinds are numbers only here, since the format is the subject. Neither way is a conversion of its own: `TryFrom` would be a
// second public way to read and say no more, and `From` cannot ask that the numbers fit.

/// The record that 32 bits hold, after its checks.
fn checked(bits: u32) -> Result<PlanRecord, Fault>
    ensures { result ≡ answer (bits_refusal bits) (record_of bits) }
{
    zero_at(bits, 30)?;
    zero_at(bits, 31)?;
    let record = PlanRecord {
        field: field_of(KIND.held(bits), PARAMETER.held(bits))?,
        n: PLACES.held(bits),
        k: COEFFICIENTS.held(bits),
        d: TOGETHER.held(bits),
        e: WRONG.held(bits),
        names: names_of(NAMES.held(bits)),
    };
    record.field_and_plan()?;
    Ok(record)
}

/// Accepts 32 bits that are 0 at a place; others are refused with 16 and the place.
fn zero_at(bits: u32, place: u32) -> Result<(), Fault>
    requires { place < 32 }
    ensures { result ≡ answer (zero_refusal bits place None) tt }
{
    let bit = Part { place, width: 1 };
    refuse_unless(bit.held(bits) == 0, Refusal::Spare, place as u64)
}

/// The field that a kind and a parameter mean. A kind above 1 is refused with 1 and the parameter.
fn field_of(kind: u32, parameter: u32) -> Result<FieldChoice, Fault>
    ensures { result ≡ answer (kind_refusal kind parameter None) (field_of kind parameter) }
{
    match kind {
        0 => Ok(FieldChoice::Prime(parameter)),
        1 => Ok(FieldChoice::Binary(parameter)),
        _ => Err(Fault::new(Refusal::Field, parameter as u64)),
    }
}

/// The kind of names that a bit means.
fn names_of(bit: u32) -> NameKind
    ensures { result ≡ names_of bit }
{
    match bit {
        0 => NameKind::Extensions,
        _ => NameKind::RoomLabels,
    }
}
