//! Making a register, enrolling and striking.
ghost use Rattle.std.specs.Prelude.{◌≡◌, ◌<◌, min, Bool, false, List, [], length, replicate, None, slice_set};
ghost use Rattle.faults.specs.Faults.{answer};
ghost use Rattle.register.specs.Calls.{to_enrol, refusal, left_by, strike_refusal, struck, unless};
ghost use Rattle.register.specs.Entries.{NamesDiffer};
ghost use Rattle.register.specs.Racks.{rack_of};

use crate::register::Register;
use faults::{Fault, Refusal, refuse_unless};
use fields::Field;
use names::Name;
use words::{Plan, same_order};

impl<'a, N: Name + Drop> Register<'a, N> {
    /// A new register in entries that the caller lends, of which it uses the first 65,536 at most. It holds no name, has no
    /// frame open, and keeps the mark.
    pub fn new(entries: &'a mut [Option<N>], mark: u32) -> Register<'a, N>
        ensures entries { result.entries.now ≡ replicate (min (length entries.old) 65536) None }
        ensures mark { result.mark ≡ mark }
        ensures closed { result.opened ≡ false }
    {
        let count = entries.len().min(65536);
        let entries = &mut entries[..count];
        entries.fill_with(|| None);
        Register {
            entries,
            mark,
            opened: false,
        }
    }

    /// Enrols a name at a number. The checks, in order: a field of another order (1, with that order), an open frame (13,
    /// with the mark), a number without a word or an entry (9, with the number), a number that is taken (10, with the
    /// number), a name that is enrolled already (11, with its number).
    pub fn enrol<F: Field>(
        &mut self,
        field: &F,
        plan: &Plan,
        name: N,
        number: u32,
    ) -> Result<(), Fault>
        ensures answer { result ≡ answer (refusal N.Name.same (F.Field.tables field.now) plan.now (rack_of self.old []) (to_enrol name number)) tt }
        ensures after { (row : List Bool) → rack_of self.new row ≡ left_by N.Name.same (F.Field.tables field.now) plan.now (rack_of self.old row) (to_enrol name number) }
    {
        same_order(field, plan)?;
        self.none_open()?;
        let entries = self.entries.len();
        refuse_unless(
            number < plan.cards() && (number as usize) < entries,
            Refusal::Card,
            number as u64,
        )?;
        refuse_unless(!self.is_enrolled(number), Refusal::Taken, number as u64)?;
        if let Some(taken) = self.number_of(&name) {
            return Err(Fault::new(Refusal::Enrolled, taken as u64));
        }
        self.put(number, Some(name));
        Ok(())
    }

    /// Strikes a name: it is enrolled no more. The checks, in order: an open frame (13, with the mark), a name that is not
    /// enrolled (12, with 0).
    pub fn strike(&mut self, name: &N) -> Result<(), Fault>
        ensures answer { result ≡ answer (strike_refusal N.Name.same (rack_of self.old []) name.now) tt }
        ensures after { (row : List Bool) → rack_of self.new row ≡ unless (strike_refusal N.Name.same (rack_of self.old row) name.now) (struck N.Name.same (rack_of self.old row) name.now) (rack_of self.old row) }
    {
        self.none_open()?;
        // By a rule of the project `strike` and `tick` take the option of the lookup apart, each for itself.
        let Some(number) = self.number_of(name) else {
            return Err(Fault::new(Refusal::Unknown, 0));
        };
        self.put(number, None);
        Ok(())
    }

    /// Puts an entry at a number.
    fn put(&mut self, number: u32, entry: Option<N>)
        requires within { number < length self.old.entries.now }
        requires apart { NamesDiffer N.Name.same (slice_set self.old.entries.now number entry) }
        ensures entries { self.new.entries.now ≡ slice_set self.old.entries.now number entry }
        ensures mark { self.new.mark ≡ self.old.mark }
        ensures opened { self.new.opened ≡ self.old.opened }
    {
        self.entries[number as usize] = entry;
    }
}
