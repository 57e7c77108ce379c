//! The exchange of the house and its frames.
ghost use Rattle.std.specs.Prelude.{◌≡◌};

use arrayvec::ArrayVec;
use faults::Fault;
use fields::Prime;
use lines::Packed;
use names::Extension;
use register::{Frame, Refused, Register, Verdict};
use std::{array, fmt};
use words::{Plan, slot};

/// What is done in a frame: the extensions that are ticked, and the slots that are knocked.
#[derive(Clone, Copy)]
pub(crate) struct Deeds<'a> {
    ticked: &'a [u16],
    knocked: &'a [u32],
}

impl<'a> Deeds<'a> {
    /// Some extensions that are ticked, and some slots that are knocked.
    pub(crate) fn new(ticked: &'a [u16], knocked: &'a [u32]) -> Deeds<'a> {
        Deeds { ticked, knocked }
    }
}

impl<'a> fmt::Display for Deeds<'a> {
    fn fmt<W: fmt::Write>(&self, f: &mut fmt::Formatter<W>) -> fmt::Result {
        write!(f, "Ticked:")?;
        for extension in self.ticked {
            write!(f, " {extension}")?;
        }
        write!(f, ". Slots knocked: {}.", self.knocked.len())
    }
}

/// What a frame said, and the numbers of the cards that it named.
#[derive(Drop)]
pub(crate) struct Read {
    pub(crate) verdict: Verdict,
    pub(crate) named: ArrayVec<u32, 3>,
}

/// The exchange of the house: its field and plan, the register of its cards, and its line.
#[derive(Drop)]
pub(crate) struct Exchange<'a> {
    field: Prime,
    plan: Plan,
    register: Register<'a, Extension>,
    line: Packed<'a>,
}

impl<'a> Exchange<'a> {
    /// The exchange with a field, a plan, a register and a line.
    pub(crate) fn new(
        field: Prime,
        plan: Plan,
        register: Register<'a, Extension>,
        line: Packed<'a>,
    ) -> Exchange<'a> {
        Exchange {
            field,
            plan,
            register,
            line,
        }
    }

    /// Enrols extensions 0 to 80 at the numbers of their cards.
    pub(crate) fn enrol_house(&mut self) -> Result<(), Fault> {
        for number in 0..81u16 {
            let name = Extension::new(number);
            self.register
                .enrol(&self.field, &self.plan, name, u32::from(number))?;
        }
        Ok(())
    }

    /// Strikes an extension.
    pub(crate) fn strike(&mut self, extension: u16) -> Result<(), Fault> {
        self.register.strike(&Extension::new(extension))
    }

    /// The slots of a card's word.
    pub(crate) fn slots_of_card(&self, number: u32) -> Result<[u32; 11], Fault> {
        array::try_from_fn(|place| slot(&self.field, &self.plan, number, place as u32))
    }

    /// Holds a frame from opening to closing: what was read in it.
    pub(crate) fn hold_frame(&mut self, deeds: Deeds<'_>) -> Result<Read, Fault> {
        let frame = self.register.open(&self.field, &self.plan, &mut self.line)?;
        let read = self.speak(&frame, deeds);
        match self.register.close(frame) {
            Ok(()) => read,
            Err(refused) => unreachable(),
        }
    }

    /// Ticks and knocks in an open frame, and reads it.
    fn speak(&mut self, frame: &Frame, deeds: Deeds<'_>) -> Result<Read, Fault>
        ensures { self.new.register ≡ self.old.register }
    {
        for extension in deeds.ticked {
            let name = Extension::new(*extension);
            self.register
                .tick(&self.field, &self.plan, &mut self.line, frame, &name)?;
        }
        for slot in deeds.knocked {
            self.register.knock(&mut self.line, frame, *slot)?;
        }
        let mut named = ArrayVec::from([0; 3]);
        let list = named.as_mut_slice();
        let verdict = self
            .register
            .read(&self.field, &self.plan, &self.line, frame, list)?;
        named.truncate(count_of_named(verdict));
        Ok(Read { verdict, named })
    }

    /// Has another register try to close a frame of this one: the fault with which it is refused. The frame is handed back,
    /// and its own register closes it.
    pub(crate) fn refused_close(
        &mut self,
        annex: &mut Register<'_, Extension>,
    ) -> Result<Option<Fault>, Fault> {
        let frame = self.register.open(&self.field, &self.plan, &mut self.line)?;
        match annex.close(frame) {
            Ok(()) => Ok(None),
            Err(Refused { fault, frame }) => match self.register.close(frame) {
                Ok(()) => Ok(Some(fault)),
                Err(again) => unreachable(),
            },
        }
    }
}

/// How many cards a verdict names.
fn count_of_named(verdict: Verdict) -> usize {
    match verdict {
        Verdict::Named(count) => count as usize,
        Verdict::Foreign { .. } | Verdict::Overload(_) | Verdict::Noise(_) => 0,
    }
}
