//! The sheet of one card: its symbols, its slots and its word as a packed frame.
ghost use Rattle.std.specs.Prelude.{◌≡◌, map, IfOk, vec_items};
ghost use Rattle.std.specs.List.{range_with_len};
ghost use Rattle.cardsheet.specs.Sheets.{RightSheet, place_of, word_alone};

use faults::Fault;
use fields::Field;
use frames::bytes_for;
use std::alloc::{AllocError, Global};
use std::fmt;
use thiserror::Error;
use words::{Code, Plan, write_word};

/// One place of a card's word.
#[derive(Clone, Copy)]
pub struct Place {
    symbol: u32,
    slot: u32,
}

/// What an installer has to know of a card.
#[derive(Drop)]
pub struct Sheet {
    number: u32,
    places: Vec<Place>,
    frame: Vec<u8>,
}

/// Why there is no sheet.
#[derive(Debug, Drop, Error)]
pub enum Failure {
    /// the card is refused
    #[error(transparent)]
    Refused(#[from] Fault),
    /// there is no memory
    #[error("no memory for a sheet")]
    Memory(#[from(alloc)] AllocError),
}

/// The sheet of a card under a plan.
pub fn sheet_of<F: Field>(
    alloc: Global,
    field: &F,
    plan: &Plan,
    number: u32,
) -> Result<Sheet, Failure>
    ensures { IfOk result (RightSheet (F.Field.tables field.now) plan.now number) }
{
    let code = Code::new(field, plan)?;
    Ok(Sheet {
        number,
        places: places_of(alloc, &code, number)?,
        frame: frame_of(alloc, &code, number)?,
    })
}

/// The places of a card's word, the first one first.
fn places_of<F: Field>(
    alloc: Global,
    code: &Code<'_, F>,
    number: u32,
) -> Result<Vec<Place>, Failure>
    ensures { IfOk result (λ places. vec_items places ≡ map (place_of (F.Field.tables code.now.field.now) code.now.plan.now.k number) (range_with_len 0 code.now.plan.now.n)) }
{
    let mut places = Vec::new(alloc);
    for place in 0..code.plan.n() {
        places.push(place_of(code, number, place)?)?;
    }
    Ok(places)
}

/// A card's word as a packed frame whose spare bits are clear.
fn frame_of<F: Field>(alloc: Global, code: &Code<'_, F>, number: u32) -> Result<Vec<u8>, Failure>
    ensures { IfOk result (λ frame. vec_items frame ≡ word_alone (F.Field.tables code.now.field.now) code.now.plan.now number) }
{
    let mut frame = vec![in alloc; 0u8; bytes_for(code.plan.slots()) as usize]?;
    write_word(code.field, code.plan, number, frame.as_mut_slice())?;
    Ok(frame)
}

/// A place of a card's word.
fn place_of<F: Field>(code: &Code<'_, F>, number: u32, place: u32) -> Result<Place, Failure>
    ensures { IfOk result (λ found. found ≡ place_of (F.Field.tables code.now.field.now) code.now.plan.now.k number place) }
{
    Ok(Place {
        symbol: code.symbol(number, place)?,
        slot: code.slot(number, place)?,
    })
}

impl fmt::Display for Sheet {
    fn fmt<W: fmt::Write>(&self, f: &mut fmt::Formatter<W>) -> fmt::Result {
        let number = self.number;
        write!(f, "Card {number}\n  symbols:")?;
        for Place { symbol, .. } in self.places.iter() {
            write!(f, " {symbol}")?;
        }
        write!(f, "\n  slots:")?;
        for Place { slot, .. } in self.places.iter() {
            write!(f, " {slot}")?;
        }
        write!(f, "\n  frame:")?;
        for byte in self.frame.iter() {
            write!(f, " {byte:02X}")?;
        }
        Ok(())
    }
}
