//! Prints the sheet that an installer takes to an exchange.
//!
//! Standard input is text: on the first line a plan record as 8 hexadecimal digits, on each further line a card number.
//! The program says what the record means, prints a sheet for each card, and says which lines it refused and why.
#![tactic(auto)]

mod sheet;

use faults::Fault;
use fields::{AnyField, FieldChoice};
use frames::bytes_for;
use hex::FromHexError;
use sheet::{Failure, Sheet, sheet_of};
use std::alloc::{AllocError, Global};
use std::fmt;
use std::io::{BufRead, BufReader};
use thiserror::Error;
use words::{NameKind, Plan, PlanRecord};

/// What an accepted plan record says of a house, with its field and its plan.
#[derive(Clone, Copy)]
struct House {
    record: PlanRecord,
    field: AnyField,
    plan: Plan,
}

impl House {
    /// The house whose record the bytes hold.
    fn read(bytes: &[u8]) -> Result<House, Fault> {
        let record = PlanRecord::read(bytes)?;
        let (field, plan) = record.field_and_plan()?;
        Ok(House {
            record,
            field,
            plan,
        })
    }

    /// The sheet of the card that a line names.
    fn sheet(&self, alloc: Global, text: &str) -> Result<Sheet, NoSheet> {
        let Ok(number) = text.parse() else {
            return Err(NoSheet::NoNumber);
        };
        Ok(sheet_of(alloc, &self.field, &self.plan, number)?)
    }

    /// Prints the sheet of the card that a line names, or why the line is refused, and counts it.
    fn print_card(
        &self,
        rt: &(impl Print + AllocGlobal),
        text: &str,
        tally: &mut Tally,
    ) -> anyhow::Result<()> {
        println!(rt; "")?;
        let count = match self.sheet(rt.alloc(), text) {
            Ok(sheet) => {
                println!(rt; "{sheet}")?;
                &mut tally.printed
            }
            Err(NoSheet::Failure(memory @ Failure::Memory(_))) => return Err(memory.into()),
            Err(refusal) => {
                println!(rt; "\"{text}\" refused: {refusal}")?;
                &mut tally.refused
            }
        };
        *count = count.saturating_add(1);
        Ok(())
    }
}

impl fmt::Display for House {
    fn fmt<W: fmt::Write>(&self, f: &mut fmt::Formatter<W>) -> fmt::Result {
        let kind = match self.record.field {
            FieldChoice::Prime(_) => "prime",
            FieldChoice::Binary(_) => "binary",
        };
        let names = match self.record.names {
            NameKind::Extensions => "extension numbers",
            NameKind::RoomLabels => "room labels",
        };
        let plan = &self.plan;
        let slots = plan.slots();
        writeln!(f, "  field: {kind}, of order {}", plan.q())?;
        writeln!(f, "  places of a word: {}", plan.n())?;
        writeln!(f, "  coefficients of a word: {}", plan.k())?;
        writeln!(f, "  cards together: {}", plan.d())?;
        writeln!(f, "  wrong slots borne: {}", plan.e())?;
        writeln!(f, "  names: {names}")?;
        writeln!(f, "  cards that there can be: {}", plan.cards())?;
        write!(f, "  frame: {slots} slots in {} bytes", bytes_for(slots))
    }
}

/// Why a line has no sheet.
#[derive(Debug, Drop, Error)]
enum NoSheet {
    /// it holds no number of a card
    #[error("it is no number of 32 bits")]
    NoNumber,
    /// the card has no sheet
    #[error(transparent)]
    Failure(#[from] Failure),
}

/// How many sheets were printed and how many lines were refused.
#[derive(Clone, Copy, Default)]
struct Tally {
    printed: u64,
    refused: u64,
}

impl fmt::Display for Tally {
    fn fmt<W: fmt::Write>(&self, f: &mut fmt::Formatter<W>) -> fmt::Result {
        let Tally { printed, refused } = self;
        write!(f, "Sheets printed: {printed}. Lines refused: {refused}.")
    }
}

fn main(rt: HostRuntime) -> anyhow::Result<()> {
    run(&rt)
}

/// Reads the record on the first line, and then a card on each further line.
fn run(rt: &HostRuntime) -> anyhow::Result<()> {
    let alloc = rt.alloc();
    let mut lines = BufReader::new(alloc, rt.stdin())?.lines(alloc);
    // The first line is let go here, however long it is.
    let house = match lines.next() {
        Some(line) => open_house(rt, line?.as_str().trim())?,
        None => open_house(rt, "")?,
    };
    let Some(house) = house else {
        return Ok(());
    };
    let mut tally = Tally::default();
    for line in lines {
        let line = line?;
        house.print_card(rt, line.as_str().trim(), &mut tally)?;
    }
    println!(rt; "\n{tally}")?;
    Ok(())
}

/// Reads the record and prints what it says, or why it is refused.
fn open_house(rt: &(impl Print + AllocGlobal), text: &str) -> anyhow::Result<Option<House>> {
    let Some(bytes) = spelled(rt.alloc(), text)? else {
        println!(rt;
            "Plan record \"{text}\" refused: it is not made of pairs of hexadecimal digits"
        )?;
        return Ok(None);
    };
    match House::read(bytes.as_slice()) {
        Ok(house) => {
            println!(rt; "Plan record {text}\n{house}")?;
            Ok(Some(house))
        }
        Err(fault) => {
            println!(rt; "Plan record \"{text}\" refused: {fault}")?;
            Ok(None)
        }
    }
}

/// The bytes that a text spells, two digits each; none where it is not made of such pairs.
fn spelled(alloc: Global, text: &str) -> Result<Option<Vec<u8>>, AllocError> {
    // Looked at first, since decoding asks for the memory of all bytes before it looks at a digit.
    if !text.bytes().all(|digit| digit.is_ascii_hexdigit()) {
        return Ok(None);
    }
    match hex::decode(alloc, text) {
        Ok(bytes) => Ok(Some(bytes)),
        Err(FromHexError::OutOfMemory) => Err(AllocError),
        Err(_) => Ok(None),
    }
}
