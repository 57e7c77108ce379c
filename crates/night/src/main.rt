//! One night at a hotel's exchange, from the evening to the statement in the morning.
//!
//! Extensions 0 to 80 are enrolled, the lodge at 0. Cards speak in frames, slots are knocked within and beyond what is
//! borne, a frame is crowded, a card is struck and speaks all the same, and a close is refused. The program says what was
//! done and what was read, and prints the statement of units: a frame that names nobody is billed to nobody.
#![tactic(auto)]

mod ending;
mod exchange;
mod statement;

use ending::Ending;
use exchange::{Deeds, Exchange, Read};
use fields::Prime;
use lines::Packed;
use register::{Register, Verdict};
use statement::Statement;
use std::io;
use words::Plan;

fn main(rt: HostRuntime) -> anyhow::Result<()> {
    run(&rt)
}

/// Runs the night, and says so where something of it is refused that should not be.
fn run(rt: &impl Print) -> anyhow::Result<()> {
    match play(rt) {
        Err(Ending::Refused(fault)) => println!(rt; "The night ends early: {fault}")?,
        other => other?,
    }
    Ok(())
}

/// Plays the night from the evening to the morning.
fn play(rt: &impl Print) -> Result<(), Ending> {
    let mut entries = [None; 81];
    let mut annex_entries = [None; 1];
    let mut bytes = [0; 16];
    let field = Prime::new(11)?;
    let plan = Plan::new(11, 11, 2, 3, 3)?;
    let register = Register::new(&mut entries, 1968);
    let mut annex = Register::new(&mut annex_entries, 1969);
    let mut night = Night {
        exchange: Exchange::new(field, plan, register, Packed::new(&mut bytes, 121)),
        statement: Statement::new(),
    };
    println!(rt;
        "Exchange: prime field of order 11, words of 11 places, 3 cards together, 3 wrong slots borne."
    )?;
    night.exchange.enrol_house()?;
    println!(rt; "Enrolled: extensions 0 to 80. Extension 0 is the lodge.")?;
    night.evening(rt)?;
    night.strangers(rt)?;
    match night.exchange.refused_close(&mut annex)? {
        Some(fault) => println!(rt;
            "The annex tries to close a frame of the house: {fault}. The frame is handed back, and the house closes it."
        )?,
        None => println!(rt; "The annex closed a frame of the house.")?,
    }
    night.statement.print(rt)?;
    Ok(())
}

/// The exchange through the night, and the statement of its units.
#[derive(Drop)]
struct Night<'a> {
    exchange: Exchange<'a>,
    statement: Statement,
}

impl<'a> Night<'a> {
    /// Frames in which enrolled cards speak: within what is borne, beyond it, and too many at once.
    fn evening(&mut self, rt: &impl Print) -> Result<(), Ending> {
        self.frame(rt, Deeds::new(&[], &[]))?;
        self.frame(rt, Deeds::new(&[12, 40], &[]))?;
        self.frame(rt, Deeds::new(&[7, 80, 12], &[3, 50, 99]))?;
        self.frame(rt, Deeds::new(&[0], &[]))?;
        self.frame(rt, Deeds::new(&[], &[5, 20, 60, 100]))?;
        self.frame(rt, Deeds::new(&[1, 2, 3, 4, 5], &[]))
    }

    /// A card that is struck and speaks all the same: its slots are knocked, since nobody can tick it.
    fn strangers(&mut self, rt: &impl Print) -> Result<(), Ending> {
        self.exchange.strike(33)?;
        println!(rt; "Struck: extension 33. Its card is still plugged in.")?;
        let slots = self.exchange.slots_of_card(33)?;
        self.frame(rt, Deeds::new(&[33], &[]))?;
        self.frame(rt, Deeds::new(&[40], &slots))
    }

    /// Holds a frame, says what was done and read, and bills it.
    fn frame(&mut self, rt: &impl Print, deeds: Deeds<'_>) -> Result<(), Ending> {
        let number = self.statement.next_frame();
        println!(rt; "Frame {number}. {deeds}")?;
        match self.exchange.hold_frame(deeds) {
            Ok(read) => {
                tell(rt, &read)?;
                self.statement.enter(&read);
            }
            Err(fault) => println!(rt; "  Refused: {fault}.")?,
        }
        Ok(())
    }
}

/// Says what was read in a frame, and who is billed.
fn tell(rt: &impl Print, read: &Read) -> io::Result<()> {
    match read.verdict {
        Verdict::Named(0) => println!(rt; "  Named, 0 cards. Nobody is billed."),
        Verdict::Named(count) => {
            print!(rt; "  Named, cards: {count}. A unit is billed to")?;
            for number in &read.named {
                print!(rt; " {number}")?;
            }
            println!(rt; ".")
        }
        Verdict::Foreign { smallest, count } => println!(rt;
            "  Foreign, cards: {count}. Number {smallest} is not enrolled. Nobody is billed."
        ),
        Verdict::Overload(count) => {
            println!(rt; "  Overload, covered words: {count}. Nobody is billed.")
        }
        Verdict::Noise(distance) => println!(rt;
            "  Noise, distance: {distance}. No cards explain the line. Nobody is billed."
        ),
    }
}
