//! The statement of units.
use crate::exchange::Read;
use register::Verdict;
use std::{fmt, io};

/// A frame that names nobody, and what it said.
#[derive(Clone, Copy)]
struct Unbilled {
    frame: u32,
    verdict: Verdict,
}

impl fmt::Display for Unbilled {
    fn fmt<W: fmt::Write>(&self, f: &mut fmt::Formatter<W>) -> fmt::Result {
        let frame = self.frame;
        let why = match self.verdict {
            Verdict::Named(_) => "nobody spoke",
            Verdict::Foreign { .. } => "a card that is not enrolled",
            Verdict::Overload(_) => "too many cards at once",
            Verdict::Noise(_) => "no cards explain the line",
        };
        write!(f, "frame {frame}: {why}")
    }
}

/// The units of each extension, and the frames that name nobody.
#[derive(Drop)]
pub(crate) struct Statement {
    units: [u32; 81],
    frames: u32,
    // An array and no `Vec`: a night takes no memory from the heap, so none can be refused to it.
    unbilled: [Option<Unbilled>; 16],
}

impl Statement {
    /// A statement without any unit.
    pub(crate) fn new() -> Statement {
        Statement {
            units: [0; 81],
            frames: 0,
            unbilled: [None; 16],
        }
    }

    /// Counts a frame, and answers its number.
    pub(crate) fn next_frame(&mut self) -> u32 {
        self.frames = self.frames.saturating_add(1);
        self.frames
    }

    /// Bills a unit to each card that the frame at hand names, or notes that it is billed to nobody.
    pub(crate) fn enter(&mut self, read: &Read) {
        if read.named.is_empty() {
            self.note(read.verdict);
        }
        for number in &read.named {
            if let Some(units) = self.units.get_mut(*number as usize) {
                *units = units.saturating_add(1);
            }
        }
    }

    /// Notes that the frame at hand is billed to nobody, where there is room.
    fn note(&mut self, verdict: Verdict) {
        let frame = self.frames;
        for noted in self.unbilled.iter_mut() {
            if noted.is_none() {
                *noted = Some(Unbilled { frame, verdict });
                return;
            }
        }
    }

    /// Prints the units by extension, and the frames that are billed to nobody.
    pub(crate) fn print(&self, rt: &impl Print) -> io::Result<()> {
        println!(rt; "\nStatement of units")?;
        for (number, units) in self.units.iter().enumerate() {
            if *units > 0 {
                println!(rt; "  extension {number}: {units}")?;
            }
        }
        println!(rt; "Billed to nobody")?;
        for unbilled in self.unbilled.iter().flatten() {
            println!(rt; "  {unbilled}")?;
        }
        Ok(())
    }
}
