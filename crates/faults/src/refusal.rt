//! The sixteen refusals, each with its number and its meaning in words.
ghost use Rattle.std.specs.Prelude.{◌≡◌, Some};
ghost use Rattle.faults.specs.Refusals.{number, meaning};

use std::fmt;

/// Why a call refused. Each refusal has a number, which is its discriminant.
#[derive(Clone, Copy, PartialEq, Eq, Debug)]
pub enum Refusal {
    /// no such field, or not of the plan's order
    Field = 1,
    /// n, k or d outside its range
    Range = 2,
    /// more than 65,536 words
    Words = 3,
    /// d(k-1)+2e is not below n
    Distance = 4,
    /// bytes of the wrong length
    Length = 5,
    /// no element of the field, or the inverse of 0
    Element = 6,
    /// no such slot
    Slot = 7,
    /// the line has not n × q slots
    Line = 8,
    /// the number has no word or no entry
    Card = 9,
    /// the number is taken
    Taken = 10,
    /// the name is enrolled already
    Enrolled = 11,
    /// the name is not enrolled
    Unknown = 12,
    /// a frame is open
    Open = 13,
    /// the frame's mark is not the register's, or no frame is open
    Mark = 14,
    /// the list or the text is too short
    Room = 15,
    /// a zero bit is set
    Spare = 16,
}

impl Refusal {
    /// The refusal's number, from 1 to 16.
    pub fn number(self) -> u8
        ensures { result ≡ number self }
    {
        self as u8
    }

    /// What the refusal means, in words.
    pub fn meaning(self) -> &'static str
        ensures { result.now ≡ meaning self }
    {
        match self {
            Refusal::Field => "no such field, or not of the plan's order",
            Refusal::Range => "n, k or d outside its range",
            Refusal::Words => "more than 65536 words",
            Refusal::Distance => "d(k-1)+2e is not below n",
            Refusal::Length => "bytes of the wrong length",
            Refusal::Element => "no element of the field, or the inverse of 0",
            Refusal::Slot => "no such slot",
            Refusal::Line => "the line has not n x q slots",
            Refusal::Card => "the number has no word or no entry",
            Refusal::Taken => "the number is taken",
            Refusal::Enrolled => "the name is enrolled already",
            Refusal::Unknown => "the name is not enrolled",
            Refusal::Open => "a frame is open",
            Refusal::Mark => "the frame's mark is not the register's, or no frame is open",
            Refusal::Room => "the list or the text is too short",
            Refusal::Spare => "a zero bit is set",
        }
    }
}

impl fmt::Display for Refusal {
    ghost output = { λ x. Some (meaning x) };

    fn fmt<W: fmt::Write>(&self, f: &mut fmt::Formatter<W>) -> fmt::Result {
        f.write_str(self.meaning())
    }
}
