//! What is proved of registers, besides what each call's contract says.
//!
//! These functions do nothing. Each one's contract is a theorem, so that the crate is proved only with the theorem.
ghost use Rattle.register.specs.Examples.{WorkedReadings};
ghost use Rattle.register.specs.Promises.{CallsKeepNamesApart};

use names::Name;

/// No call of the eight makes two enrolled names the same, for every kind of name.
pub fn calls_keep_names_apart<N: Name>()
    ensures { CallsKeepNamesApart N.Name.same }
{}

/// The worked examples follow from the definitions, those of words and records and those of readings together.
pub fn worked_readings_hold()
    ensures { WorkedReadings }
{}
