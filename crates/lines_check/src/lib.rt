//! What a caller of lines knows of its own memory, proved, and tests of every kind of line at its edges.
#![tactic(auto)]

ghost use Rattle.std.specs.Prelude.{◌≡◌, true, false};
ghost use Rattle.lines.specs.Level.{level_after};
ghost use Rattle.lines.specs.Packed.{packed_after};

use lines::{Level, Line, Packed};

/// The caller's bytes after a slot was driven and another dropped through a packed line of 12 slots, which is gone.
pub fn packed_bytes(mut bytes: [u8; 2], driven: u32, dropped: u32) -> [u8; 2]
    ensures { result ≡ packed_after (packed_after bytes 12 driven true) 12 dropped false }
{
    let mut line = Packed::new(&mut bytes, 12);
    let _ = line.drive(driven);
    let _ = line.drop(dropped);
    bytes
}

/// The caller's levels after a slot was driven and another dropped through a level line, which is gone.
// Beside `packed_bytes`: one function for both would be handed how the line is made over the memory, and is no plainer.
pub fn line_levels(mut levels: [u16; 3], driven: u32, dropped: u32) -> [u16; 3]
    ensures { result ≡ level_after (level_after levels driven true) dropped false }
{
    let mut line = Level::new(&mut levels);
    let _ = line.drive(driven);
    let _ = line.drop(dropped);
    levels
}

#[cfg(test)]
mod tests;
