//! Calls on whole lines.
ghost use Rattle.std.specs.Prelude.{◌≡◌, false, length, replicate, Ok};

use crate::line::Line;
use faults::Fault;

/// Drops every slot of a line. It never refuses.
pub fn drop_all<L: Line>(line: &mut L) -> Result<(), Fault>
    ensures answer { result ≡ Ok tt }
    ensures after { L.Line.row line.new ≡ replicate (length (L.Line.row line.old)) false }
    ensures rest { L.Line.kept line.old line.new }
{
    for slot in 0..(*line).slots() {
        line.drop(slot)?;
    }
    Ok(())
}
