//! Registers of extensions that bear the numbers of their cards.
ghost use Rattle.std.specs.Prelude.{◌≡◌, ◌<◌, min, false, map, length};
ghost use Rattle.std.specs.List.{range_with_len};
ghost use Rattle.register.specs.Racks.{numbered};

use crate::register::Register;
use frames::look;
use names::Extension;

impl<'a> Register<'a, Extension> {
    /// A register in entries that the caller lends, of which it uses the first 65,536 at most: each number whose slot stands
    /// in a packed frame is enrolled under the extension number equal to it, as if by `enrol`, and no other is. It has no
    /// frame open, and keeps the mark.
    pub fn numbered(
        entries: &'a mut [Option<Extension>],
        mark: u32,
        frame: &[u8],
    ) -> Register<'a, Extension>
        ensures entries { result.entries.now ≡ map (numbered frame.now) (range_with_len 0 (min (length entries.old) 65536)) }
        ensures mark { result.mark ≡ mark }
        ensures closed { result.opened ≡ false }
    {
        // Not by `new`, which would go over all entries once more.
        let count = entries.len().min(65536);
        let entries = &mut entries[..count];
        for (number, entry) in entries.iter_mut().enumerate() {
            *entry = own_number(frame, number as u32);
        }
        Register {
            entries,
            mark,
            opened: false,
        }
    }
}

/// The extension that bears a number, where its slot stands in a packed frame.
fn own_number(frame: &[u8], number: u32) -> Option<Extension>
    requires { number < 65536 }
    ensures { result ≡ numbered frame.now number }
{
    match look(frame, number) {
        Ok(true) => Some(Extension::new(number as u16)),
        _ => None,
    }
}
