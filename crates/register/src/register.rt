//! The register: which name is enrolled at which number.
ghost use Rattle.std.specs.Prelude.{◌≡◌, ◌≤◌, true, length, nat_le};
ghost use Rattle.register.specs.Entries.{NamesDiffer};

use names::Name;

/// The names that are enrolled, in entries that the caller lends: entry N belongs to card N. It keeps a mark, and whether
/// a frame is open. No two enrolled names are the same.
#[derive(Drop)]
pub struct Register<'a, N: Name> {
    entries: &'a mut [Option<N>],
    mark: u32,
    // No option of the mark: a register keeps its mark while no frame is open.
    opened: bool,
    ghost small: { nat_le (length entries.now) 65536 ≡ true },
    ghost apart: { NamesDiffer N.Name.same entries.now },
}

mod frame_calls;
mod judging;
mod lookup;
mod numbered;
mod roll;
mod telling;
