//! A standing slot, taken apart.

/// A standing slot, taken apart into place and symbol.
#[derive(Clone, Copy, Default)]
pub(crate) struct Spot {
    pub(crate) place: u8,
    pub(crate) symbol: u8,
}
