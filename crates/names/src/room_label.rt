//! Names that are labels of rooms.
ghost use Rattle.std.specs.Prelude.{◌≡◌};
ghost use Rattle.names.specs.Names.{same_label};
ghost use Rattle.names.specs.Labels.{labels_alike};

use crate::name::Name;

/// The label of a room, of eight bytes.
#[derive(Clone, Copy, Debug, PartialEq, Eq)]
pub struct RoomLabel {
    bytes: [u8; 8],
}

impl RoomLabel {
    /// The label of eight bytes.
    pub fn new(bytes: [u8; 8]) -> RoomLabel
        ensures { result.bytes ≡ bytes }
    {
        RoomLabel { bytes }
    }

    /// Its bytes.
    pub fn bytes(&self) -> [u8; 8]
        ensures { result ≡ self.now.bytes }
    {
        self.bytes
    }
}

/// Two labels are the same where their bytes are, but for the case of letters: A to Z count the same as a to z.
impl Name for RoomLabel {
    ghost same = { λ a b. same_label a.bytes b.bytes };

    ghost alike = { labels_alike (λ label. label.bytes) };

    fn is_same(&self, other: &RoomLabel) -> bool {
        self.bytes.eq_ignore_ascii_case(&other.bytes)
    }
}
