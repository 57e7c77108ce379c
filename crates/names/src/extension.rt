//! Names that are numbers of extensions.
ghost use Rattle.std.specs.Prelude.{◌≡◌, ◌==◌};
ghost use Rattle.names.specs.Extensions.{numbers_alike};

use crate::name::Name;

/// The number of an extension.
#[derive(Clone, Copy, Debug, PartialEq, Eq)]
pub struct Extension {
    number: u16,
}

impl Extension {
    /// The extension of a number.
    pub fn new(number: u16) -> Extension
        ensures { result.number ≡ number }
    {
        Extension { number }
    }

    /// Its number.
    pub fn number(&self) -> u16
        ensures { result ≡ self.now.number }
    {
        self.number
    }
}

/// Two extensions are the same where their numbers are equal.
impl Name for Extension {
    ghost same = { λ a b. (a.number == b.number) };

    ghost alike = { numbers_alike (λ extension. extension.number) };

    fn is_same(&self, other: &Extension) -> bool {
        self == other
    }
}
