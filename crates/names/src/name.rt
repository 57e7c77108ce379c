//! What a kind of name is.
ghost use Rattle.std.specs.Prelude.{◌≡◌, Bool};
ghost use Rattle.names.specs.Names.{Alike};

/// A kind of name: it tells whether two names are the same, alike at every call.
///
/// What it tells is its `same`, which is reflexive, symmetric and transitive.
pub trait Name {
    ghost same: { Self → Self → Bool };

    /// Whether another name is the same.
    fn is_same(&self, other: &Self) -> bool
        ensures { result ≡ same self.now other.now };

    ghost alike: { Alike same };
}
