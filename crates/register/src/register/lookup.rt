//! Finding names and numbers.
ghost use Rattle.std.specs.Prelude.{◌≡◌, ◌<◌, length, IfSome};
ghost use Rattle.register.specs.Racks.{holds, number_of, enrolled};
ghost use Rattle.register.specs.Verdicts.{by_names, smallest_foreign};

use crate::register::Register;
use crate::verdict::Verdict;
use names::Name;

impl<'a, N: Name> Register<'a, N> {
    /// The number at which the same name is enrolled.
    pub fn number_of(&self, name: &N) -> Option<u32>
        ensures found { result ≡ number_of N.Name.same name.now self.now.entries.now }
        ensures within { IfSome result (λ number. number < length self.now.entries.now) }
    {
        let number = self.entries.iter().position(|entry| holds(entry, name))?;
        Some(number as u32)
    }

    /// Whether a name is enrolled at a number.
    pub fn is_enrolled(&self, number: u32) -> bool
        ensures { result ≡ enrolled self.now.entries.now number }
    {
        matches!(self.entries.get(number as usize), Some(Some(_)))
    }

    /// The verdict on a reading of some numbers by the names that are enrolled.
    pub(crate) fn by_names(&self, numbers: &[u32]) -> Verdict
        requires { length numbers.now < 65536 }
        ensures { result ≡ by_names (smallest_foreign self.now.entries.now numbers.now) (length numbers.now) }
    {
        let count = numbers.len() as u32;
        match numbers.iter().find(|number| !self.is_enrolled(**number)) {
            Some(number) => Verdict::Foreign {
                smallest: *number,
                count,
            },
            None => Verdict::Named(count),
        }
    }
}

/// Whether an entry holds the same name.
fn holds<N: Name>(entry: &Option<N>, name: &N) -> bool
    ensures { result ≡ holds N.Name.same name.now entry.now }
{
    entry.as_ref().is_some_and(|held| held.is_same(name))
}
