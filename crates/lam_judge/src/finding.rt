// What is found at some places, one after the other.

ghost use Rattle.std.specs.Prelude.{◌≡◌};
ghost use Rattle.lam_judge.specs.inside.Findings as by;

use lam_number::Verdict;

/// What is found at some places, one after the other: the first that fails, else the first that straddles.
#[derive(Clone, Copy)]
pub(crate) enum Finding<T> {
    /// All meet what is asked of them.
    Clear,
    Fails(T),
    Straddles(T),
}

impl<T: Copy> Finding<T> {
    /// What is found at one place.
    pub(crate) fn of(verdict: Verdict, at: T) -> Finding<T>
        ensures { result ≡ by.found verdict at }
    {
        match verdict {
            Verdict::Meets => Finding::Clear,
            Verdict::Fails => Finding::Fails(at),
            Verdict::Straddles => Finding::Straddles(at),
        }
    }

    /// Tells whether nothing that is found at later places matters.
    pub(crate) fn is_settled(&self) -> bool
        ensures { result ≡ by.is_settled self.now }
    {
        matches!(self, Finding::Fails(_))
    }

    /// Tells whether all meet what is asked of them.
    pub(crate) fn is_clear(&self) -> bool
        ensures { result ≡ by.is_clear self.now }
    {
        matches!(self, Finding::Clear)
    }

    /// With what is found at later places.
    pub(crate) fn then(self, later: Finding<T>) -> Finding<T>
        ensures { result ≡ by.and_then self later }
    {
        match (self, later) {
            (Finding::Clear, later) => later,
            (Finding::Straddles(_), Finding::Fails(at)) => Finding::Fails(at),
            (first, _) => first,
        }
    }
}
