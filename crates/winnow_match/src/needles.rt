//! The types of a search: one to three `Needles` as data, and a needle cut by the end (`Stretch`).

ghost use Rattle.std.specs.Prelude.{◌≡◌};
ghost use Rattle.winnow_match.specs.Search.{bytes_of_needles};
ghost use Rattle.winnow_match.specs.Stretch.{longest};

/// One to three needles as data. At one place, an earlier needle is preferred to a later one.
#[derive(Clone, Copy, Debug, Drop)]
pub enum Needles<L> {
    /// One needle
    One(L),
    /// Two needles
    Two(L, L),
    /// Three needles
    Three(L, L, L),
}

impl<'n> Needles<&'n str> {
    /// Returns the needles as their bytes.
    pub fn as_bytes(&self) -> Needles<&'n [u8]>
        ensures { bytes_of_needles result ≡ bytes_of_needles self.now }
    {
        match self {
            Needles::One(a) => Needles::One(a.as_bytes()),
            Needles::Two(a, b) => Needles::Two(a.as_bytes(), b.as_bytes()),
            Needles::Three(a, b, c) => Needles::Three(a.as_bytes(), b.as_bytes(), c.as_bytes()),
        }
    }
}

impl<'n> Needles<&'n [u8]> {
    /// Returns the length of the longest needle.
    pub fn longest(&self) -> usize
        ensures { result ≡ longest (bytes_of_needles self.now) }
    {
        match self {
            Needles::One(a) => a.len(),
            Needles::Two(a, b) => a.len().max(b.len()),
            Needles::Three(a, b, c) => a.len().max(b.len().max(c.len())),
        }
    }
}

/// A needle that the input ends inside, so more input can move a hit to it.
#[derive(Clone, Copy, Debug, Drop, PartialEq, Eq)]
pub struct Stretch {
    /// The number of the needle, counted from 0
    pub needle: usize,
    /// The place where it begins
    pub place: usize,
}
