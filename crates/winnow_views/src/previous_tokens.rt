//! `PreviousTokens`, the iterator over the tokens before the place, the last token first.

ghost use Rattle.std.specs.Prelude.{◌≡◌, reverse};
ghost use Rattle.std.specs.Iterator.{item_count, YieldsFirstRef};
ghost use Rattle.winnow_views.specs.TokenPrevious.{left_of};

/// An iterator over the tokens before the place of a [`TokenSlice`](crate::TokenSlice), the last
/// token first.
#[derive(Debug)]
#[derive_where(Clone, Copy)]
pub struct PreviousTokens<'t, T> {
    taken: &'t [T],
}

impl<'t, T> PreviousTokens<'t, T> {
    pub(crate) fn new(taken: &'t [T]) -> Self
        ensures { left_of result ≡ reverse taken.now }
    {
        PreviousTokens { taken }
    }
}

impl<'t, T> Iterator for PreviousTokens<'t, T> {
    type Item = &'t T;

    ghost next_gives = { YieldsFirstRef left_of };

    ghost remaining = { item_count left_of };

    fn next(&mut self) -> Option<&'t T> {
        let (last, before) = self.taken.split_last()?;
        self.taken = before;
        Some(last)
    }
}
