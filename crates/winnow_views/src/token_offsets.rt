//! `TokenOffsets`, the iterator over the tokens of a slice with their offsets.

ghost use Rattle.std.specs.Prelude.{◌≡◌, ◌<◌, ◌^◌, length};
ghost use Rattle.std.specs.Iterator.{at_most, YieldsFirst};
ghost use Rattle.winnow_stream.specs.Source.{offsets};
ghost use Rattle.winnow_views.specs.TokenSources.{tokens_of};
ghost use Rattle.winnow_views.specs.TokenAhead.{offsets_ahead, count_ahead, end_ahead};

/// An iterator over the tokens of a slice, each with its offset.
#[derive(Debug)]
#[derive_where(Clone, Copy)]
pub struct TokenOffsets<'t, T> {
    rest: &'t [T],
    offset: usize,
}

impl<'t, T> TokenOffsets<'t, T> {
    pub(crate) fn new(rest: &'t [T]) -> Self
        ensures ahead { offsets_ahead T.row result ≡ offsets (tokens_of T.row rest.entry) }
        ensures count { count_ahead result ≡ length rest.now }
        ensures end { end_ahead result ≡ length rest.now }
    {
        TokenOffsets { rest, offset: 0 }
    }
}

impl<'t, T> Iterator for TokenOffsets<'t, T> {
    type Item = (usize, &'t T);

    ghost can_next = { λ s. end_ahead s < 2 ^ 64 };

    ghost next_gives = { YieldsFirst (offsets_ahead T.row) };

    ghost remaining = { λ s. at_most (count_ahead s) };

    fn next(&mut self) -> Option<(usize, &'t T)> {
        let rest = self.rest;
        if rest.is_empty() {
            return None;
        }
        let offset = self.offset;
        self.rest = &rest[1..];
        self.offset = offset + 1;
        Some((offset, &rest[0]))
    }
}
