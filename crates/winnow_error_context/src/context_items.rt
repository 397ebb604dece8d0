//! `ContextItems`, the iterator over the contexts of an error.

ghost use Rattle.std.specs.Prelude.{◌≡◌, length, IfSome, Some};
ghost use Rattle.std.specs.Iterator.{at_most, item_count, UpTo, YieldsFirstRef};
ghost use Rattle.std.specs.Iterator.SizeHint.{IsWithinCount};

use std::marker::Model;

/// Iterates over the contexts of an error, in the order in which they were added.
#[derive(Debug, Drop)]
pub struct ContextItems<'a, C> {
    rest: &'a [C],
}

impl<'a, C> Model for ContextItems<'a, C> {
    ghost use Rattle.std.specs.Prelude.{List};

    ghost Value = { List C };

    ghost view = { λ items. items.rest.now };
}

impl<'a, C> ContextItems<'a, C> {
    pub(crate) fn new(contexts: &'a [C]) -> Self
        ensures { result ≡ contexts.now }
    {
        ContextItems { rest: contexts }
    }

    pub(crate) fn as_slice(&self) -> &'a [C]
        ensures { result.now ≡ self.now }
    {
        self.rest
    }
}

impl<'a, C> Iterator for ContextItems<'a, C> {
    type Item = &'a C;

    ghost next_gives = { YieldsFirstRef (λ items. items) };

    ghost remaining = { item_count (λ items. items) };

    fn next(&mut self) -> Option<&'a C> {
        let (first, rest) = self.rest.split_first()?;
        self.rest = rest;
        Some(first)
    }

    fn size_hint(&self) -> (usize, Option<usize>)
        ensures lower { IsWithinCount result.0 (at_most (length self.now)) }
        ensures upper { IfSome result.1 (UpTo (at_most (length self.now))) }
        ensures exact { result ≡ (length self.now, Some (length self.now)) }
    {
        (self.rest.len(), Some(self.rest.len()))
    }
}
