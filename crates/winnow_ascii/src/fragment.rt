//! A `Fragment` of text with escapes, the trait of its parts (`Spell`), and their accumulators.

ghost use Rattle.std.specs.Prelude.{◌≡◌, ℕ, List, [], ◌∷◌, ◌++◌, encode_utf8, OnOk, OnErr};
ghost use Rattle.std.specs.List.{flat_map};
ghost use Rattle.std.specs.String.{string_bytes, StringUnchanged};
ghost use Rattle.std.specs.Vec.{VecUnchanged};
ghost use Rattle.std.proofs.Common.{rules};
ghost use Rattle.winnow_count.specs.Accumulation.{StartsText, StartsVector};
ghost use Rattle.winnow_count.specs.AccumulationLaws.{concat_taken};
ghost use Rattle.winnow_ascii.specs.Fragments.{spelled};

use std::alloc::{AllocError, Global};
use winnow_count::Accumulate;

/// A fragment of a text with escapes.
#[derive(Clone, Copy, Debug, PartialEq, Eq, Drop)]
pub enum Fragment<N, E> {
    /// What stands for itself
    Normal(N),
    /// What an escape stands for
    Escaped(E),
}

/// A character or a text, as a part of a longer text.
pub trait Spell: Sized {
    // Its UTF-8 bytes.
    ghost bytes: { Self → List ℕ };

    /// Appends it to a text. Where memory is refused, the text stays as it was.
    fn push_to(self, text: &mut String) -> Result<(), AllocError>
        ensures pushed { OnOk result (string_bytes text.new ≡ string_bytes text.old ++ bytes self) }
        ensures kept { OnErr result (StringUnchanged text.old text.new) };
}

impl Spell for char {
    ghost bytes = { encode_utf8 };

    fn push_to(self, text: &mut String) -> Result<(), AllocError> {
        text.push(self)
    }
}

impl Spell for &str {
    ghost bytes = { λ piece. piece.now };

    fn push_to(self, text: &mut String) -> Result<(), AllocError> {
        text.push_str(self)
    }
}

/// Appends each fragment.
impl<N: Spell, E: Spell> Accumulate<Fragment<N, E>> for String {
    ghost holds = { λ text fragments.
        string_bytes text ≡ flat_map (spelled N.bytes E.bytes) fragments };

    ghost starts = { StartsText };

    ghost takes = { λ old fragment new.
        string_bytes new ≡ string_bytes old ++ spelled N.bytes E.bytes fragment };

    ghost stays = { StringUnchanged };

    fn initial(alloc: Global, capacity: Option<usize>) -> Result<Self, AllocError> {
        <String as Accumulate<char>>::initial(alloc, capacity)
    }

    fn accumulate(&mut self, _alloc: Global, fragment: Fragment<N, E>) -> Result<(), AllocError> {
        match fragment {
            Fragment::Normal(piece) => piece.push_to(self),
            Fragment::Escaped(piece) => piece.push_to(self),
        }
    }

    ghost holds_starts = { Prim.search rules };

    ghost holds_taken = { concat_taken string_bytes (spelled N.bytes E.bytes) };

    ghost holds_stays = { Prim.search rules };

    ghost fits = { Prim.search rules };
}

/// Appends each slice, and pushes what each escape stands for.
impl<'i, T: Copy> Accumulate<Fragment<&'i [T], T>> for Vec<T> {
    ghost holds = { λ vector fragments. vector.items
        ≡ flat_map (spelled (λ slice. slice.now) (λ token. token ∷ [])) fragments };

    ghost starts = { StartsVector };

    ghost takes = { λ old fragment new. new.items
        ≡ old.items ++ spelled (λ slice. slice.now) (λ token. token ∷ []) fragment };

    ghost stays = { VecUnchanged };

    fn initial(alloc: Global, capacity: Option<usize>) -> Result<Self, AllocError> {
        <Vec<T> as Accumulate<&'i [T]>>::initial(alloc, capacity)
    }

    fn accumulate(
        &mut self,
        _alloc: Global,
        fragment: Fragment<&'i [T], T>,
    ) -> Result<(), AllocError> {
        match fragment {
            Fragment::Normal(slice) => self.extend_from_slice(slice),
            Fragment::Escaped(token) => {
                self.push(token)?;
                Ok(())
            }
        }
    }

    ghost holds_starts = { Prim.search rules };

    ghost holds_taken = { concat_taken (λ all. all.items)
        (spelled (λ slice. slice.now) (λ token. token ∷ [])) };

    ghost holds_stays = { Prim.search rules };

    ghost fits = { Prim.search rules };
}
