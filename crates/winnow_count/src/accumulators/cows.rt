//! `CowStr` as an accumulator of characters and texts.

ghost use Rattle.std.specs.Prelude.{◌≡◌, [], encode_utf8, IsOk, IfOk, OnOk, OnErr, ⊤};
ghost use Rattle.std.specs.Cow.{cow_str_bytes};
ghost use Rattle.std.specs.List.{flat_map};
ghost use Rattle.std.specs.Str.{encode_utf8_all};
ghost use Rattle.std.specs.String.{string_bytes};
ghost use Rattle.std.specs.declared.borrow.CowStr.TheVariants.{Borrowed};
ghost use Rattle.std.proofs.Common.{rules};
ghost use Rattle.winnow_count.specs.Accumulation.{AppendsOwned, BecomesOrAppends, CowUnchanged};
ghost use Rattle.winnow_count.specs.AccumulationLaws.{cow_appends_taken, cow_becomes_taken};
ghost use Rattle.winnow_count.specs.AccumulationLaws.{cow_characters_taken, cow_stays};

use crate::Accumulate;
use std::alloc::{AllocError, Global};
use std::borrow::CowStr;

/// Appends each character, to an owned text.
impl<'i> Accumulate<char> for CowStr<'i, Global> {
    ghost holds = { λ text characters. cow_str_bytes text ≡ encode_utf8_all characters };

    ghost starts = { λ _ text. cow_str_bytes text ≡ [] };

    ghost takes = { λ old c new. AppendsOwned old (encode_utf8 c) new };

    ghost stays = { CowUnchanged };

    fn initial(_alloc: Global, _capacity: Option<usize>) -> Result<Self, AllocError>
        ensures made { IsOk result }
        ensures empty { IfOk result (λ text. cow_str_bytes text ≡ []) }
        ensures refused { OnErr result ⊤ }
    {
        Ok(CowStr::Borrowed(""))
    }

    fn accumulate(&mut self, alloc: Global, c: char) -> Result<(), AllocError> {
        append(self, alloc, c.encode_utf8(&mut [0; 4]))
    }

    ghost holds_starts = { Prim.search rules };

    ghost holds_taken = { cow_characters_taken };

    ghost holds_stays = { cow_stays encode_utf8_all };

    ghost fits = { Prim.search rules };
}

/// Becomes the first text that is not empty, which stays borrowed, and appends the later texts to
/// an owned text.
impl<'i> Accumulate<&'i str> for CowStr<'i, Global> {
    ghost holds = { λ text pieces. cow_str_bytes text ≡ flat_map (λ piece. piece.now) pieces };

    ghost starts = { λ _ text. cow_str_bytes text ≡ [] };

    ghost takes = { λ old piece new. BecomesOrAppends old (Borrowed piece) new };

    ghost stays = { CowUnchanged };

    fn initial(_alloc: Global, _capacity: Option<usize>) -> Result<Self, AllocError>
        ensures made { IsOk result }
        ensures empty { IfOk result (λ text. cow_str_bytes text ≡ []) }
        ensures refused { OnErr result ⊤ }
    {
        Ok(CowStr::Borrowed(""))
    }

    fn accumulate(&mut self, alloc: Global, piece: &'i str) -> Result<(), AllocError> {
        if self.as_str().is_empty() {
            *self = CowStr::Borrowed(piece);
            return Ok(());
        }
        append(self, alloc, piece)
    }

    ghost holds_starts = { Prim.search rules };

    ghost holds_taken = { cow_becomes_taken Borrowed };

    ghost holds_stays = { cow_stays (flat_map (λ piece. piece.now)) };

    ghost fits = { Prim.search rules };
}

/// Becomes the first text that is not empty, and appends the later texts to an owned text.
impl<'i> Accumulate<CowStr<'i, Global>> for CowStr<'i, Global> {
    ghost holds = { λ text pieces. cow_str_bytes text ≡ flat_map cow_str_bytes pieces };

    ghost starts = { λ _ text. cow_str_bytes text ≡ [] };

    ghost takes = { BecomesOrAppends };

    ghost stays = { CowUnchanged };

    fn initial(_alloc: Global, _capacity: Option<usize>) -> Result<Self, AllocError>
        ensures made { IsOk result }
        ensures empty { IfOk result (λ text. cow_str_bytes text ≡ []) }
        ensures refused { OnErr result ⊤ }
    {
        Ok(CowStr::Borrowed(""))
    }

    fn accumulate(&mut self, alloc: Global, piece: CowStr<'i, Global>) -> Result<(), AllocError> {
        if self.as_str().is_empty() {
            *self = piece;
            return Ok(());
        }
        append(self, alloc, piece.as_str())
    }

    ghost holds_starts = { Prim.search rules };

    ghost holds_taken = { cow_becomes_taken (λ piece. piece) };

    ghost holds_stays = { cow_stays (flat_map cow_str_bytes) };

    ghost fits = { Prim.search rules };
}

/// Appends each text, to an owned text.
impl<'i> Accumulate<String> for CowStr<'i, Global> {
    ghost holds = { λ text pieces. cow_str_bytes text ≡ flat_map string_bytes pieces };

    ghost starts = { λ _ text. cow_str_bytes text ≡ [] };

    ghost takes = { λ old piece new. AppendsOwned old (string_bytes piece) new };

    ghost stays = { CowUnchanged };

    fn initial(_alloc: Global, _capacity: Option<usize>) -> Result<Self, AllocError>
        ensures made { IsOk result }
        ensures empty { IfOk result (λ text. cow_str_bytes text ≡ []) }
        ensures refused { OnErr result ⊤ }
    {
        Ok(CowStr::Borrowed(""))
    }

    fn accumulate(&mut self, alloc: Global, piece: String) -> Result<(), AllocError> {
        append(self, alloc, piece.as_str())
    }

    ghost holds_starts = { Prim.search rules };

    ghost holds_taken = { cow_appends_taken string_bytes };

    ghost holds_stays = { cow_stays (flat_map string_bytes) };

    ghost fits = { Prim.search rules };
}

// The whole text is made before it replaces a borrowed one, so a refusal leaves that one as it was.
fn append(text: &mut CowStr<'_, Global>, alloc: Global, piece: &str) -> Result<(), AllocError>
    ensures ok { OnOk result (AppendsOwned text.old piece.now text.new) }
    ensures err { OnErr result (CowUnchanged text.old text.new) }
{
    match text {
        CowStr::Owned(front) => front.push_str(piece),
        CowStr::Borrowed(front) => {
            let mut whole = String::from_str(alloc, front)?;
            whole.push_str(piece)?;
            *text = CowStr::Owned(whole);
            Ok(())
        }
    }
}
