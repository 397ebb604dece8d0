//! Laws of parsers of tokens. A law does nothing when called: its contract is the law.

ghost use Rattle.std.specs.Prelude.{◌≡◌, ℕ, ◌≤◌, ◌↔◌, Bool, Option, IsTrue, List, [], ◌∷◌, length};
ghost use Rattle.std.specs.Prelude.{take};
ghost use Rattle.std.specs.declared.ops.Range.{Range};
ghost use Rattle.winnow_stream.specs.Source.{Source, width, HasPositiveWidths};
ghost use Rattle.winnow_stream.specs.Front.{is_offset, front};
ghost use Rattle.winnow_match.specs.Bytes.{bytes_of, utf8_of};
ghost use Rattle.winnow_match.specs.Search.{hit, have_one_length};
ghost use Rattle.winnow_match.specs.declared.compare.CompareResult.{CompareResult};
ghost use Rattle.winnow_parser.specs.Determined.{IsDetermined, Shows, SlicesRespect};
ghost use Rattle.winnow_token.specs.OneOf.{IsOneOf};
ghost use Rattle.winnow_token.specs.Take.{Takes};
ghost use Rattle.winnow_token.specs.TakeWhile.{TakesWhile};
ghost use Rattle.winnow_parser.specs.Literal.{IsLiteral};
ghost use Rattle.winnow_token.specs.Rest.{IsRest, IsRestLen, WholesRespect};
ghost use Rattle.winnow_token.specs.TakeUntil.{HitsStay, TakesUntil};
ghost use Rattle.winnow_token.specs.Prompt.{IsPrompt};

use winnow_stream::Stream;

/// The law of counts: the width of a front says how many tokens it has. It has at least n exactly
/// where n tokens remain and are no wider than it. It has all that remain exactly where its width
/// is the whole width. It does nothing when called: its contract is the law.
pub fn count_law<T>()
    ensures enough { (r : Source T) (n w : ℕ) → HasPositiveWidths r → IsTrue (is_offset r w)
        → ((n ≤ length r) × (width (take n r) ≤ w)) ↔ (n ≤ length (front r w)) }
    ensures all { (r : Source T) (w : ℕ) → HasPositiveWidths r → IsTrue (is_offset r w)
        → (w ≡ width r) ↔ (length (front r w) ≡ length r) }
{}

/// The law of hits: where a search for one needle, or for several needles of one length, finds one
/// in bytes or in a text, it finds the same place when more follows. So
/// [`take_until`](crate::take_until) may search for a byte, a character, a slice of bytes or a text
/// where more may follow. With needles of several lengths a longer one may still turn out to stand
/// before the hit. It does nothing when called: its contract is the law.
pub fn hits_stay_law()
    ensures in_bytes { (needle : List ℕ) → HitsStay (λ r. hit (needle ∷ []) (bytes_of r)) }
    ensures in_text { (needle : List ℕ) → HitsStay (λ r. hit (needle ∷ []) (utf8_of r)) }
    ensures several_in_bytes { (needles : List (List ℕ)) → IsTrue (have_one_length needles)
        → HitsStay (λ r. hit needles (bytes_of r)) }
    ensures several_in_text { (needles : List (List ℕ)) → IsTrue (have_one_length needles)
        → HitsStay (λ r. hit needles (utf8_of r)) }
{}

/// The law of what is needed: where a parser of one token, of n tokens, or of those in a set needs
/// k more tokens, it has no settled answer before k have come. It does nothing when called: its
/// contract is the law.
pub fn prompt_law<I: Stream>()
    ensures one { (holds : I.Token → Bool) → IsPrompt (IsOneOf holds) }
    ensures counted { (n : ℕ) → IsPrompt (Takes I.counts_shortage I.is_slice n) }
    ensures held { (holds : I.Token → Bool) (least : ℕ) (greatest : Option ℕ)
        → IsPrompt (TakesWhile I.is_slice holds least greatest) }
{}

/// The laws of one answer for parsers of tokens: there is one token, one width of what remains, and
/// one slice, for a view that shows the same of all slices of one front (of one whole, for
/// [`rest`](crate::rest)). It does nothing when called: its contract is the law.
pub fn determined_token_law<I: Stream, V>()
    ensures one { (holds : I.Token → Bool) → IsDetermined (λ x y. x ≡ y) (IsOneOf holds) }
    ensures counted { (view : I.Slice → V) (n : ℕ) → SlicesRespect I.is_slice (Shows view)
        → IsDetermined (Shows view) (Takes I.counts_shortage I.is_slice n) }
    ensures held { (view : I.Slice → V) (holds : I.Token → Bool) (least : ℕ) (greatest : Option ℕ)
        → SlicesRespect I.is_slice (Shows view)
        → IsDetermined (Shows view) (TakesWhile I.is_slice holds least greatest) }
    ensures literal { (view : I.Slice → V) (compare : Source I.Token → CompareResult)
        → SlicesRespect I.is_slice (Shows view)
        → IsDetermined (Shows view) (IsLiteral I.is_slice compare) }
    ensures until { (view : I.Slice → V) (find : Source I.Token → Option (Range ℕ)) (least : ℕ)
        (greatest : Option ℕ) → SlicesRespect I.is_slice (Shows view)
        → IsDetermined (Shows view) (TakesUntil I.is_slice find least greatest) }
    ensures remaining { (view : I.Slice → V) → WholesRespect I.is_slice (Shows view)
        → IsDetermined (Shows view) (IsRest I.is_slice) }
    ensures remaining_width { IsDetermined {T = I.Token} (λ x y. x ≡ y) IsRestLen }
{}
