//! Laws of comparisons and searches. A law does nothing when called: its contract is the law.

ghost use Rattle.std.specs.Prelude.{◌≡◌, ℕ, ◌<◌, ◌↔◌, [], ◌++◌, List, length, Contains, IsFalse};
ghost use Rattle.std.specs.Prelude.{IsTrue, take, drop};
ghost use Rattle.std.specs.Prelude.{◌==◌, ◌∷◌, ◌+◌, ◌≤◌};
ghost use Rattle.std.specs.Option.{option_map};
ghost use Rattle.std.specs.declared.ops.Range as range_declared;
ghost use Rattle.winnow_stream.specs.Span.{span};
ghost use Rattle.winnow_stream.specs.Source.{units, first_offset};
ghost use Rattle.winnow_match.specs.Comparison.{comparison, IsPrefixOf};
ghost use Rattle.winnow_match.specs.Search.{hit, have_one_length, IsFirstHit, OccursNowhere};
ghost use Rattle.winnow_match.specs.Stretch.{stretch_of, hit_is_definite, CanMove, IsStretch};
ghost use Rattle.winnow_match.specs.Stretch.{NothingStretches};
ghost use Rattle.winnow_match.specs.declared.compare.CompareResult.{CompareResult};
ghost use Rattle.winnow_match.specs.declared.needles.Stretch as stretch_declared;

use crate::Stretch;

/// The law of comparison. It answers `Ok` if the bytes are the literal followed by something,
/// `Incomplete` if they are a shorter front of it, and `Error` if neither is a front of the other.
pub fn compare_law()
    ensures ok { (literal bytes : List ℕ) (n : ℕ)
        → ((comparison literal bytes ≡ CompareResult.Ok n)
        ↔ (IsPrefixOf literal bytes × (n ≡ length literal))) }
    ensures incomplete { (literal bytes : List ℕ)
        → ((comparison literal bytes ≡ CompareResult.Incomplete)
        ↔ (IsPrefixOf bytes literal × (length bytes < length literal))) }
    ensures error { (literal bytes : List ℕ)
        → ((comparison literal bytes ≡ CompareResult.Error)
        ↔ ((¬ IsPrefixOf literal bytes) × (¬ IsPrefixOf bytes literal))) }
{}

/// The law of more input: what a comparison decided stays.
pub fn compare_more_law()
    ensures ok { (literal bytes more : List ℕ) (n : ℕ)
        → comparison literal bytes ≡ CompareResult.Ok n
        → comparison literal (bytes ++ more) ≡ CompareResult.Ok n }
    ensures error { (literal bytes more : List ℕ) → comparison literal bytes ≡ CompareResult.Error
        → comparison literal (bytes ++ more) ≡ CompareResult.Error }
{}

/// The law of search. An empty needle stands at once. Else the answer is the least place at which
/// some needle stands, to the end of the first listed needle that stands there, and `None` if no
/// needle stands anywhere. If only one needle is searched for, the bytes are those before the hit,
/// the needle, and those after the hit.
pub fn find_law()
    ensures empty { (needles : List (List ℕ)) (bytes : List ℕ) → Contains needles []
        → hit needles bytes ≡ Some (span 0 0) }
    ensures some { (needles : List (List ℕ)) (bytes : List ℕ) (r : range_declared.Range ℕ)
        → ¬ Contains needles [] → ((hit needles bytes ≡ Some r) ↔ IsFirstHit needles bytes r) }
    ensures none { (needles : List (List ℕ)) (bytes : List ℕ) → ¬ Contains needles []
        → ((hit needles bytes ≡ None) ↔ OccursNowhere needles bytes) }
    ensures one { (needle bytes : List ℕ) (r : range_declared.Range ℕ)
        → hit (needle ∷ []) bytes ≡ Some r
        → (r.end ≡ r.start + length needle) × (r.end ≤ length bytes)
        × (bytes ≡ take r.start bytes ++ needle ++ drop r.end bytes) }
{}

/// The law of a search for a byte: the hit is the first token that is equal to it, and is one byte
/// long.
pub fn byte_hit_law()
    ensures { (byte : ℕ) (bytes : List ℕ) → hit ((byte ∷ []) ∷ []) bytes
        ≡ option_map (λ n. span n 1) (first_offset (λ x. byte == x) (units bytes)) }
{}

/// The law of needles of one length: a hit stays the hit when more input follows.
pub fn find_more_law()
    ensures { (needles : List (List ℕ)) (bytes more : List ℕ) (r : range_declared.Range ℕ)
        → IsTrue (have_one_length needles) → hit needles bytes ≡ Some r
        → hit needles (bytes ++ more) ≡ Some r }
{}

/// The law of definite hits. `None` is never definite, and with an empty needle every hit is. Else
/// a hit is definite exactly if no needle stretches before it, and no needle that is listed before
/// the one at the hit stretches there. So every hit of needles of one length is definite. A
/// definite hit is the same under more input, and definite there.
pub fn definite_hit_law()
    ensures none { (needles : List (List ℕ)) (bytes : List ℕ) → hit needles bytes ≡ None
        → IsFalse (hit_is_definite needles bytes) }
    ensures empty { (needles : List (List ℕ)) (bytes : List ℕ) → Contains needles []
        → IsTrue (hit_is_definite needles bytes) }
    ensures some { (needles : List (List ℕ)) (bytes : List ℕ) (r : range_declared.Range ℕ)
        → ¬ Contains needles [] → (first : IsFirstHit needles bytes r)
        → (IsTrue (hit_is_definite needles bytes) ↔ NothingStretches needles bytes r first) }
    ensures one_length { (needles : List (List ℕ)) (bytes : List ℕ) (r : range_declared.Range ℕ)
        → IsTrue (have_one_length needles) → hit needles bytes ≡ Some r
        → IsTrue (hit_is_definite needles bytes) }
    ensures same { (needles : List (List ℕ)) (bytes more : List ℕ)
        → IsTrue (hit_is_definite needles bytes) → hit needles (bytes ++ more) ≡ hit needles bytes }
    ensures stays { (needles : List (List ℕ)) (bytes more : List ℕ)
        → IsTrue (hit_is_definite needles bytes)
        → IsTrue (hit_is_definite needles (bytes ++ more)) }
{}

/// The law of needles that stretch: `None` if nothing can move the hit, and else the least place at
/// which a needle can move it, with the first listed needle that can there.
pub fn stretch_law()
    ensures none { (needles : List (List ℕ)) (bytes : List ℕ) (r : range_declared.Range ℕ)
        → ¬ Contains needles [] → hit needles bytes ≡ Some r
        → (stretch_of needles bytes ≡ None ↔ ((i q : ℕ) → ¬ CanMove needles bytes r i q)) }
    ensures some { (needles : List (List ℕ)) (bytes : List ℕ) (r : range_declared.Range ℕ)
        (s : stretch_declared.Stretch) → ¬ Contains needles [] → hit needles bytes ≡ Some r
        → (stretch_of needles bytes ≡ Some s ↔ IsStretch needles bytes r s) }
{}

/// The law of equality: two stretches are equal exactly if their needles and their places are.
pub fn stretch_equality_law()
    ensures { (s t : stretch_declared.Stretch) → IsTrue (⟦<Stretch as PartialEq>⟧.eq s t)
        ↔ (s ≡ t) }
{}
