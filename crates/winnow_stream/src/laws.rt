//! Laws of streams. A law does nothing when called: its contract is the law.

ghost use Rattle.std.specs.Prelude.{◌≡◌, ℕ, ◌++◌, ◌+◌, ◌-◌, ◌≤◌, ◌<◌, ◌↔◌, Bool, true, false, List};
ghost use Rattle.std.specs.Prelude.{[], Option};
ghost use Rattle.std.specs.Prelude.{Ok, Err, Some, None, IsOk, IsTrue, not, unwrap_or};
ghost use Rattle.std.specs.Prelude.{length, take, drop};
ghost use Rattle.std.specs.Borrow.{Bor};
ghost use Rattle.std.specs.Cmp.Lexicographic.{pointwise, slice_cmp};
ghost use Rattle.std.specs.Ordering.{nat_cmp};
ghost use Rattle.std.specs.Str.{IsUtf8};
ghost use Rattle.winnow_stream.specs.Checkpoint.{checkpoint_inner};
ghost use Rattle.winnow_stream.specs.declared.checkpoint.Checkpoint.{Checkpoint};
ghost use Rattle.winnow_stream.specs.Source.{Source, units, width, HasPositiveWidths, first_token};
ghost use Rattle.winnow_stream.specs.Source.{first_offset, IsEndOf};
ghost use Rattle.winnow_stream.specs.Source.{FindsFirst, held_front, HoldsAll};
ghost use Rattle.winnow_stream.specs.Front.{HasFront, is_offset, front, back};
ghost use Rattle.winnow_stream.specs.Location.{location_behind, IsLocation};
ghost use Rattle.winnow_stream.specs.Moving.{MovesOn};
ghost use Rattle.winnow_stream.specs.SliceWidths.{SlicesHaveWidths};
ghost use Rattle.winnow_stream.specs.SliceBytes.{SlicesHaveBytes, SlicesHaveText};
ghost use Rattle.winnow_stream.specs.Shortage.{needed, offset_at};
ghost use Rattle.winnow_stream.specs.Text.{text_source};

use crate::{AsBStr, AsBytes, Checkpoint, Location, SliceLen, Stream};

/// The law of fronts. An offset is valid exactly if some front has that width. A front has the
/// width that it was taken by, and the front and what remains are together what was there, so their
/// widths sum to the whole width. After a front the valid offsets are the further ones, less its
/// width, and taking two fronts in a row leaves what taking both at once leaves. The width of two
/// lists in a row is the sum of their widths.
pub fn front_law<T>()
    ensures offset { (r : Source T) (n : ℕ) → HasPositiveWidths r
        → (IsTrue (is_offset r n) ↔ HasFront r n) }
    ensures width { (r : Source T) (n : ℕ) → IsTrue (is_offset r n) → width (front r n) ≡ n }
    ensures whole { (r : Source T) (n : ℕ) → front r n ++ back r n ≡ r }
    ensures sum { (r : Source T) (n : ℕ) → IsTrue (is_offset r n) → n + width (back r n) ≡ width r }
    ensures further { (r : Source T) (m n : ℕ) → IsTrue (is_offset r m) → m ≤ n
        → is_offset (back r m) (n - m) ≡ is_offset r n }
    ensures on { (r : Source T) (m n : ℕ) → IsTrue (is_offset r m) → IsTrue (is_offset r n) → m ≤ n
        → back (back r m) (n - m) ≡ back r n }
    ensures append { (p q : Source T) → width (p ++ q) ≡ width p + width q }
{}

/// The law of moving on. A stream that stands still has moved on over nothing. Taking one token, or
/// a front, moves on. Two moves in a row are one move. A move leaves the place at which the input
/// ends as it was.
pub fn moving_law<T>()
    ensures still { (a : Option ℕ) (r : Source T) → MovesOn a a r r }
    ensures token { (a : Option ℕ) (r : Source T)
        → MovesOn a (location_behind a (width (take 1 r))) r (drop 1 r) }
    ensures front { (a : Option ℕ) (r : Source T) (n : ℕ) → IsTrue (is_offset r n)
        → MovesOn a (location_behind a n) r (back r n) }
    ensures on { (a b c : Option ℕ) (r s t : Source T) → MovesOn a b r s → MovesOn b c s t
        → MovesOn a c r t }
    ensures end { (a b : Option ℕ) (r s : Source T) → MovesOn a b r s
        → location_behind b (width s) ≡ location_behind a (width r) }
    ensures rest { (a b : Option ℕ) (r s : Source T) → MovesOn a b r s → IsEndOf s r }
{}

/// The law of offsets: `offset_at`, `offset_for` and `eof_offset` return valid offsets.
pub fn offset_law<T>()
    ensures at { (counts_shortage : Bool) (r : Source T) (n w : ℕ) → HasPositiveWidths r
        → offset_at counts_shortage r n ≡ Ok w → IsTrue (is_offset r w) }
    ensures first { (holds : T → Bool) (r : Source T) (w : ℕ) → HasPositiveWidths r
        → first_offset holds r ≡ Some w → IsTrue (is_offset r w) }
    ensures end { (r : Source T) → HasPositiveWidths r → IsTrue (is_offset r (width r)) }
{}

/// The law of a counted shortage. A stream that refuses because k tokens are missing still refuses
/// with fewer than k more, because of those that are missing then. With k or more it answers.
pub fn shortage_law<T>()
    ensures refused { (r more : Source T) (n k : ℕ) → offset_at true r n ≡ Err (needed k)
        → length more < k → offset_at true (r ++ more) n ≡ Err (needed (k - length more)) }
    ensures answered { (r more : Source T) (n k : ℕ) → offset_at true r n ≡ Err (needed k)
        → k ≤ length more → IsOk (offset_at true (r ++ more) n) }
{}

/// The law of tokens that are taken. The front of the width of the first k tokens is those k
/// tokens, and what follows it is the rest. An offset that `offset_at` returns is such a width, and
/// the front of the whole width is everything. So `offset_at(n)` and then `next_slice` takes n
/// tokens, and `finish` takes all. If no width remains, no token remains.
pub fn taken_law<T>()
    ensures front { (r : Source T) (k : ℕ) → HasPositiveWidths r → k ≤ length r
        → front r (width (take k r)) ≡ take k r }
    ensures back { (r : Source T) (k : ℕ) → HasPositiveWidths r → k ≤ length r
        → back r (width (take k r)) ≡ drop k r }
    ensures fits { (counts_shortage : Bool) (r : Source T) (n w : ℕ)
        → offset_at counts_shortage r n ≡ Ok w → n ≤ length r }
    ensures at { (counts_shortage : Bool) (r : Source T) (n w : ℕ)
        → offset_at counts_shortage r n ≡ Ok w → w ≡ width (take n r) }
    ensures whole { (r : Source T) → HasPositiveWidths r → front r (width r) ≡ r }
    ensures end { (r : Source T) → HasPositiveWidths r → back r (width r) ≡ [] }
    ensures none { (r : Source T) → HasPositiveWidths r → width r ≡ 0 → r ≡ [] }
{}

/// The law of the first token in a set: `first_offset` is the offset of a token in the set, before
/// which none is in it, or `None` if no token is in it.
pub fn first_law<T>()
    ensures { (holds : T → Bool) (r : Source T)
        → FindsFirst (λ x b. holds x ≡ b) r (first_offset holds r) }
{}

/// The law of a front of tokens in a set. The offset of the first token outside the set, or the
/// whole width if there is none, is the width of the tokens up to there. It is an offset, and its
/// front is those tokens. All of them are in the set. The next token, if there is one, is not; if
/// there is none, every token is in the set. They and what follows them are what was there. Tokens
/// that are all in the set, before one that is not, are exactly the tokens that are taken. If
/// another set has all tokens of this set, taking over this set and then over the other leaves what
/// taking over the other alone leaves.
pub fn held_law<T>()
    ensures width { (holds : T → Bool) (r : Source T)
        → unwrap_or (first_offset (λ x. not (holds x)) r) (width r) ≡ width (held_front holds r) }
    ensures offset { (holds : T → Bool) (r : Source T) → HasPositiveWidths r
        → IsTrue (is_offset r (width (held_front holds r))) }
    ensures front { (holds : T → Bool) (r : Source T)
        → take (length (held_front holds r)) r ≡ held_front holds r }
    ensures exact { (holds : T → Bool) (r : Source T) → HasPositiveWidths r
        → front r (width (held_front holds r)) ≡ held_front holds r }
    ensures known { (holds : T → Bool) (text rest : Source T) → HoldsAll holds text
        → ((x : T) → first_token rest ≡ Some x → holds x ≡ false)
        → held_front holds (text ++ rest) ≡ text }
    ensures back { (holds : T → Bool) (r : Source T) → HasPositiveWidths r
        → back r (width (held_front holds r)) ≡ drop (length (held_front holds r)) r }
    ensures held { (holds : T → Bool) (r : Source T) → HoldsAll holds (held_front holds r) }
    ensures next { (holds : T → Bool) (r : Source T) (x : T)
        → first_token (drop (length (held_front holds r)) r) ≡ Some x → holds x ≡ false }
    ensures whole { (holds : T → Bool) (r : Source T)
        → held_front holds r ++ drop (length (held_front holds r)) r ≡ r }
    ensures all { (holds : T → Bool) (r : Source T)
        → first_token (drop (length (held_front holds r)) r) ≡ None → HoldsAll holds r }
    ensures further { (holds also : T → Bool) (r : Source T)
        → ((x : T) → holds x ≡ true → also x ≡ true)
        → let rest = drop (length (held_front holds r)) r in
        drop (length (held_front also rest)) rest ≡ drop (length (held_front also r)) r }
{}

/// The law of spans. If the numbers of `Location` are a stream's location, then the numbers after a
/// width are those before it plus that width.
pub fn span_law<S: Stream + Location>()
    ensures end { IsLocation S.location S.token_end S.token_start → (s t : S) (n : ℕ)
        → S.location t ≡ location_behind (S.location s) n → S.token_end t ≡ S.token_start s + n }
    ensures start { IsLocation S.location S.token_end S.token_start → (s t : S) (n : ℕ)
        → S.location t ≡ location_behind (S.location s) n → S.token_start t ≡ S.token_start s + n }
{}

/// The law of plain slices. Their tokens determine their elements, the valid offsets are those up
/// to their length, and a front and what follows it are those of the slice.
pub fn slice_law<T>()
    ensures same { (xs ys : List T) → units xs ≡ units ys → xs ≡ ys }
    ensures width { (xs : List T) → width (units xs) ≡ length xs }
    ensures offset { (xs : List T) (n : ℕ) → IsTrue (is_offset (units xs) n) ↔ (n ≤ length xs) }
    ensures front { (xs : List T) (n : ℕ) → n ≤ length xs
        → front (units xs) n ≡ units (take n xs) }
    ensures back { (xs : List T) (n : ℕ) → n ≤ length xs
        → back (units xs) n ≡ units (drop n xs) }
{}

/// The law of slices of bytes: the length of a slice is the offset that it was taken at. The law of
/// slices of bits asks for this.
pub fn byte_slice_law()
    ensures { SlicesHaveWidths ⟦<&'static [u8] as Stream>⟧.is_slice
        ⟦<&'static [u8] as SliceLen>⟧.has_width
        ⟦<&'static [u8] as SliceLen>⟧.width_of }
{}

/// The law of the bytes of slices. A slice of bytes has the bytes that were taken, and a slice of a
/// text is the text that was taken. So code that is generic in the stream, and asks for
/// `SlicesHaveBytes` or `SlicesHaveText`, knows the bytes of what it took.
pub fn slice_bytes_law()
    ensures bytes { SlicesHaveBytes ⟦<&'static [u8] as Stream>⟧.is_slice
        ⟦<&'static [u8] as AsBytes>⟧.bytes }
    ensures text { SlicesHaveBytes ⟦<&'static [u8] as Stream>⟧.is_slice
        ⟦<&'static [u8] as AsBStr>⟧.text_bytes }
    ensures characters { SlicesHaveText ⟦<&'static str as Stream>⟧.is_slice
        ⟦<&'static str as AsBStr>⟧.text_bytes }
{}

/// The law of slices of a text: the length of a slice is the offset that it was taken at.
pub fn text_slice_law(slice: &str)
    ensures { (r : Source ℕ) (n : ℕ) → IsTrue (is_offset r n)
        → ⟦<&'static str as Stream>⟧.is_slice slice.entry r n
        → ⟦<&'static str as SliceLen>⟧.width_of slice.entry ≡ n }
{}

/// The law of texts. The characters of a text determine its bytes, so two texts of which the same
/// remains are equal.
pub fn text_law()
    ensures { (a b : List ℕ) → IsUtf8 a → IsUtf8 b → text_source a ≡ text_source b → a ≡ b }
{}

/// The law of equality. Checkpoints of slices are equal if the elements that remained there are
/// equal. Checkpoints of bytes and of texts are equal exactly if the same remained.
pub fn checkpoint_equality_law<'t, T: PartialEq + 't>()
    ensures slices { (c d : Checkpoint (Bor (List T)) (Bor (List T)))
        → ⟦<Checkpoint<&'t [T], &'t [T]> as PartialEq>⟧.eq c d
        ≡ pointwise T.eq (checkpoint_inner c).now (checkpoint_inner d).now }
    ensures bytes { (c d : Checkpoint (Bor (List ℕ)) (Bor (List ℕ)))
        → IsTrue (⟦<Checkpoint<&'static [u8], &'static [u8]> as PartialEq>⟧.eq c d)
        ↔ ((checkpoint_inner c).now ≡ (checkpoint_inner d).now) }
    ensures texts { (c d : Checkpoint (Bor (List ℕ)) (Bor (List ℕ)))
        → IsTrue (⟦<Checkpoint<&'static str, &'static str> as PartialEq>⟧.eq c d)
        ↔ ((checkpoint_inner c).now ≡ (checkpoint_inner d).now) }
{}

/// The law of order. Checkpoints of slices are ordered by the elements that remained there, and
/// those of texts by their bytes.
pub fn checkpoint_order_law<'t, T: Ord + 't>()
    ensures slices { (c d : Checkpoint (Bor (List T)) (Bor (List T)))
        → ⟦<Checkpoint<&'t [T], &'t [T]> as Ord>⟧.cmp c d
        ≡ slice_cmp T.cmp (checkpoint_inner c).now (checkpoint_inner d).now }
    ensures texts { (c d : Checkpoint (Bor (List ℕ)) (Bor (List ℕ)))
        → ⟦<Checkpoint<&'static str, &'static str> as Ord>⟧.cmp c d
        ≡ slice_cmp nat_cmp (checkpoint_inner c).now (checkpoint_inner d).now }
{}
