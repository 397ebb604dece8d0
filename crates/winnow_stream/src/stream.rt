//! The trait `Stream`, and `Rest`, which the invariants of wrappers name in its place.

ghost use Rattle.std.specs.Prelude.{◌≡◌, ℕ, ◌-◌, ◌≤◌, Bool, [], Option, None, IsTrue, IfSome, take};
ghost use Rattle.std.specs.Prelude.{drop, ⊤};
ghost use Rattle.std.specs.Iterator.{IsFinite, AlwaysYields, size};
ghost use Rattle.winnow_stream.specs.Source.{Source, width, HasPositiveWidths, IsEndOf, Computes};
ghost use Rattle.winnow_stream.specs.Source.{first_token, FindsFirst, first_offset, offsets};
ghost use Rattle.winnow_stream.specs.Front.{is_offset, back};
ghost use Rattle.winnow_stream.specs.Longer.{SlicesStay};
ghost use Rattle.winnow_stream.specs.Location.{location_behind};
ghost use Rattle.winnow_stream.specs.Fused.{IsFused};
ghost use Rattle.winnow_stream.specs.Shortage.{offset_at};

use crate::Needed;
use std::fmt;
use std::fmt::Debug;

/// What the invariant of a type may say of a stream, or of a checkpoint, that the type holds. It
/// has no code.
///
/// A struct whose bound is [`Stream`] itself cannot be passed on at a type with a lifetime, so a
/// wrapper's ghost field names this trait instead. On valid values the laws of `Stream` tie both
/// members to what remains.
pub trait Rest {
    // The width of what remains; of a checkpoint, the width of what remained there.
    ghost rest_width: { Self → ℕ };

    // The two values differ in nothing that a call of `Stream` shows of what remains. Only a type
    // with a flag for partial input needs more than equality.
    ghost same_rest: { Self → Self → Type 0 } = { λ s t. s ≡ t };

    // The place in the whole input, in its offsets, at which a stream stands or a checkpoint stood;
    // `None` if the type keeps no location.
    ghost location: { Self → Option ℕ } = { λ _. None };
}

/// A list of tokens with widths, of which calls take the front.
///
/// A call either looks at what remains or takes a front of it. Offsets are sums of widths, counted
/// from the place at which the stream stands. An offset is valid if some front has that width.
/// `reset` goes back to a checkpoint.
///
/// An author of a stream gives the ghost members below, and proves the laws at the end.
///
/// A function over any stream of bytes reads a count, and then that many bytes:
///
/// ```
/// let start = input.checkpoint();
/// let Some(count) = input.next_token() else {
///     return Err(Needed::new(1));
/// };
/// match input.offset_at(count as usize) {
///     Ok(offset) => {
///         ..
///         Ok(input.next_slice(offset))
///     }
///     Err(needed) => {
///         input.reset(&start);
///         Err(needed)
///     }
/// }
/// ```
pub trait Stream: Rest + Debug {
    /// The smallest unit: a `u8` of `&[u8]`, a `char` of `&str`.
    type Token: Debug;
    /// A sequence of tokens: a `&[u8]` of `&[u8]`, a `&str` of `&str`.
    type Slice: Debug;
    /// Each remaining token with its offset.
    type IterOffsets: Iterator<Item = (usize, Self::Token)>;
    /// A place to which `reset` goes back.
    type Checkpoint: Rest + Copy + Debug;

    // The tokens that remain, each with its width.
    ghost remaining: { Self → Source Self.Token };

    // The values that may be used.
    ghost valid: { Self → Type 0 };

    // What remained where a checkpoint was taken.
    ghost remained: { Self.Checkpoint → Source Self.Token };

    // The checkpoints that may be used: those of valid values.
    ghost valid_checkpoint: { Self.Checkpoint → Type 0 };

    // The value is the slice of width n of a list. It depends on the slice, the list and n alone.
    ghost is_slice: { Self.Slice → Source Self.Token → ℕ → Type 0 };

    // What a slice of width n also says of the whole list from which it was taken, and need not say
    // of a longer one. A slice of bits says at which place of its first byte the bits begin, which
    // only the number of all bits tells. Most slices say nothing more.
    ghost slice_from: { Self.Slice → Source Self.Token → ℕ → Type 0 } = { λ _ _ _. ⊤ };

    // Whether a shortage says how many tokens are missing.
    ghost counts_shortage: { Bool };

    // The two values agree in all that no call of `Stream` changes.
    ghost keeps: { Self → Self → Type 0 };

    /// Returns an iterator over the remaining tokens, each with its offset, in order. After its end
    /// it gives nothing more.
    fn iter_offsets(&self) -> Self::IterOffsets
        requires { valid self.now }
        ensures can { Self.IterOffsets.can_next result }
        ensures ends { IsFinite (Self.IterOffsets.remaining result) }
        ensures count { size (Self.IterOffsets.remaining result) ≤ width (remaining self.now) }
        ensures items { AlwaysYields Self.IterOffsets.next_gives (λ x. x) result
            (offsets (remaining self.now)) }
        ensures fused { IsFused Self.IterOffsets.next_gives };

    /// Returns the width of what remains.
    fn eof_offset(&self) -> usize
        requires { valid self.now }
        ensures { result ≡ width (remaining self.now) };

    /// Returns the first token and moves past it. At the end it returns `None` and stays.
    fn next_token(&mut self) -> Option<Self::Token>
        requires { valid self.old }
        ensures answer { result ≡ first_token (remaining self.old) }
        ensures remains { remaining self.new ≡ drop 1 (remaining self.old) }
        ensures location { Self.location self.new
            ≡ location_behind (Self.location self.old) (width (take 1 (remaining self.old))) }
        ensures valid { valid self.new }
        ensures kept { keeps self.old self.new };

    /// Returns the first token, or `None` at the end.
    fn peek_token(&self) -> Option<Self::Token>
        requires { valid self.now }
        ensures { result ≡ first_token (remaining self.now) };

    /// Returns the offset of the first token that satisfies the predicate. If the predicate is a
    /// function `holds` of the token, that is the first token of which `holds` is true. If it is
    /// not, the predicate returned `true` for the token at that offset, and `false` for each token
    /// before.
    final fn offset_for<P: Fn(Self::Token) -> bool>(&self, predicate: P) -> Option<usize>
        requires valid { valid self.now }
        requires callable { P.IsAlwaysCallable predicate }
        ensures computed { (holds : Self.Token → Bool) → Computes (P.post predicate) holds
            → result ≡ first_offset holds (remaining self.now) }
        ensures finds { FindsFirst (P.post predicate) (remaining self.now) result }
        ensures offset { IfSome result (λ n. IsTrue (is_offset (remaining self.now) n)) }
    {
        let mut items = self.iter_offsets();
        // An item that is requested at the end of a turn costs one test less: a quarter of the time
        // over bytes.
        let mut next = items.next();
        while let Some((offset, token)) = next {
            if predicate(token) {
                return Some(offset);
            }
            next = items.next();
        }
        None
    }

    /// Returns the offset after this number of tokens, which may be the end. If fewer remain, it
    /// returns the shortage.
    fn offset_at(&self, tokens: usize) -> Result<usize, Needed>
        requires { valid self.now }
        ensures { result ≡ offset_at counts_shortage (remaining self.now) tokens };

    /// Returns whether some front of what remains has this width.
    fn is_offset(&self, offset: usize) -> bool
        requires { valid self.now }
        ensures { result ≡ is_offset (remaining self.now) offset };

    /// Returns the front of this width and moves past it.
    fn next_slice(&mut self, offset: usize) -> Self::Slice
        requires valid { valid self.old }
        requires offset { IsTrue (is_offset (remaining self.old) offset) }
        ensures answer { is_slice result (remaining self.old) offset }
        ensures from { slice_from result (remaining self.old) offset }
        ensures remains { remaining self.new ≡ back (remaining self.old) offset }
        ensures location { Self.location self.new
            ≡ location_behind (Self.location self.old) offset }
        ensures valid { valid self.new }
        ensures kept { keeps self.old self.new };

    /// Returns the front of this width.
    fn peek_slice(&self, offset: usize) -> Self::Slice
        requires valid { valid self.now }
        requires offset { IsTrue (is_offset (remaining self.now) offset) }
        ensures answer { is_slice result (remaining self.now) offset }
        ensures from { slice_from result (remaining self.now) offset };

    /// Returns all that remains and moves to the end.
    fn finish(&mut self) -> Self::Slice
        requires { valid self.old }
        ensures answer { is_slice result (remaining self.old) (width (remaining self.old)) }
        ensures from { slice_from result (remaining self.old) (width (remaining self.old)) }
        ensures remains { remaining self.new ≡ [] }
        ensures location { Self.location self.new
            ≡ location_behind (Self.location self.old) (width (remaining self.old)) }
        ensures valid { valid self.new }
        ensures kept { keeps self.old self.new }
    {
        let end = self.eof_offset();
        self.next_slice(end)
    }

    /// Returns all that remains.
    fn peek_finish(&self) -> Self::Slice
        requires { valid self.now }
        ensures answer { is_slice result (remaining self.now) (width (remaining self.now)) }
        ensures from { slice_from result (remaining self.now) (width (remaining self.now)) }
    {
        self.peek_slice(self.eof_offset())
    }

    /// Returns the place at which the stream stands.
    fn checkpoint(&self) -> Self::Checkpoint
        requires { valid self.now }
        ensures means { remained result ≡ remaining self.now }
        ensures location { Self.Checkpoint.location result ≡ Self.location self.now }
        ensures valid { valid_checkpoint result };

    /// Goes back, or forward, to a checkpoint. Then what remained there remains, and what is kept
    /// stays.
    fn reset(&mut self, checkpoint: &Self::Checkpoint)
        requires valid { valid self.old }
        requires valid_checkpoint { valid_checkpoint checkpoint.now }
        ensures remains { remaining self.new ≡ remained checkpoint.now }
        ensures location { Self.location self.new ≡ Self.Checkpoint.location checkpoint.now }
        ensures valid { valid self.new }
        ensures kept { keeps self.old self.new };

    /// Returns the width that was taken since a checkpoint.
    fn offset_since(&self, start: &Self::Checkpoint) -> usize
        requires valid { valid self.now }
        requires valid_checkpoint { valid_checkpoint start.now }
        requires is_end { IsEndOf (remaining self.now) (remained start.now) }
        ensures { result ≡ width (remained start.now) - width (remaining self.now) };

    /// Prints the stream on one line, for traces. No contract says how.
    fn trace<W: fmt::Write>(&self, f: &mut fmt::Formatter<W>) -> fmt::Result {
        self.fmt(f)
    }

    // Each token that remains of a valid value has a width of at least 1, and so has each token
    // that remained at a valid checkpoint.
    ghost positive_widths: { (s : Self) → valid s → HasPositiveWidths (remaining s) };

    ghost positive_widths_remained: { (c : Self.Checkpoint) → valid_checkpoint c
        → HasPositiveWidths (remained c) };

    // The width that `Rest` gives, of a valid value or of one of its checkpoints, is the width of
    // the list.
    ghost rest_width_remaining: { (s : Self) → valid s → Self.rest_width s ≡ width (remaining s) };

    ghost rest_width_remained: { (c : Self.Checkpoint) → valid_checkpoint c
        → Self.Checkpoint.rest_width c ≡ width (remained c) };

    // If two values have the same rest, they have the same list, and the second is valid if the
    // first is.
    ghost same_rest_remaining: { (s t : Self) → Self.same_rest s t → remaining t ≡ remaining s };

    ghost same_rest_valid: { (s t : Self) → Self.same_rest s t → valid s → valid t };

    // A slice of a list is that slice of each longer list.
    ghost slices_stay: { SlicesStay is_slice };

    // `keeps` is reflexive and transitive: what each of two calls keeps, both in a row keep.
    ghost keeps_reflexive: { (s : Self) → keeps s s };

    ghost keeps_transitive: { (s t u : Self) → keeps s t → keeps t u → keeps s u };
}
