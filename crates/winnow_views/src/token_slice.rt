//! `TokenSlice`: the tokens that a lexer made, as a stream.

ghost use Rattle.std.specs.Prelude.{◌≡◌, ◌+◌, true, [], Some, length, drop, min, reverse, IsTrue};
ghost use Rattle.std.specs.Prelude.{refl, ⊤, ◌&&◌, ℕ, false};
ghost use Rattle.std.specs.Iterator.{AlwaysYields, IsFinite};
ghost use Rattle.std.specs.Option.{option_copied};
ghost use Rattle.std.proofs.Common.{sym, ap, ◌∙◌};
ghost use Rattle.winnow_stream.specs.Checkpoint.{checkpoint_inner};
ghost use Rattle.winnow_stream.specs.Source.{first_token, width};
ghost use Rattle.winnow_stream.specs.Front.{front, back, is_offset, IsSomeFront};
ghost use Rattle.winnow_stream.specs.Longer.{SlicesStay-front};
ghost use Rattle.winnow_stream.specs.Units.{HasPositiveWidths-units};
ghost use Rattle.winnow_views.specs.TokenSources.{tokens_of};
ghost use Rattle.winnow_views.specs.TokenPlaces.{whole_of, rest_of, remaining_of, place_of};
ghost use Rattle.winnow_views.specs.TokenPlaces.{taken_of, remained_at, rest_at, place_at};
ghost use Rattle.winnow_views.specs.TokenPlaces.{width-remaining_in};
ghost use Rattle.winnow_views.specs.TokenAnswers.{last_of, next_of, end_before, start_behind};
ghost use Rattle.winnow_views.specs.TokenAnswers.{first_comparison, ComparisonsStay-first};
ghost use Rattle.winnow_views.specs.TokenPrevious.{left_of};
ghost use Rattle.std.specs.Cmp.{and_per, and_equiv, on_per, on_equiv};
ghost use Rattle.std.specs.Cmp.Lexicographic.{pointwise, lists_per, lists_equiv};
ghost use Rattle.std.specs.Fmt.{debug_list};

use crate::{PreviousTokens, TokenOffsets, TokenView};
use std::fmt;
use std::fmt::Debug;
use std::num::NonZeroUsize;
use winnow_match::{Compare, CompareResult};
use winnow_stream::{
    Checkpoint, Location, Needed, Offset, Rest, SliceLen, Stream, StreamIsPartial, UpdateSlice,
};
use winnow_stream_window::Window;

/// The tokens that a lexer made, as a stream that lends them: its token is a `&T`, of width 1.
///
/// It knows the whole list and its place there, which is the number of tokens that were taken
/// before what remains. `reset` goes to the place of the checkpoint, and a window has the place of
/// the checkpoint at which it begins.
#[derive_where(Clone, Copy)]
pub struct TokenSlice<'t, T> {
    pub(crate) whole: &'t [T],
    pub(crate) view: TokenView<'t, T>,
}

impl<'t, T> TokenSlice<'t, T> {
    /// Returns a stream of the whole list at place 0, so all of it remains.
    pub fn new(tokens: &'t [T]) -> Self
        ensures whole { whole_of result ≡ tokens.entry }
        ensures rest { rest_of result ≡ tokens.now }
        ensures remains { remaining_of T.row result ≡ tokens_of T.row tokens.entry }
        ensures place { place_of result ≡ 0 }
    {
        TokenSlice {
            whole: tokens,
            view: TokenView {
                window: Window::new(tokens),
            },
        }
    }

    /// Returns what remains.
    pub fn as_slice(&self) -> &'t [T]
        ensures value { result.now ≡ rest_of self.now }
        ensures tokens { tokens_of T.row result ≡ remaining_of T.row self.now }
    {
        self.view.window.slice()
    }

    /// Goes back to the whole list, also out of a window.
    pub fn reset_to_start(&mut self)
        ensures rest { rest_of self.new ≡ (whole_of self.old).now }
        ensures remains { remaining_of T.row self.new ≡ tokens_of T.row (whole_of self.old) }
        ensures kept { whole_of self.old ≡ whole_of self.new }
        ensures place { place_of self.new ≡ 0 }
    {
        *self = TokenSlice::new(self.whole);
    }

    /// Returns an iterator over the tokens before the place, the last token first.
    pub fn previous_tokens(&self) -> PreviousTokens<'t, T>
        ensures left { left_of result ≡ reverse (taken_of self.now) }
        ensures ends { IsFinite (⟦<PreviousTokens<'t, T> as Iterator>⟧.remaining result) }
        ensures items { AlwaysYields ⟦<PreviousTokens<'t, T> as Iterator>⟧.next_gives (λ x. x.now)
            result (reverse (taken_of self.now)) }
    {
        PreviousTokens::new(self.taken())
    }

    // The token that was taken last.
    pub(crate) fn last_taken(&self) -> Option<&'t T>
        ensures { option_copied result ≡ last_of self.now }
    {
        self.taken().last()
    }

    // The token that comes next.
    pub(crate) fn next_left(&self) -> Option<&'t T>
        ensures { option_copied result ≡ next_of self.now }
    {
        self.view.window.slice().first()
    }

    // The tokens of the whole list before the place.
    #[tactic(auto, using(std::proofs::lemmas::List::take_min))]
    fn taken(&self) -> &'t [T]
        ensures { result.now ≡ taken_of self.now }
    {
        &self.whole[..self.view.window.start().min(self.whole.len())]
    }
}

impl<T> Rest for TokenSlice<'_, T> {
    ghost rest_width = { λ s. length (rest_of s) };

    ghost location = { λ s. Some (place_of s) };
}

#[tactic(auto, using(crate::proofs::lemmas::TokenLemmas::token_steps))]
impl<'t, T: Debug> Stream for TokenSlice<'t, T> {
    type Token = &'t T;

    type Slice = &'t [T];

    type IterOffsets = TokenOffsets<'t, T>;

    type Checkpoint = Checkpoint<TokenView<'t, T>, TokenSlice<'t, T>>;

    ghost remaining = { λ s. remaining_of T.row s };

    ghost valid = { λ _. ⊤ };

    ghost remained = { λ c. remained_at T.row c };

    ghost valid_checkpoint = { λ _. ⊤ };

    ghost is_slice = { λ s r n. tokens_of T.row s ≡ front r n };

    ghost counts_shortage = { true };

    ghost keeps = { λ s t. whole_of s ≡ whole_of t };

    ghost slices_stay = { SlicesStay-front (tokens_of T.row) };

    ghost positive_widths = { λ s _. HasPositiveWidths-units _ };

    ghost positive_widths_remained = { λ c _. HasPositiveWidths-units _ };

    ghost rest_width_remaining = { λ s _. sym (width-remaining_in T.row s.view) };

    ghost rest_width_remained = { λ c _. sym (width-remaining_in T.row (checkpoint_inner c)) };

    ghost same_rest_remaining = { λ s t e. ap (λ v. remaining_of T.row v) (sym e) };

    ghost same_rest_valid = { λ _ _ _ _. tt };

    ghost keeps_reflexive = { λ _. refl };

    ghost keeps_transitive = { λ _ _ _ p q. p ∙ q };

    fn iter_offsets(&self) -> TokenOffsets<'t, T> {
        TokenOffsets::new(self.view.window.slice())
    }

    fn eof_offset(&self) -> usize {
        self.view.window.len()
    }

    fn next_token(&mut self) -> Option<&'t T>
        ensures answer { result ≡ first_token (remaining_of T.row self.old) }
        ensures remains { remaining_of T.row self.new ≡ drop 1 (remaining_of T.row self.old) }
        ensures rest { rest_of self.new ≡ drop 1 (rest_of self.old) }
        ensures kept { whole_of self.old ≡ whole_of self.new }
        ensures place { place_of self.new ≡ place_of self.old + min 1 (length (rest_of self.old)) }
    {
        let rest = self.view.window.slice();
        if rest.is_empty() {
            return None;
        }
        self.view = self.view.behind(1);
        Some(&rest[0])
    }

    fn peek_token(&self) -> Option<&'t T> {
        let rest = self.view.window.slice();
        if rest.is_empty() {
            return None;
        }
        Some(&rest[0])
    }

    fn offset_at(&self, tokens: usize) -> Result<usize, Needed> {
        match NonZeroUsize::new(tokens.saturating_sub(self.view.window.len())) {
            Some(missing) => Err(Needed::Size(missing)),
            None => Ok(tokens),
        }
    }

    fn is_offset(&self, offset: usize) -> bool {
        offset <= self.view.window.len()
    }

    fn next_slice(&mut self, offset: usize) -> &'t [T]
        requires offset { IsTrue (is_offset (remaining_of T.row self.old) offset) }
        ensures answer { tokens_of T.row result ≡ front (remaining_of T.row self.old) offset }
        ensures remains { remaining_of T.row self.new ≡ back (remaining_of T.row self.old) offset }
        ensures rest { rest_of self.new ≡ drop offset (rest_of self.old) }
        ensures kept { whole_of self.old ≡ whole_of self.new }
        ensures place { place_of self.new ≡ place_of self.old + offset }
    {
        let slice = self.peek_slice(offset);
        self.view = self.view.behind(offset);
        slice
    }

    fn peek_slice(&self, offset: usize) -> &'t [T] {
        let rest = self.view.window.slice();
        &rest[..offset]
    }

    fn finish(&mut self) -> &'t [T]
        ensures answer { tokens_of T.row result
            ≡ front (remaining_of T.row self.old) (width (remaining_of T.row self.old)) }
        ensures remains { remaining_of T.row self.new ≡ [] }
        ensures rest { rest_of self.new ≡ [] }
        ensures kept { whole_of self.old ≡ whole_of self.new }
        ensures place { place_of self.new ≡ place_of self.old + length (rest_of self.old) }
    {
        let slice = self.view.window.slice();
        self.view = self.view.behind(slice.len());
        slice
    }

    fn checkpoint(&self) -> Checkpoint<TokenView<'t, T>, TokenSlice<'t, T>>
        ensures means { remained_at T.row result ≡ remaining_of T.row self.now }
        ensures rest { rest_at result ≡ rest_of self.now }
        ensures place { place_at result ≡ place_of self.now }
    {
        Checkpoint::new(self.view)
    }

    fn reset(&mut self, checkpoint: &Checkpoint<TokenView<'t, T>, TokenSlice<'t, T>>)
        ensures remains { remaining_of T.row self.new ≡ remained_at T.row checkpoint.now }
        ensures rest { rest_of self.new ≡ rest_at checkpoint.now }
        ensures kept { whole_of self.old ≡ whole_of self.new }
        ensures place { place_of self.new ≡ place_at checkpoint.now }
    {
        self.view = *checkpoint.inner();
    }

    fn offset_since(&self, start: &Checkpoint<TokenView<'t, T>, TokenSlice<'t, T>>) -> usize {
        start.inner().window.len() - self.view.window.len()
    }
}

impl<'t, T> Offset<TokenSlice<'t, T>> for TokenSlice<'t, T> {
    fn offset_from(&self, start: &TokenSlice<'t, T>) -> usize {
        self.view.offset_from(&start.view)
    }
}

impl<'t, T> Offset<Checkpoint<TokenView<'t, T>, TokenSlice<'t, T>>> for TokenSlice<'t, T> {
    fn offset_from(&self, start: &Checkpoint<TokenView<'t, T>, TokenSlice<'t, T>>) -> usize {
        self.view.offset_from(start.inner())
    }
}

impl<T> SliceLen for TokenSlice<'_, T> {
    ghost width_of = { λ s. length (rest_of s) };

    fn slice_len(&self) -> usize {
        self.view.window.len()
    }
}

/// A window has the place of the checkpoint at which it begins.
impl<'t, T: Debug> UpdateSlice for TokenSlice<'t, T> {
    fn update_slice(
        self,
        inner: &'t [T],
        at: &Checkpoint<TokenView<'t, T>, TokenSlice<'t, T>>,
    ) -> Self
        requires is_prefix { IsSomeFront (λ s r n. tokens_of T.row s ≡ front r n) inner
            (remained_at T.row at.now) }
        ensures remains { (n : ℕ) → IsTrue (is_offset (remained_at T.row at.now) n)
            → tokens_of T.row inner.entry ≡ front (remained_at T.row at.now) n
            → remaining_of T.row result ≡ front (remained_at T.row at.now) n }
        ensures rest { rest_of result ≡ inner.now }
        ensures kept { whole_of self.entry ≡ whole_of result }
        ensures place { place_of result ≡ place_at at.now }
    {
        let view = TokenView {
            window: at.inner().window.before(inner.len()),
        };
        TokenSlice {
            whole: self.whole,
            view,
        }
    }
}

/// Locations are offsets in the whole input of the lexer, as the tokens give them.
impl<T: Location> Location for TokenSlice<'_, T> {
    ghost token_end = { λ s. end_before T.token_end T.token_start (last_of s) (next_of s) };

    ghost token_start = { λ s. start_behind T.token_end T.token_start (last_of s) (next_of s) };

    fn previous_token_end(&self) -> usize {
        match self.last_taken() {
            Some(last) => last.previous_token_end(),
            None => match self.next_left() {
                Some(next) => next.current_token_start(),
                None => 0,
            },
        }
    }

    fn current_token_start(&self) -> usize {
        match self.next_left() {
            Some(next) => next.current_token_start(),
            None => match self.last_taken() {
                Some(last) => last.previous_token_end(),
                None => 0,
            },
        }
    }
}

/// A list of tokens has no flag.
impl<T: Debug> StreamIsPartial for TokenSlice<'_, T> {
    type PartialState = ();

    ghost supports_partial = { false };

    ghost partial_state = { λ _. tt };

    ghost expects_more = { λ _. false };

    ghost same_but_flag = { λ s t. s ≡ t };

    ghost flag_decides = { λ _ _ _. refl };

    ghost no_flag = { λ _ _. refl };

    ghost keeps_flag = { λ _ _ _. refl };

    fn complete(&mut self) {}

    fn restore_partial(&mut self, _state: ()) {}

    fn is_partial_supported() -> bool
        ensures { result ≡ false }
    {
        false
    }

    fn is_partial(&self) -> bool {
        false
    }
}

/// The literal is compared with the first token, by equality.
impl<T: Debug + Eq + Drop> Compare<T> for TokenSlice<'_, T> {
    ghost compared = { λ literal r. first_comparison T.eq literal (first_token r) };

    ghost literal_width = { λ _. 1 };

    ghost comparisons_stay = { ComparisonsStay-first T.eq };

    fn compare(&self, literal: T) -> CompareResult {
        match self.peek_token() {
            Some(token) => {
                if *token == literal {
                    CompareResult::Ok(1)
                } else {
                    CompareResult::Error
                }
            }
            None => CompareResult::Incomplete,
        }
    }
}

/// Two slices are equal if their whole lists are equal and what remains of them is, no matter what
/// their places are.
impl<T: PartialEq> PartialEq for TokenSlice<'_, T> {
    ghost eq = { λ s t. pointwise T.eq (whole_of s).now (whole_of t).now && pointwise T.eq
        (rest_of s) (rest_of t) };

    ghost laws = { and_per (on_per (λ s. (whole_of s).now) (lists_per T.laws))
        (on_per rest_of (lists_per T.laws)) };

    fn eq(&self, other: &Self) -> bool {
        self.whole == other.whole && self.view == other.view
    }
}

impl<T: Eq> Eq for TokenSlice<'_, T> {
    ghost laws = { and_equiv (on_equiv (λ s. (whole_of s).now) (lists_equiv T.Eq.laws))
        (on_equiv rest_of (lists_equiv T.Eq.laws)) };
}

/// It prints as a list of what remains.
impl<T: Debug> Debug for TokenSlice<'_, T> {
    ghost debug_output = { λ s. debug_list T.debug_output (rest_of s) };

    fn fmt<W: fmt::Write>(&self, f: &mut fmt::Formatter<W>) -> fmt::Result {
        self.view.fmt(f)
    }
}

impl<T> Default for TokenSlice<'_, T> {
    ghost is_default = { λ s. ((whole_of s).now ≡ []) × (rest_of s ≡ []) × (place_of s ≡ 0) };

    fn default() -> Self
        ensures { ((whole_of result).now ≡ []) × (rest_of result ≡ []) × (place_of result ≡ 0) }
    {
        TokenSlice::new(&[])
    }
}
