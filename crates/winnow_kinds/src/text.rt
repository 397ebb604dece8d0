//! `BStr`: a stream of bytes that prints as text.

ghost use Rattle.std.specs.Prelude.{◌≡◌, ◌↔◌, ◌<◌, ◌≤◌, true, false, [], ◌∷◌, Some, nat_eq, refl};
ghost use Rattle.std.specs.Prelude.{length, slice_get, slice_range, IfOk, IsTrue, ⊤};
ghost use Rattle.std.specs.Cmp.{partial_equiv_from_equiv, on_per, on_equiv, on_po, on_total};
ghost use Rattle.std.specs.Cmp.Lexicographic.{pointwise, slice_cmp, nat_list_eq_equiv};
ghost use Rattle.std.specs.Cmp.Lexicographic.{nat_list_cmp_total, texts_ties, texts_po};
ghost use Rattle.std.specs.Cmp.Rules.{hashing};
ghost use Rattle.std.specs.Fmt.{DisplaysOnOk, DisplaysStyledOnOk, formatter_spec, spec_alternate};
ghost use Rattle.std.specs.Fmt.{spec_precision};
ghost use Rattle.std.specs.Hash as fed;
ghost use Rattle.std.specs.Ordering.{nat_cmp};
ghost use Rattle.std.specs.Str.Lossy.{utf8_lossy};
ghost use Rattle.std.proofs.Common.{rules, sym, ap};
ghost use Rattle.winnow_stream.specs.Checkpoint.{checkpoint_inner};
ghost use Rattle.winnow_stream.specs.Source.{units};
ghost use Rattle.winnow_stream.specs.Front.{front};
ghost use Rattle.winnow_stream.specs.Longer.{SlicesStay-front};
ghost use Rattle.winnow_stream.specs.Units.{HasPositiveWidths-units, width-units};
ghost use Rattle.winnow_match.specs.Bytes.{bytes_of};
ghost use Rattle.winnow_match.specs.Comparison.{comparison};
ghost use Rattle.winnow_match.specs.Staying.{ComparisonsStay-written};
ghost use Rattle.winnow_match.specs.Search.{hit};
ghost use Rattle.winnow_kinds.specs.TextContents.{bstr_contents};
ghost use Rattle.winnow_kinds.specs.LossyText.{lossy_text};
ghost use Rattle.winnow_kinds.specs.Escapes.{debug_text, styled_debug_text};

use crate::escapes::write_debug;
use crate::lossy::write_lossy;
use crate::{ByteLiteral, ByteNeedles};
use std::alloc::{AllocError, Global};
use std::cmp::Ordering;
use std::fmt;
use std::hash::{Hash, Hasher};
use std::ops::Range;
use winnow_match::{Compare, CompareResult, FindSlice};
use winnow_stream::{
    AsBStr, Checkpoint, Needed, Offset, Rest, SliceLen, SliceOffsets, Stream, StreamIsPartial,
    UpdateSlice,
};
use winnow_stream_window::Window;

/// Bytes that are text by convention, as a stream: it streams as `&[u8]` does, and prints as text.
///
/// Bytes are printed as text:
///
/// ```
/// println!(rt; "end: {}", BStr::new(&rest))
/// ```
#[derive(Clone, Copy)]
pub struct BStr<'i> {
    window: Window<'i, u8>,
}

impl<'i> BStr<'i> {
    /// Returns the stream of these bytes, which need not be text.
    pub fn new(bytes: &'i [u8]) -> Self
        ensures { bstr_contents result ≡ bytes.now }
    {
        BStr {
            window: Window::new(bytes),
        }
    }

    /// Returns the bytes that remain.
    pub fn inner(&self) -> &'i [u8]
        ensures { result.now ≡ bstr_contents self.now }
    {
        self.window.slice()
    }

    /// Returns the byte at a place.
    pub fn at(&self, i: usize) -> u8
        requires { i < length (bstr_contents self.now) }
        ensures { slice_get (bstr_contents self.now) i ≡ Some result }
    {
        *self.window.at(i)
    }

    /// Returns the bytes from place `a` up to place `b`.
    pub fn slice(&self, a: usize, b: usize) -> Self
        requires ordered { a ≤ b }
        requires within { b ≤ length (bstr_contents self.now) }
        ensures { bstr_contents result ≡ slice_range (bstr_contents self.now) a b }
    {
        BStr {
            window: self.window.behind(a).before(b - a),
        }
    }

    /// Returns whether the contents are these bytes.
    pub fn eq_bytes(&self, bytes: &[u8]) -> bool
        ensures { IsTrue result ↔ (bstr_contents self.now ≡ bytes.now) }
    {
        self.inner() == bytes
    }

    /// Returns whether the contents are the bytes of this text.
    pub fn eq_str(&self, text: &str) -> bool
        ensures { IsTrue result ↔ (bstr_contents self.now ≡ text.now) }
    {
        self.inner() == text.as_bytes()
    }

    /// Compares the contents with the bytes, by the first byte that differs.
    pub fn cmp_bytes(&self, bytes: &[u8]) -> Ordering
        ensures { result ≡ slice_cmp nat_cmp (bstr_contents self.now) bytes.now }
    {
        self.inner().cmp(bytes)
    }

    /// Compares the contents with the bytes of the text, by the first byte that differs.
    pub fn cmp_str(&self, text: &str) -> Ordering
        ensures { result ≡ slice_cmp nat_cmp (bstr_contents self.now) text.now }
    {
        self.inner().cmp(text.as_bytes())
    }

    /// Returns a copy of the bytes.
    pub fn to_vec(&self, alloc: Global) -> Result<Vec<u8>, AllocError>
        ensures { IfOk result (λ v. v.items ≡ bstr_contents self.now) }
    {
        self.inner().to_vec(alloc)
    }
}

impl<'i> Rest for BStr<'i> {
    ghost rest_width = { λ s. length (bstr_contents s) };
}

/// Each call is passed on to the bytes. Each byte has width 1.
impl<'i> Stream for BStr<'i> {
    type Token = u8;

    type Slice = &'i [u8];

    type IterOffsets = SliceOffsets<'i, u8>;

    type Checkpoint = Checkpoint<BStr<'i>, BStr<'i>>;

    ghost remaining = { λ s. units (bstr_contents s) };

    ghost valid = { λ _. ⊤ };

    ghost remained = { λ c. units (bstr_contents (checkpoint_inner c)) };

    ghost valid_checkpoint = { λ _. ⊤ };

    ghost is_slice = { λ s r n. units s.now ≡ front r n };

    ghost counts_shortage = { true };

    ghost keeps = { λ _ _. ⊤ };

    ghost slices_stay = { SlicesStay-front (λ s. units s.now) };

    ghost positive_widths = { λ s _. HasPositiveWidths-units (bstr_contents s) };

    ghost positive_widths_remained = { λ c _.
        HasPositiveWidths-units (bstr_contents (checkpoint_inner c)) };

    ghost rest_width_remaining = { λ s _. sym (width-units (bstr_contents s)) };

    ghost rest_width_remained = { λ c _. sym (width-units (bstr_contents (checkpoint_inner c))) };

    ghost same_rest_remaining = { λ s t e. ap (λ v. units (bstr_contents v)) (sym e) };

    ghost same_rest_valid = { λ _ _ _ _. tt };

    ghost keeps_reflexive = { λ _. tt };

    ghost keeps_transitive = { λ _ _ _ _ _. tt };

    fn iter_offsets(&self) -> SliceOffsets<'i, u8> {
        self.inner().iter_offsets()
    }

    fn eof_offset(&self) -> usize {
        self.inner().eof_offset()
    }

    fn next_token(&mut self) -> Option<u8> {
        let token = self.peek_token()?;
        self.window = self.window.behind(1);
        Some(token)
    }

    fn peek_token(&self) -> Option<u8> {
        self.inner().peek_token()
    }

    fn offset_at(&self, tokens: usize) -> Result<usize, Needed> {
        self.inner().offset_at(tokens)
    }

    fn is_offset(&self, offset: usize) -> bool {
        self.inner().is_offset(offset)
    }

    fn next_slice(&mut self, offset: usize) -> &'i [u8] {
        let slice = self.peek_slice(offset);
        self.window = self.window.behind(offset);
        slice
    }

    fn peek_slice(&self, offset: usize) -> &'i [u8] {
        self.inner().peek_slice(offset)
    }

    fn checkpoint(&self) -> Checkpoint<BStr<'i>, BStr<'i>> {
        Checkpoint::new(*self)
    }

    fn reset(&mut self, checkpoint: &Checkpoint<BStr<'i>, BStr<'i>>) {
        *self = *checkpoint.inner();
    }

    #[tactic(auto, using(winnow_stream::proofs::lemmas::UnitLemmas::units_steps))]
    fn offset_since(&self, start: &Checkpoint<BStr<'i>, BStr<'i>>) -> usize {
        start.inner().window.len() - self.window.len()
    }

    /// Prints the text with its escapes, and without quotes.
    fn trace<W: fmt::Write>(&self, f: &mut fmt::Formatter<W>) -> fmt::Result {
        write!(f, "{self:#?}")
    }
}

impl<'i> Offset<BStr<'i>> for BStr<'i> {
    fn offset_from(&self, start: &BStr<'i>) -> usize {
        start.window.len() - self.window.len()
    }
}

impl<'i> Offset<Checkpoint<BStr<'i>, BStr<'i>>> for BStr<'i> {
    fn offset_from(&self, start: &Checkpoint<BStr<'i>, BStr<'i>>) -> usize {
        self.offset_from(start.inner())
    }
}

impl SliceLen for BStr<'_> {
    ghost width_of = { λ s. length (bstr_contents s) };

    fn slice_len(&self) -> usize {
        self.window.len()
    }
}

impl<'i> UpdateSlice for BStr<'i> {
    fn update_slice(self, inner: &'i [u8], at: &Checkpoint<BStr<'i>, BStr<'i>>) -> Self {
        BStr {
            window: at.inner().window.before(inner.len()),
        }
    }
}

impl AsBStr for BStr<'_> {
    ghost text_bytes = { λ s. bstr_contents s };

    fn as_bstr(&self) -> &[u8] {
        self.inner()
    }
}

impl StreamIsPartial for BStr<'_> {
    type PartialState = ();

    ghost supports_partial = { false };

    ghost partial_state = { λ _. tt };

    ghost expects_more = { λ _. false };

    ghost same_but_flag = { λ s t. s ≡ t };

    ghost flag_decides = { λ _ _ _. refl };

    ghost no_flag = { λ _ _. refl };

    ghost keeps_flag = { λ _ _ _. refl };

    fn complete(&mut self) {}

    fn restore_partial(&mut self, _state: ()) {}

    // A function without `self`, in an impl at a lifetime, does not inherit the trait's clause.
    fn is_partial_supported() -> bool
        ensures { result ≡ false }
    {
        false
    }

    fn is_partial(&self) -> bool {
        false
    }
}

/// It compares as the bytes do.
#[tactic(auto, using(winnow_match::proofs::lemmas::AnswerLemmas::source_answers))]
impl<T: ByteLiteral> Compare<T> for BStr<'_> {
    ghost compared = { λ literal r. comparison (T.literal_bytes literal) (bytes_of r) };

    ghost literal_width = { λ literal. length (T.literal_bytes literal) };

    ghost comparisons_stay = { λ literal.
        ComparisonsStay-written (λ byte. byte ∷ []) (T.literal_bytes literal) };

    #[inline(always)]
    fn compare(&self, t: T) -> CompareResult {
        t.compare_with(self.inner())
    }
}

/// It is searched as the bytes are.
#[tactic(auto, using(winnow_match::proofs::lemmas::AnswerLemmas::source_answers))]
impl<T: ByteNeedles> FindSlice<T> for BStr<'_> {
    ghost found = { λ needles r. hit (T.needle_bytes needles) (bytes_of r) };

    fn find_slice(&self, substr: T) -> Option<Range<usize>> {
        substr.find_in(self.inner())
    }
}

/// Prints the text, with U+FFFD for each maximal damaged part. A precision is the greatest number
/// of characters that are printed. No other format option changes the text.
impl fmt::Display for BStr<'_> {
    ghost output = { λ s. Some (utf8_lossy (bstr_contents s)) };

    ghost styled_output = { λ s spec. Some (lossy_text (spec_precision spec) (bstr_contents s)) };

    fn fmt<W: fmt::Write>(&self, f: &mut fmt::Formatter<W>) -> fmt::Result {
        write_lossy(self.inner(), f)
    }
}

/// Prints the escaped bytes in double quotes, each as the character of its number. `{:#?}` leaves
/// the quotes out, and no other format option changes the text. The contract promises this of
/// ASCII bytes alone.
impl fmt::Debug for BStr<'_> {
    ghost debug_output = { λ s. debug_text (bstr_contents s) };

    fn fmt<W: fmt::Write>(&self, f: &mut fmt::Formatter<W>) -> fmt::Result
        ensures writes { DisplaysOnOk W.write_str_gives f.old result
            (debug_text (bstr_contents self.now)) f.new }
        ensures styled { DisplaysStyledOnOk W.write_str_gives f.old result
            (styled_debug_text (spec_alternate (formatter_spec f.old)) (bstr_contents self.now))
            f.new }
    {
        write_debug(self.inner(), f)
    }
}

impl Default for BStr<'_> {
    ghost is_default = { λ s. bstr_contents s ≡ [] };

    fn default() -> Self {
        BStr::new(b"")
    }
}

impl<'i> From<&'i [u8]> for BStr<'i> {
    ghost from_gives = { λ bytes s. bstr_contents s ≡ bytes.now };

    fn from(bytes: &'i [u8]) -> Self {
        BStr::new(bytes)
    }
}

impl<'i> From<&'i str> for BStr<'i> {
    ghost from_gives = { λ text s. bstr_contents s ≡ text.now };

    fn from(text: &'i str) -> Self {
        BStr::new(text.as_bytes())
    }
}

impl<'i> From<BStr<'i>> for &'i [u8] {
    ghost from_gives = { λ s bytes. bytes.now ≡ bstr_contents s };

    fn from(s: BStr<'i>) -> Self {
        s.inner()
    }
}

impl PartialEq for BStr<'_> {
    ghost eq = { λ s t. pointwise nat_eq (bstr_contents s) (bstr_contents t) };

    ghost laws = { on_per bstr_contents (partial_equiv_from_equiv nat_list_eq_equiv) };

    fn eq(&self, other: &Self) -> bool {
        self.inner() == other.inner()
    }
}

impl Eq for BStr<'_> {
    ghost laws = { on_equiv bstr_contents nat_list_eq_equiv };
}

impl PartialOrd for BStr<'_> {
    ghost partial_cmp = { λ s t. Some (slice_cmp nat_cmp (bstr_contents s) (bstr_contents t)) };

    ghost laws = { on_po bstr_contents texts_po };

    fn partial_cmp(&self, other: &Self) -> Option<Ordering> {
        Some(self.cmp(other))
    }
}

impl Ord for BStr<'_> {
    ghost cmp = { λ s t. slice_cmp nat_cmp (bstr_contents s) (bstr_contents t) };

    ghost total = { on_total bstr_contents nat_list_cmp_total };

    ghost matches_partial_cmp = { λ s t. refl };

    ghost matches_eq = { λ s t. texts_ties (bstr_contents s) (bstr_contents t) };

    fn cmp(&self, other: &Self) -> Ordering {
        self.inner().cmp(other.inner())
    }
}

impl Hash for BStr<'_> {
    ghost hash_input = { λ s. fed.slice fed.u8 (bstr_contents s) };

    ghost respects_eq = { Prim.search (hashing, rules) };

    fn hash<H: Hasher>(&self, state: &mut H) {
        self.inner().hash(state);
    }
}
