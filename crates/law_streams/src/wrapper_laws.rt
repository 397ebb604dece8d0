//! The members of wrappers, spelled out over any stream inside.
ghost use Rattle.std.specs.Prelude.{◌≡◌, ◌||◌, ◌++◌, ℕ, List, false, is_some, not, true};
ghost use Rattle.std.specs.Borrow.{Bor};
ghost use Rattle.winnow_recover.specs.Recovering.{recoverable_inner, recorded_errors};
ghost use Rattle.winnow_recover.specs.Recovering.{records_errors, IsSame, Records};
ghost use Rattle.winnow_recover.specs.declared.recoverable.Recoverable.{Recoverable};
ghost use Rattle.winnow_stream.specs.Checkpoint.{checkpoint_inner};
ghost use Rattle.winnow_stream.specs.declared.checkpoint.Checkpoint.{Checkpoint};
ghost use Rattle.winnow_wrap.specs.Located.{locating_inner};
ghost use Rattle.winnow_wrap.specs.Flag.{partial_inner, flag};
ghost use Rattle.winnow_wrap.specs.declared.located.LocatingSlice.{LocatingSlice};
ghost use Rattle.winnow_wrap.specs.declared.partial.Partial.{Partial};
ghost use Rattle.winnow_wrap.specs.declared.stateful.Stateful.{Stateful};

use std::fmt::{Debug, Display};
use std::ops::Deref;
use winnow_error::{FromRecoverableError, ParserError};
use winnow_kinds::BStr;
use winnow_recover::{Recover, Recoverable};
use winnow_stream::{Checkpoint, Offset, Stream, StreamIsPartial};
use winnow_stream_bytes::Bytes;
use winnow_views::{Bits, TokenSlice};
use winnow_wrap::{LocatingSlice, Partial, Stateful};

/// Three wrappers around a stream.
pub type Nest<I> = Partial<Stateful<LocatingSlice<I>, u32>>;

/// Five states around a stream.
pub type FiveStates<I> = Stateful<Stateful<Stateful<Stateful<Stateful<I, u8>, u8>, u8>, u8>, u8>;

/// No call of `Stream` changes the flag of three wrappers, their state, where the whole input
/// starts, or any of five states.
pub fn nest_law<I: Stream>()
    ensures flag { (s t : Partial (Stateful
        (LocatingSlice I I.Checkpoint I.Rest I.Checkpoint.Rest) ℕ))
        → ⟦<Nest<I> as Stream>⟧.keeps s t → flag s ≡ flag t }
    ensures state { (s t : Partial (Stateful
        (LocatingSlice I I.Checkpoint I.Rest I.Checkpoint.Rest) ℕ))
        → ⟦<Nest<I> as Stream>⟧.keeps s t → (partial_inner s).state ≡ (partial_inner t).state }
    ensures start { (s t : Partial (Stateful
        (LocatingSlice I I.Checkpoint I.Rest I.Checkpoint.Rest) ℕ))
        → ⟦<Nest<I> as Stream>⟧.keeps s t
        → (partial_inner s).input.start ≡ (partial_inner t).input.start }
    ensures states { (s t : Stateful (Stateful (Stateful (Stateful (Stateful I ℕ) ℕ) ℕ) ℕ) ℕ)
        → ⟦<FiveStates<I> as Stream>⟧.keeps s t
        → (s.state ≡ t.state) × (s.input.state ≡ t.input.state)
        × (s.input.input.state ≡ t.input.input.state)
        × (s.input.input.input.state ≡ t.input.input.input.state)
        × (s.input.input.input.input.state ≡ t.input.input.input.input.state) }
{}

/// The members for texts, spelled out: each wrapper prints as the stream inside, under any format
/// options.
pub fn text_law<I: Stream + Display, S, E>()
    ensures located { (s : LocatingSlice I I.Checkpoint I.Rest I.Checkpoint.Rest)
        → ⟦<LocatingSlice<I> as Display>⟧.output s ≡ I.output (locating_inner s) }
    ensures located_styled { (s : LocatingSlice I I.Checkpoint I.Rest I.Checkpoint.Rest) (spec : _)
        → ⟦<LocatingSlice<I> as Display>⟧.styled_output s spec
        ≡ I.styled_output (locating_inner s) spec }
    ensures located_debug { (s : LocatingSlice I I.Checkpoint I.Rest I.Checkpoint.Rest)
        → ⟦<LocatingSlice<I> as Debug>⟧.debug_output s ≡ I.debug_output (locating_inner s) }
    ensures flagged { (s : Partial I)
        → ⟦<Partial<I> as Display>⟧.output s ≡ I.output (partial_inner s) }
    ensures flagged_styled { (s : Partial I) (spec : _)
        → ⟦<Partial<I> as Display>⟧.styled_output s spec ≡ I.styled_output (partial_inner s) spec }
    ensures stateful { (s : Stateful I S)
        → ⟦<Stateful<I, S> as Display>⟧.output s ≡ I.output s.input }
    ensures stateful_styled { (s : Stateful I S) (spec : _)
        → ⟦<Stateful<I, S> as Display>⟧.styled_output s spec ≡ I.styled_output s.input spec }
    ensures recording_styled { (s : Recoverable I E) (spec : _)
        → ⟦<Recoverable<I, E> as Display>⟧.styled_output s spec
        ≡ I.styled_output (recoverable_inner s) spec }
{}

/// The members of a `Recoverable`, spelled out. It refuses an error that is incomplete, and each
/// where it records none. A parser may add errors to those so far, if the stream records any.
pub fn recovery_law<I, E, R>()
where
    I: Stream,
    E: ParserError<Recoverable<I, R>>,
    R: FromRecoverableError<Recoverable<I, R>, E> + Debug,
    ensures recorded { (s t : Recoverable I R)
        (start at : Checkpoint I.Checkpoint (Recoverable I R)) (e : E)
        → ⟦<Recoverable<I, R> as Recover<E>>⟧.records s start at e t
        → Records R.recovered s start at e t }
    ensures refused { (s : Recoverable I R) (e : E)
        → ⟦<Recoverable<I, R> as Recover<E>>⟧.refuses s e
        ≡ (not (records_errors s) || is_some (E.needs e)) }
    ensures supported { ⟦<Recoverable<I, R> as Recover<E>>⟧.supports_recovery ≡ true }
    ensures unchanged { (s t : Recoverable I R) → ⟦<Recoverable<I, R> as Recover<E>>⟧.unchanged s t
        → IsSame s t }
    ensures errors_grow { (s t : Recoverable I R) → ⟦<Recoverable<I, R> as Stream>⟧.keeps s t
        → (more : List R) × (recorded_errors t ≡ recorded_errors s ++ more) }
    ensures none_added { (s t : Recoverable I R) → ⟦<Recoverable<I, R> as Stream>⟧.keeps s t
        → records_errors s ≡ false → recorded_errors s ≡ recorded_errors t }
    ensures kind_kept { (s t : Recoverable I R) → ⟦<Recoverable<I, R> as Stream>⟧.keeps s t
        → records_errors s ≡ records_errors t }
    ensures kept { (s t : Recoverable I R) → ⟦<Recoverable<I, R> as Stream>⟧.keeps s t
        → I.keeps s.input t.input }
{}

/// No other stream records errors, and so no wrapper around one that does.
pub fn refusing_law<'i, I: Recover<E> + Stream<Token = u8>, T: Copy + Debug + 'i, S: Debug, E>()
    ensures list { ⟦<&'i [T] as Recover<E>>⟧.supports_recovery ≡ false }
    ensures text { ⟦<&'i str as Recover<E>>⟧.supports_recovery ≡ false }
    ensures bstr { ⟦<BStr<'i> as Recover<E>>⟧.supports_recovery ≡ false }
    ensures bytes { ⟦<Bytes<'i> as Recover<E>>⟧.supports_recovery ≡ false }
    ensures tokens { ⟦<TokenSlice<'i, T> as Recover<E>>⟧.supports_recovery ≡ false }
    ensures bits { ⟦<Bits<I> as Recover<E>>⟧.supports_recovery ≡ false }
    ensures located { ⟦<LocatingSlice<I> as Recover<E>>⟧.supports_recovery ≡ false }
    ensures stateful { ⟦<Stateful<I, S> as Recover<E>>⟧.supports_recovery ≡ false }
    ensures flagged { ⟦<Partial<I> as Recover<E>>⟧.supports_recovery ≡ false }
{}

/// A `Recoverable` passes these calls on, and keeps its errors.
pub fn passed_on_law<I: StreamIsPartial + Display, E: Debug>()
    ensures errors_stay { (s t : Recoverable I E)
        → ⟦<Recoverable<I, E> as StreamIsPartial>⟧.same_but_flag s t
        → recorded_errors s ≡ recorded_errors t }
    ensures kind_stays { (s t : Recoverable I E)
        → ⟦<Recoverable<I, E> as StreamIsPartial>⟧.same_but_flag s t
        → records_errors s ≡ records_errors t }
    ensures inside_stays { (s t : Recoverable I E)
        → ⟦<Recoverable<I, E> as StreamIsPartial>⟧.same_but_flag s t
        → I.same_but_flag s.input t.input }
    ensures supported { ⟦<Recoverable<I, E> as StreamIsPartial>⟧.supports_partial
        ≡ I.supports_partial }
    ensures flag { (s : Recoverable I E)
        → ⟦<Recoverable<I, E> as StreamIsPartial>⟧.partial_state s ≡ I.partial_state s.input }
    ensures more { (s : Recoverable I E)
        → ⟦<Recoverable<I, E> as StreamIsPartial>⟧.expects_more s ≡ I.expects_more s.input }
    ensures text { (s : Recoverable I E)
        → ⟦<Recoverable<I, E> as Display>⟧.output s ≡ I.output s.input }
    ensures inside { (s : Recoverable I E) (t : I) → ⟦<Recoverable<I, E> as Deref>⟧.deref_gives s t
        → t ≡ s.input }
{}

/// Whatever a call does to the flag of a stream, a place and a state around it stay as they are,
/// and their flag is that of the stream; a flag belongs to no other part of the stream; and a
/// plain stream has none.
pub fn flag_law<'i, I: StreamIsPartial, S: Debug>()
    ensures start_stays { (s t : LocatingSlice I I.Checkpoint I.Rest I.Checkpoint.Rest)
        → ⟦<LocatingSlice<I> as StreamIsPartial>⟧.same_but_flag s t → s.start ≡ t.start }
    ensures location_stays { (s t : LocatingSlice I I.Checkpoint I.Rest I.Checkpoint.Rest)
        → ⟦<LocatingSlice<I> as StreamIsPartial>⟧.same_but_flag s t → s.location ≡ t.location }
    ensures located_stays { (s t : LocatingSlice I I.Checkpoint I.Rest I.Checkpoint.Rest)
        → ⟦<LocatingSlice<I> as StreamIsPartial>⟧.same_but_flag s t
        → I.same_but_flag s.input t.input }
    ensures located_supported { ⟦<LocatingSlice<I> as StreamIsPartial>⟧.supports_partial
        ≡ I.supports_partial }
    ensures located_flag { (s : LocatingSlice I I.Checkpoint I.Rest I.Checkpoint.Rest)
        → ⟦<LocatingSlice<I> as StreamIsPartial>⟧.partial_state s ≡ I.partial_state s.input }
    ensures located_more { (s : LocatingSlice I I.Checkpoint I.Rest I.Checkpoint.Rest)
        → ⟦<LocatingSlice<I> as StreamIsPartial>⟧.expects_more s ≡ I.expects_more s.input }
    ensures state_stays { (s t : Stateful I S)
        → ⟦<Stateful<I, S> as StreamIsPartial>⟧.same_but_flag s t → s.state ≡ t.state }
    ensures counted_stays { (s t : Stateful I S)
        → ⟦<Stateful<I, S> as StreamIsPartial>⟧.same_but_flag s t
        → I.same_but_flag s.input t.input }
    ensures counted_supported { ⟦<Stateful<I, S> as StreamIsPartial>⟧.supports_partial
        ≡ I.supports_partial }
    ensures counted_flag { (s : Stateful I S)
        → ⟦<Stateful<I, S> as StreamIsPartial>⟧.partial_state s ≡ I.partial_state s.input }
    ensures counted_more { (s : Stateful I S)
        → ⟦<Stateful<I, S> as StreamIsPartial>⟧.expects_more s ≡ I.expects_more s.input }
    ensures flagged_stays { (s t : Partial I)
        → ⟦<Partial<I> as StreamIsPartial>⟧.same_but_flag s t
        → partial_inner s ≡ partial_inner t }
    ensures same_bytes { (s t : Bor (List ℕ)) → ⟦<&'i [u8] as StreamIsPartial>⟧.same_but_flag s t
        → s ≡ t }
    ensures same_text { (s t : Bor (List ℕ)) → ⟦<&'i str as StreamIsPartial>⟧.same_but_flag s t
        → s ≡ t }
{}

/// The members for widths, spelled out: the two may be measured where those inside may be.
pub fn width_law<I, S, E>()
where
    I: Stream + Offset<I> + Offset<I::Checkpoint>,
    I::Checkpoint: Offset<I::Checkpoint>,
    ensures located { (s t : LocatingSlice I I.Checkpoint I.Rest I.Checkpoint.Rest)
        → I.Offset-1.can_measure (locating_inner s) (locating_inner t)
        → ⟦<LocatingSlice<I> as Offset<LocatingSlice<I>>>⟧.can_measure s t }
    ensures stateful { (s t : Stateful I S) → I.Offset-1.can_measure s.input t.input
        → ⟦<Stateful<I, S> as Offset<Stateful<I, S>>>⟧.can_measure s t }
    ensures stateful_mark { (s : Stateful I S) (c : Checkpoint I.Checkpoint (Stateful I S))
        → I.Offset-2.can_measure s.input (checkpoint_inner c)
        → ⟦<Stateful<I, S> as Offset<Checkpoint<I::Checkpoint, Stateful<I, S>>>>⟧.can_measure s c }
    ensures flagged { (s t : Partial I)
        → I.Offset-1.can_measure (partial_inner s) (partial_inner t)
        → ⟦<Partial<I> as Offset<Partial<I>>>⟧.can_measure s t }
    ensures flagged_mark { (s : Partial I) (c : Checkpoint I.Checkpoint (Partial I))
        → I.Offset-2.can_measure (partial_inner s) (checkpoint_inner c)
        → ⟦<Partial<I> as Offset<Checkpoint<I::Checkpoint, Partial<I>>>>⟧.can_measure s c }
    ensures recording { (s t : Recoverable I E)
        → I.Offset-1.can_measure (recoverable_inner s) (recoverable_inner t)
        → ⟦<Recoverable<I, E> as Offset<Recoverable<I, E>>>⟧.can_measure s t }
    ensures recording_mark { (s : Recoverable I E) (c : Checkpoint I.Checkpoint (Recoverable I E))
        → I.Offset-2.can_measure (recoverable_inner s) (checkpoint_inner c)
        → ⟦<Recoverable<I, E> as Offset<Checkpoint<I::Checkpoint, Recoverable<I, E>>>>⟧.can_measure
        s c }
{}

/// The member of what a wrapper lends, spelled out: the stream inside. A clone of a `LocatingSlice`
/// takes no memory.
pub fn lent_law<I: Stream + Copy, S: Copy>()
    ensures located { (s : LocatingSlice I I.Checkpoint I.Rest I.Checkpoint.Rest) (t : I)
        → ⟦<LocatingSlice<I> as Deref>⟧.deref_gives s t → t ≡ locating_inner s }
    ensures located_clone { (s : LocatingSlice I I.Checkpoint I.Rest I.Checkpoint.Rest)
        → ⟦<LocatingSlice<I> as Clone>⟧.is_infallible s }
    ensures stateful { (s : Stateful I S) (t : I)
        → ⟦<Stateful<I, S> as Deref>⟧.deref_gives s t → t ≡ s.input }
    ensures flagged { (s : Partial I) (t : I) → ⟦<Partial<I> as Deref>⟧.deref_gives s t
        → t ≡ partial_inner s }
{}
