//! Laws of wrappers. A law does nothing when called: its contract is the law.

ghost use Rattle.std.specs.Prelude.{◌≡◌, ◌&&◌, ℕ, List};
ghost use Rattle.std.specs.Ordering.{on, then_cmp, bool_cmp};
ghost use Rattle.winnow_stream.specs.Checkpoint.{checkpoint_inner};
ghost use Rattle.winnow_stream.specs.SliceBytes.{SlicesHaveBytes, SlicesHaveText};
ghost use Rattle.winnow_stream.specs.declared.checkpoint.Checkpoint.{Checkpoint};
ghost use Rattle.winnow_wrap.specs.Located.{locating_inner, located_start, inner_at};
ghost use Rattle.winnow_wrap.specs.Flag.{partial_inner, flag};
ghost use Rattle.winnow_wrap.specs.declared.located.LocatingSlice.{LocatingSlice};
ghost use Rattle.winnow_wrap.specs.declared.located.Placed.{Placed};
ghost use Rattle.winnow_wrap.specs.declared.partial.Partial.{Partial};
ghost use Rattle.winnow_wrap.specs.declared.stateful.Stateful.{Stateful};

use crate::{LocatingSlice, Partial, Placed, Stateful};
use std::fmt::Debug;
use winnow_stream::{Checkpoint, Stream};

/// The law of equality of streams that know their location. They are compared by their starts and
/// by the streams inside, and their checkpoints by the checkpoint of the stream inside, whatever
/// the location.
pub fn located_equality_law<I: Stream + PartialEq>()
where
    I::Checkpoint: PartialEq,
    ensures streams { (s t : LocatingSlice I I.Checkpoint I.Rest I.Checkpoint.Rest)
        → ⟦<LocatingSlice<I> as PartialEq>⟧.eq s t
        ≡ (I.Checkpoint.eq (located_start s) (located_start t)
        && I.eq (locating_inner s) (locating_inner t)) }
    ensures checkpoints { (c d : Checkpoint (Placed I.Checkpoint I.Checkpoint.Rest)
        (LocatingSlice I I.Checkpoint I.Rest I.Checkpoint.Rest))
        → ⟦<Checkpoint<Placed<I::Checkpoint>, LocatingSlice<I>> as PartialEq>⟧.eq c d
        ≡ I.Checkpoint.eq (inner_at c) (inner_at d) }
{}

/// The law of order of streams that know their location. They are ordered as their starts are
/// and, if these are equal, as the streams inside are. Checkpoints are ordered as those of the
/// stream inside are.
pub fn located_order_law<I: Stream + Ord>()
where
    I::Checkpoint: Ord,
    ensures streams { (s t : LocatingSlice I I.Checkpoint I.Rest I.Checkpoint.Rest)
        → ⟦<LocatingSlice<I> as Ord>⟧.cmp s t
        ≡ then_cmp (on located_start I.Checkpoint.cmp) (on locating_inner I.cmp) s t }
    ensures checkpoints { (c d : Checkpoint (Placed I.Checkpoint I.Checkpoint.Rest)
        (LocatingSlice I I.Checkpoint I.Rest I.Checkpoint.Rest))
        → ⟦<Checkpoint<Placed<I::Checkpoint>, LocatingSlice<I>> as Ord>⟧.cmp c d
        ≡ I.Checkpoint.cmp (inner_at c) (inner_at d) }
{}

/// The law of equality of streams with a flag. They are compared by the stream inside and the flag,
/// and their checkpoints by the checkpoint of the stream inside.
pub fn flagged_equality_law<I: Stream + PartialEq>()
where
    I::Checkpoint: PartialEq,
    ensures streams { (s t : Partial I)
        → ⟦<Partial<I> as PartialEq>⟧.eq s t
        ≡ (I.eq (partial_inner s) (partial_inner t) && ⟦<bool as PartialEq>⟧.eq (flag s) (flag t)) }
    ensures checkpoints { (c d : Checkpoint I.Checkpoint (Partial I))
        → ⟦<Checkpoint<I::Checkpoint, Partial<I>> as PartialEq>⟧.eq c d
        ≡ I.Checkpoint.eq (checkpoint_inner c) (checkpoint_inner d) }
{}

/// The law of order of streams with a flag. They are ordered as the streams inside are and, if
/// these are equal, as the flags are, of which the one that is set is the greater. Checkpoints are
/// ordered as those of the stream inside are.
pub fn flagged_order_law<I: Stream + Ord>()
where
    I::Checkpoint: Ord,
    ensures streams { (s t : Partial I)
        → ⟦<Partial<I> as Ord>⟧.cmp s t
        ≡ then_cmp (on partial_inner I.cmp) (on flag bool_cmp) s t }
    ensures checkpoints { (c d : Checkpoint I.Checkpoint (Partial I))
        → ⟦<Checkpoint<I::Checkpoint, Partial<I>> as Ord>⟧.cmp c d
        ≡ I.Checkpoint.cmp (checkpoint_inner c) (checkpoint_inner d) }
{}

/// The law of equality of streams with a state. They are compared by the stream inside and the
/// state, and their checkpoints by the checkpoint of the stream inside.
pub fn stateful_equality_law<I: Stream + PartialEq, S: PartialEq>()
where
    I::Checkpoint: PartialEq,
    ensures streams { (s t : Stateful I S)
        → ⟦<Stateful<I, S> as PartialEq>⟧.eq s t
        ≡ (I.eq s.input t.input && S.eq s.state t.state) }
    ensures checkpoints { (c d : Checkpoint I.Checkpoint (Stateful I S))
        → ⟦<Checkpoint<I::Checkpoint, Stateful<I, S>> as PartialEq>⟧.eq c d
        ≡ I.Checkpoint.eq (checkpoint_inner c) (checkpoint_inner d) }
{}

/// The law of equality of a wrapper's checkpoints. They are compared only by what they hold: a
/// checkpoint of the stream inside and, if the wrapper keeps one, the location.
pub fn wrapper_checkpoint_equality_law<T: PartialEq, S>()
    ensures { (c d : Checkpoint T S)
        → ⟦<Checkpoint<T, S> as PartialEq>⟧.eq c d
        ≡ T.eq (checkpoint_inner c) (checkpoint_inner d) }
{}

/// The law of order of a wrapper's checkpoints: they are ordered as what they hold is.
pub fn wrapper_checkpoint_order_law<T: Ord, S>()
    ensures partial { (c d : Checkpoint T S)
        → ⟦<Checkpoint<T, S> as PartialOrd>⟧.partial_cmp c d
        ≡ T.partial_cmp (checkpoint_inner c) (checkpoint_inner d) }
    ensures total { (c d : Checkpoint T S)
        → ⟦<Checkpoint<T, S> as Ord>⟧.cmp c d
        ≡ T.cmp (checkpoint_inner c) (checkpoint_inner d) }
{}

/// The law of slices of wrappers around a stream of bytes: they have the bytes that the slices of
/// the stream inside have.
pub fn wrapper_slice_law<I: Stream<Token = u8>, S: Debug>()
    ensures located { (bytes : I.Slice → List ℕ) → SlicesHaveBytes I.is_slice bytes
        → SlicesHaveBytes ⟦<LocatingSlice<I> as Stream>⟧.is_slice bytes }
    ensures stateful { (bytes : I.Slice → List ℕ) → SlicesHaveBytes I.is_slice bytes
        → SlicesHaveBytes ⟦<Stateful<I, S> as Stream>⟧.is_slice bytes }
    ensures partial { (bytes : I.Slice → List ℕ) → SlicesHaveBytes I.is_slice bytes
        → SlicesHaveBytes ⟦<Partial<I> as Stream>⟧.is_slice bytes }
{}

/// The law of slices of wrappers around a stream of characters: they are the text that the slices
/// of the stream inside are.
pub fn wrapper_text_slice_law<I: Stream<Token = char>, S: Debug>()
    ensures located { (text_bytes : I.Slice → List ℕ) → SlicesHaveText I.is_slice text_bytes
        → SlicesHaveText ⟦<LocatingSlice<I> as Stream>⟧.is_slice text_bytes }
    ensures stateful { (text_bytes : I.Slice → List ℕ) → SlicesHaveText I.is_slice text_bytes
        → SlicesHaveText ⟦<Stateful<I, S> as Stream>⟧.is_slice text_bytes }
    ensures partial { (text_bytes : I.Slice → List ℕ) → SlicesHaveText I.is_slice text_bytes
        → SlicesHaveText ⟦<Partial<I> as Stream>⟧.is_slice text_bytes }
{}
