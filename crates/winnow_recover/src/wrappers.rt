//! Wrappers that record nothing, also around a stream that records errors: only the outermost
//! `Recoverable` is asked.
ghost use Rattle.std.specs.Prelude.{true, false, refl};
ghost use Rattle.std.proofs.Common.{sym, ap, subst};
ghost use Rattle.winnow_wrap.specs.Located.{locating_inner, located_start};
ghost use Rattle.winnow_wrap.specs.Flag.{partial_inner, flag};

use crate::{RecordError, Recover};
use std::fmt::Debug;
use winnow_stream::{Checkpoint, Rest, Stream};
use winnow_views::{BitPlace, Bits};
use winnow_wrap::{LocatingSlice, Partial, Placed, Stateful};

impl<I: Recover<E> + Stream<Token = u8>, E> Recover<E> for Bits<I> {
    ghost refuses_unsupported = { λ _ _ _. refl };

    ghost unchanged_keeps = { λ s t same.
        subst (λ u. I.keeps s.input u.input) (sym same) (I.keeps_reflexive s.input) };

    ghost records_keeps = { λ _ _ _ _ _ _ recorded. absurd recorded };

    fn record_err(
        &mut self,
        _token_start: &Checkpoint<BitPlace<I::Checkpoint>, Bits<I>>,
        _err_start: &Checkpoint<BitPlace<I::Checkpoint>, Bits<I>>,
        err: E,
    ) -> Result<(), RecordError<E>> {
        Err(RecordError::Refused(err))
    }

    fn is_recovery_supported() -> bool {
        false
    }
}

impl<I, C, E> Recover<E> for LocatingSlice<I, C>
where
    I: Recover<E> + Stream<Checkpoint = C>,
    C: Rest + Copy + Debug,
{
    ghost refuses_unsupported = { λ _ _ _. refl };

    ghost unchanged_keeps = { λ s t same. (
      ap located_start (sym same),
      subst (λ u. I.keeps (locating_inner s) (locating_inner u)) (sym same)
          (I.keeps_reflexive (locating_inner s)),
    ) };

    ghost records_keeps = { λ _ _ _ _ _ _ recorded. absurd recorded };

    fn record_err(
        &mut self,
        _token_start: &Checkpoint<Placed<C>, LocatingSlice<I, C>>,
        _err_start: &Checkpoint<Placed<C>, LocatingSlice<I, C>>,
        err: E,
    ) -> Result<(), RecordError<E>> {
        Err(RecordError::Refused(err))
    }

    fn is_recovery_supported() -> bool {
        false
    }
}

impl<I: Recover<E>, S: Debug, E> Recover<E> for Stateful<I, S> {
    ghost refuses_unsupported = { λ _ _ _. refl };

    ghost unchanged_keeps = { λ s t same. (
      ap (λ u. u.state) (sym same),
      subst (λ u. I.keeps s.input u.input) (sym same) (I.keeps_reflexive s.input),
    ) };

    ghost records_keeps = { λ _ _ _ _ _ _ recorded. absurd recorded };

    fn record_err(
        &mut self,
        _token_start: &Checkpoint<I::Checkpoint, Stateful<I, S>>,
        _err_start: &Checkpoint<I::Checkpoint, Stateful<I, S>>,
        err: E,
    ) -> Result<(), RecordError<E>> {
        Err(RecordError::Refused(err))
    }

    fn is_recovery_supported() -> bool {
        false
    }
}

impl<I: Recover<E>, E> Recover<E> for Partial<I> {
    ghost refuses_unsupported = { λ _ _ _. refl };

    ghost unchanged_keeps = { λ s t same. (
      ap flag (sym same),
      subst (λ u. I.keeps (partial_inner s) (partial_inner u)) (sym same)
          (I.keeps_reflexive (partial_inner s)),
    ) };

    ghost records_keeps = { λ _ _ _ _ _ _ recorded. absurd recorded };

    fn record_err(
        &mut self,
        _token_start: &Checkpoint<I::Checkpoint, Partial<I>>,
        _err_start: &Checkpoint<I::Checkpoint, Partial<I>>,
        err: E,
    ) -> Result<(), RecordError<E>> {
        Err(RecordError::Refused(err))
    }

    fn is_recovery_supported() -> bool {
        false
    }
}
