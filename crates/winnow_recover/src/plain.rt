//! Streams that record nothing, and refuse each error.
ghost use Rattle.std.specs.Prelude.{◌≡◌, true, false, refl};
ghost use Rattle.std.proofs.Common.{sym, ap};
ghost use Rattle.winnow_views.specs.TokenPlaces.{whole_of};

use crate::{RecordError, Recover};
use std::fmt::Debug;
use winnow_kinds::BStr;
use winnow_stream::Checkpoint;
use winnow_stream_bytes::Bytes;
use winnow_views::{TokenSlice, TokenView};

impl<'i, T: Copy + Debug, E> Recover<E> for &'i [T] {
    ghost refuses_unsupported = { λ _ _ _. refl };

    ghost unchanged_keeps = { λ _ _ _. tt };

    ghost records_keeps = { λ _ _ _ _ _ _ recorded. absurd recorded };

    fn record_err(
        &mut self,
        _token_start: &Checkpoint<&'i [T], &'i [T]>,
        _err_start: &Checkpoint<&'i [T], &'i [T]>,
        err: E,
    ) -> Result<(), RecordError<E>> {
        Err(RecordError::Refused(err))
    }

    fn is_recovery_supported() -> bool {
        false
    }
}

impl<'i, E> Recover<E> for &'i str {
    ghost refuses_unsupported = { λ _ _ _. refl };

    ghost unchanged_keeps = { λ _ _ _. tt };

    ghost records_keeps = { λ _ _ _ _ _ _ recorded. absurd recorded };

    fn record_err(
        &mut self,
        _token_start: &Checkpoint<&'i str, &'i str>,
        _err_start: &Checkpoint<&'i str, &'i str>,
        err: E,
    ) -> Result<(), RecordError<E>> {
        Err(RecordError::Refused(err))
    }

    // A function without `self`, in an impl at a lifetime, does not inherit the trait's clause.
    fn is_recovery_supported() -> bool
        ensures { result ≡ false }
    {
        false
    }
}

impl<'i, E> Recover<E> for BStr<'i> {
    ghost refuses_unsupported = { λ _ _ _. refl };

    ghost unchanged_keeps = { λ _ _ _. tt };

    ghost records_keeps = { λ _ _ _ _ _ _ recorded. absurd recorded };

    fn record_err(
        &mut self,
        _token_start: &Checkpoint<BStr<'i>, BStr<'i>>,
        _err_start: &Checkpoint<BStr<'i>, BStr<'i>>,
        err: E,
    ) -> Result<(), RecordError<E>> {
        Err(RecordError::Refused(err))
    }

    // A function without `self`, in an impl at a lifetime, does not inherit the trait's clause.
    fn is_recovery_supported() -> bool
        ensures { result ≡ false }
    {
        false
    }
}

impl<'i, E> Recover<E> for Bytes<'i> {
    ghost refuses_unsupported = { λ _ _ _. refl };

    ghost unchanged_keeps = { λ _ _ _. tt };

    ghost records_keeps = { λ _ _ _ _ _ _ recorded. absurd recorded };

    fn record_err(
        &mut self,
        _token_start: &Checkpoint<Bytes<'i>, Bytes<'i>>,
        _err_start: &Checkpoint<Bytes<'i>, Bytes<'i>>,
        err: E,
    ) -> Result<(), RecordError<E>> {
        Err(RecordError::Refused(err))
    }

    // A function without `self`, in an impl at a lifetime, does not inherit the trait's clause.
    fn is_recovery_supported() -> bool
        ensures { result ≡ false }
    {
        false
    }
}

impl<'t, T: Debug, E> Recover<E> for TokenSlice<'t, T> {
    ghost refuses_unsupported = { λ _ _ _. refl };

    ghost unchanged_keeps = { λ s t same. ap whole_of (sym same) };

    ghost records_keeps = { λ _ _ _ _ _ _ recorded. absurd recorded };

    fn record_err(
        &mut self,
        _token_start: &Checkpoint<TokenView<'t, T>, TokenSlice<'t, T>>,
        _err_start: &Checkpoint<TokenView<'t, T>, TokenSlice<'t, T>>,
        err: E,
    ) -> Result<(), RecordError<E>> {
        Err(RecordError::Refused(err))
    }

    fn is_recovery_supported() -> bool {
        false
    }
}
