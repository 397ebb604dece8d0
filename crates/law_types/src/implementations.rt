//! What each type derives. Which traits of streams, sets, literals and needles a type implements is
//! shown where their members are spelled out.
use std::fmt::Debug;
use winnow_error::{
    AssociativeOr, EmptyError, ErrMode, FromExternalError, FromRecoverableError, InputError,
};
use winnow_error_context::{StrContext, StrContextValue};
use winnow_error_parse::ParseError;
use winnow_kinds::BStr;
use winnow_match::{CompareResult, Needles};
use winnow_recover::RecordError;
use winnow_script_run::{Answer, SearchStep, Step};
use winnow_sets::CharSet;
use winnow_stream::{Needed, NoSet, Offset, SliceLen, Stream, UpdateSlice};
use winnow_stream_bytes::Bytes;
use winnow_views::{Bits, TokenSlice};
use winnow_wrap::{LocatingSlice, Partial, Stateful};

// Each function is a list of the traits that a type implements. The calls below compile only where
// it does.

fn is_measured<S: UpdateSlice + SliceLen + Offset<S> + Offset<S::Checkpoint>>()
where
    S::Checkpoint: Offset<S::Checkpoint> + Ord,
{}

/// Each view has a window and a width.
pub fn views_have_windows_and_widths() {
    is_measured::<BStr<'static>>();
    is_measured::<Bytes<'static>>();
    is_measured::<TokenSlice<'static, u8>>();
}

fn is_error<I: Stream, E>()
where
    E: AssociativeOr<I> + FromRecoverableError<I, E> + FromExternalError<I, String>,
{}

/// `()` is an error of each stream.
pub fn unit_is_an_error<I: Stream>() {
    is_error::<I, ()>();
}

fn is_value<T: Copy + Clone + Debug + Eq>() {}

fn is_compared<T: Debug + Eq>() {}

fn is_copied<T: Copy + Clone + Debug>() {}

fn has_default<T: Default>() {}

/// Each value derives what the list of its traits says.
pub fn values_derive_what_is_listed() {
    is_value::<Needed>();
    is_value::<NoSet>();
    is_value::<EmptyError>();
    is_value::<BStr<'static>>();
    is_value::<Bytes<'static>>();
    is_value::<TokenSlice<'static, u8>>();
    is_value::<Bits<&'static [u8]>>();
    is_value::<InputError<&'static str>>();
    is_value::<ErrMode<EmptyError>>();
    is_value::<Stateful<&'static str, u8>>();
    is_value::<LocatingSlice<&'static str>>();
    is_value::<Partial<&'static str>>();
    is_value::<winnow_count::Range>();
    is_value::<ParseError<&'static str, EmptyError>>();
    is_value::<StrContext>();
    is_value::<StrContextValue>();
    is_compared::<CompareResult>();
    is_compared::<Answer<u8, &'static [u8], bool>>();
    is_compared::<RecordError<EmptyError>>();
    is_copied::<Step<NoSet>>();
    is_copied::<SearchStep<NoSet, &'static str>>();
    is_copied::<Needles<&'static str>>();
    is_copied::<CharSet<'static>>();
    has_default::<NoSet>();
    has_default::<TokenSlice<'static, u8>>();
    has_default::<Stateful<&'static str, u8>>();
}
