//! `Limited`: a record of at most a number of bytes.

ghost use Rattle.std.specs.Prelude.{IfErr};
ghost use Rattle.winnow_parser.specs.Answer.{outcome};
ghost use Rattle.winnow_wrap.specs.Flag.{flag};
ghost use Rattle.winnow_reader.specs.Place.{stands};
ghost use Rattle.winnow_reader_limit.specs.Within.{Within};
ghost use Rattle.winnow_reader_limit.specs.Why.{TellsWhy};
ghost use Rattle.winnow_reader_limit.specs.LimitTelling.{LimitErrors};
ghost use Rattle.winnow_reader_limit.specs.WithinLaws.{IsParser-Within};

use crate::asking::ask_first;
use std::alloc::Global;
use winnow_parser::ModalResult;
use winnow_reader::{Record, RecordInput};
use winnow_stream::{Location, Stream, StreamIsPartial};

/// Why a record with a limit failed.
#[derive(Debug, Drop, PartialEq, Eq)]
pub enum LimitedError<E> {
    /// The record needs more bytes than it may have
    TooLong,
    /// The record failed within these bytes
    Failed(E),
}

/// A record of at most a number of bytes; [`limited`](crate::limited) makes it.
///
/// The record is called on the first bytes ahead, at most that number. If more are ahead, it is
/// told that more may follow, and if it then needs more, it is too long: a cut at its start. If no
/// more are ahead, what it needs is needed, but at most one byte more than it may have. So a record
/// that ends where the input ends may have that number of bytes too.
#[derive(Drop)]
pub struct Limited<R> {
    pub(crate) inner: R,
    pub(crate) greatest: usize,
}

impl<R: Record> Record for Limited<R> {
    type Output = R::Output;

    type Error = LimitedError<R::Error>;

    ghost means = { λ r. Within r.greatest (R.means r.inner) };

    ghost errors = { λ r. LimitErrors r.greatest (R.errors r.inner) };

    ghost ready = { λ r. R.ready r.inner };

    ghost lawful = { λ r. IsParser-Within r.greatest (R.means r.inner) (R.lawful r.inner) };

    fn read<'b>(
        &self,
        alloc: Global,
        input: &mut RecordInput<'b>,
    ) -> ModalResult<R::Output, LimitedError<R::Error>>
        requires { R.ready self.now.inner }
        ensures means { Within self.now.greatest (R.means self.now.inner) (flag input.old)
            (stands input.old) (outcome result (stands input.new)) }
        ensures why { TellsWhy self.now.greatest (R.means self.now.inner) (flag input.old)
            (stands input.old) result }
        ensures error { IfErr result (LimitErrors self.now.greatest (R.errors self.now.inner)
            (flag input.old) (stands input.old) (stands input.new)) }
    {
        let bytes = input.peek_finish();
        let place = input.current_token_start();
        let partial = input.is_partial();
        let (answer, taken) = ask_first(&self.inner, self.greatest, alloc, bytes, place, partial);
        let _ = input.next_slice(taken);
        answer
    }
}
