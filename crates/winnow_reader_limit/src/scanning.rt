//! The scan of a record with a limit: that of the record, up to the limit.

ghost use Rattle.winnow_reader_limit.specs.Scanned.{ScansWithin};

use crate::Limited;
use winnow_scan::Scan;

/// The state of a scan of a record with a limit.
#[derive(Drop)]
pub struct LimitedState<S> {
    // The state of the scan of the record.
    inner: S,
    // How many bytes it has gone over.
    seen: usize,
}

/// The scan of the record goes over the bytes as they come. As soon as more are ahead than the
/// record may have, the parser may be asked, and the bytes that are too many are not gone over: the
/// answer is then a value, a failure, or that the record is too long.
impl<R: Scan> Scan for Limited<R> {
    type State = LimitedState<R::State>;

    ghost scanned = { λ r bytes state. ScansWithin r.greatest (R.scanned r.inner) bytes state };

    fn start(&self) -> LimitedState<R::State> {
        LimitedState {
            inner: self.inner.start(),
            seen: 0,
        }
    }

    fn scan(&self, state: &mut LimitedState<R::State>, more: &[u8]) -> bool {
        if more.len() > self.greatest.saturating_sub(state.seen) {
            return true;
        }
        state.seen += more.len();
        self.inner.scan(&mut state.inner, more)
    }
}
