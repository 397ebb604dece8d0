//! The record that is read.

ghost use Rattle.winnow_parser.specs.Errors.{AnyError};
ghost use Rattle.winnow_reader.specs.Place.{IsByteSlice, SlicesStay-bytes};
ghost use Rattle.winnow_scan.specs.Scanning.{GoesOn};
ghost use Rattle.format_resp.specs.Meanings.{IsParser-Nested};
ghost use Rattle.format_resp.specs.Scan.{IsScanned};
ghost use Rattle.wb_replies.specs.Placing.{Placing, IsParser-Placing};

use crate::positions::Position;
use format_resp::{Reply, ReplyScan, ReplyTo};
use std::alloc::Global;
use winnow_error::EmptyError;
use winnow_parser::{ModalResult, Parser};
use winnow_reader::{Record, RecordInput};
use winnow_scan::Scan;
use winnow_sets::AsChar;
use winnow_stream::{AsBytes, Stream};

/// A reply, and the place that its bytes lead to from the start.
#[derive(Drop)]
pub struct Placed {
    pub reply: Reply,
    pub end: Position,
}

/// The record of a reply within limits. A reader drops the bytes that a record took, so what a
/// failure later needs of them is counted here.
#[derive(Clone, Copy, Drop)]
pub struct PlacedReply {
    pub limits: ReplyTo,
}

impl Record for PlacedReply {
    type Output = Placed;

    type Error = EmptyError;

    ghost means = { λ r.
        Placing (⟦<ReplyTo as Parser<RecordInput<'static>, EmptyError>>⟧.means r.limits) };

    ghost errors = { λ _. AnyError };

    ghost ready = { λ _. Unit {0} };

    ghost lawful = { λ r. IsParser-Placing
        (⟦<ReplyTo as Parser<RecordInput<'static>, EmptyError>>⟧.means r.limits)
        (IsParser-Nested ⟦<u8 as AsChar>⟧.code
        ⟦<RecordInput<'static> as Stream>⟧.counts_shortage IsByteSlice
        ⟦<&'static [u8] as AsBytes>⟧.bytes SlicesStay-bytes r.limits.longest r.limits.depth) };

    fn read<'b>(
        &self,
        alloc: Global,
        input: &mut RecordInput<'b>,
    ) -> ModalResult<Placed, EmptyError> {
        match self.limits.with_taken().parse_next(alloc, input) {
            Ok((reply, taken)) => Ok(Placed {
                reply,
                end: Position::start().after(taken),
            }),
            Err(failure) => Err(failure),
        }
    }
}

/// The scan is that of the reply.
impl Scan for PlacedReply {
    type State = ReplyScan;

    ghost scanned = { λ r bytes state. IsScanned r.limits.longest r.limits.depth bytes state };

    fn start(&self) -> ReplyScan {
        self.limits.start()
    }

    fn scan(&self, state: &mut ReplyScan, more: &[u8]) -> bool {
        self.limits.scan(state, more)
    }
}
