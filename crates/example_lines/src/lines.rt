//! The record of a line.

ghost use Rattle.winnow.specs.Errors.{AnyError};
ghost use Rattle.winnow.specs.Answer.{outcome};
ghost use Rattle.winnow_base.specs.Flag.{flag};
ghost use Rattle.winnow.specs.Place.{stands};
ghost use Rattle.example_lines.specs.Lines.{LineSlice, OneLine, IsParser-OneLine};

use std::alloc::Global;
use winnow::combinator::terminated;
use winnow::error::EmptyError;
use winnow::reader::{Record, RecordInput};
use winnow::token::laws::hits_stay_law;
use winnow::token::{literal, take_until};
use winnow::{Failure, ModalResult, Parser};

const LINE_END: &[u8] = b"\r\n";

// Reads the bytes before the next line end, and takes the end too.
fn next_line<'b>(alloc: Global, input: &mut RecordInput<'b>) -> ModalResult<&'b [u8], EmptyError>
    ensures { LineSlice (flag input.old) (stands input.old) (outcome result (stands input.new)) }
{
    hits_stay_law();
    terminated(take_until(0.., LINE_END), literal(LINE_END)).parse_next(alloc, input)
}

/// A line, ended by CR LF: its bytes without the end.
#[derive(Drop)]
pub struct Line;

impl Record for Line {
    type Output = Vec<u8>;

    type Error = EmptyError;

    ghost means = { λ _. OneLine };

    ghost errors = { λ _. AnyError };

    ghost ready = { λ _. Unit {0} };

    ghost lawful = { λ _. IsParser-OneLine };

    fn read<'b>(
        &self,
        alloc: Global,
        input: &mut RecordInput<'b>,
    ) -> ModalResult<Vec<u8>, EmptyError> {
        match next_line(alloc, input) {
            Ok(line) => match line.to_vec(alloc) {
                Ok(copy) => Ok(copy),
                Err(refused) => Err(Failure::Refused(refused)),
            },
            Err(failure) => Err(failure),
        }
    }
}
