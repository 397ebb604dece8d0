//! Reading values that hold values of their own type.

ghost use Rattle.std.specs.Prelude.{◌≡◌};
ghost use Rattle.winnow_parser.specs.Answer.{ahead, outcome};
ghost use Rattle.winnow_codec.specs.Formats.{Reads};
ghost use Rattle.winnow_codec.specs.Lists.{SpellsTimes};
ghost use Rattle.winnow_codec_nested.specs.Layered.{SpellsNested, listed};

use crate::Layered;
use std::alloc::Global;
use winnow_codec::Format;
use winnow_error::ParserError;
use winnow_parser::{Failure, ModalResult};
use winnow_stream::StreamIsPartial;

// Reads a value of at most this many layers.
#[cycle(reading)]
pub(crate) fn read_value<L, H, I, E>(
    layers: &L,
    heads: &H,
    depth: usize,
    alloc: Global,
    input: &mut I,
) -> ModalResult<L::Value, E>
where
    L: Layered<Heads = H>,
    H: Format,
    H::Value: Drop,
    I: StreamIsPartial<Token = u8>,
    E: ParserError<I>,
    requires { I.valid input.old }
    ensures means { Reads
        (SpellsNested (H.spells heads.now) L.head_of L.held L.count_after depth)
        (I.expects_more input.old) (ahead I.location I.remaining input.old)
        (outcome result (ahead I.location I.remaining input.new)) }
    ensures valid { I.valid input.new }
    ensures kept { I.keeps input.old input.new }
{
    if depth == 0 {
        return Err(Failure::Backtrack(E::from_input(alloc, input)));
    }
    let head = match heads.read(alloc, input) {
        Ok(head) => head,
        Err(failure) => return Err(failure),
    };
    let count = layers.count_after(&head);
    match read_inners(layers, heads, depth - 1, count, alloc, input) {
        Ok(inners) => match layers.join(alloc, head, inners) {
            Ok(value) => Ok(value),
            Err(refused) => Err(Failure::Refused(refused)),
        },
        Err(failure) => Err(failure),
    }
}

// Reads that many values. Memory is asked for as values come, never for the count.
#[cycle(reading)]
fn read_inners<L, H, I, E>(
    layers: &L,
    heads: &H,
    depth: usize,
    count: u128,
    alloc: Global,
    input: &mut I,
) -> ModalResult<Vec<L::Value>, E>
where
    L: Layered<Heads = H>,
    H: Format,
    H::Value: Drop,
    I: StreamIsPartial<Token = u8>,
    E: ParserError<I>,
    requires { I.valid input.old }
    ensures means { Reads (SpellsTimes
        (SpellsNested (H.spells heads.now) L.head_of L.held L.count_after depth) count)
        (I.expects_more input.old) (ahead I.location I.remaining input.old)
        (outcome (listed result) (ahead I.location I.remaining input.new)) }
    ensures valid { I.valid input.new }
    ensures kept { I.keeps input.old input.new }
{
    let mut values = Vec::new(alloc);
    for _k in 0..count {
        match read_value(layers, heads, depth, alloc, input) {
            Ok(value) => match values.push(value) {
                Ok(()) => {}
                Err(failed) => return Err(Failure::Refused(failed.into())),
            },
            Err(failure) => return Err(failure),
        }
    }
    Ok(values)
}
