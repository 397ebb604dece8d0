//! Gathering the chunks of a quoted field, without the doubled quotes.

ghost use Rattle.std.specs.Prelude.{◌≡◌, ◌∷◌, [], ◌++◌, OnOk, OnErr, IfOk};
ghost use Rattle.std.specs.List.{flat_map};
ghost use Rattle.std.proofs.Common.{rules};
ghost use Rattle.winnow_count.specs.AccumulationLaws.{concat_taken};
ghost use Rattle.format_csv.specs.Gathering.{EndsWithQuote};

use std::alloc::{AllocError, Global};
use winnow_count::Accumulate;
use winnow_stream::AsBytes;

/// The chunks of a quoted field, each with a quote after it.
///
/// A chunk is what stands between two quotes. Where a field has several, each quote between them
/// is one that was doubled, so the value is the bytes here without the last.
#[derive(Debug, Drop)]
pub struct Chunks {
    bytes: Vec<u8>,
}

impl Chunks {
    // Returns the bytes without the last, which is a quote.
    pub(crate) fn into_value(self) -> Vec<u8>
        requires { EndsWithQuote self.bytes.items }
        ensures { result.items ++ 34 ∷ [] ≡ self.bytes.items }
    {
        let mut bytes = self.bytes;
        bytes.pop();
        bytes
    }
}

/// Appends the chunk and a quote.
impl<S: AsBytes + Drop> Accumulate<S> for Chunks {
    ghost holds = { λ all chunks.
        all.bytes.items ≡ flat_map (λ chunk. S.bytes chunk ++ 34 ∷ []) chunks };

    ghost starts = { λ _ all. all.bytes.items ≡ [] };

    ghost takes = { λ old chunk new.
        new.bytes.items ≡ old.bytes.items ++ (S.bytes chunk ++ 34 ∷ []) };

    ghost stays = { λ old new. new.bytes.items ≡ old.bytes.items };

    fn initial(alloc: Global, _capacity: Option<usize>) -> Result<Self, AllocError> {
        Ok(Chunks {
            bytes: Vec::new(alloc),
        })
    }

    fn accumulate(&mut self, _alloc: Global, chunk: S) -> Result<(), AllocError> {
        append_chunk(&mut self.bytes, chunk.as_bytes())
    }

    ghost holds_starts = { λ _ _ e. e };

    ghost holds_taken = { concat_taken (λ all. all.bytes.items)
        (λ chunk. S.bytes chunk ++ 34 ∷ []) };

    ghost holds_stays = { Prim.search rules };

    ghost fits = { Prim.search rules };
}

// Room is made first, so a refusal leaves the bytes as they were.
fn append_chunk(bytes: &mut Vec<u8>, chunk: &[u8]) -> Result<(), AllocError>
    ensures ok { OnOk result (bytes.new.items ≡ bytes.old.items ++ (chunk.now ++ 34 ∷ [])) }
    ensures err { OnErr result (bytes.new.items ≡ bytes.old.items) }
{
    bytes.reserve(chunk.len() + 1)?;
    match bytes.extend_from_slice(chunk) {
        Ok(()) => {}
        Err(_) => unreachable!(),
    }
    match bytes.push(b'"') {
        Ok(()) => Ok(()),
        Err(_) => unreachable!(),
    }
}
