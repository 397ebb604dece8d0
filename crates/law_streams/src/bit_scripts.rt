//! A script on bits inside wrappers: what its slices say follows from the contract of `run`.
ghost use Rattle.std.specs.Prelude.{◌≡◌, ℕ, ◌+◌, ◌/◌, ◌%◌, List, [], ◌∷◌, length, IfOk, IsTrue};
ghost use Rattle.std.specs.Borrow.{Bor};
ghost use Rattle.winnow_script_run.specs.declared.script.Answer.TheVariants as answer;
ghost use Rattle.winnow_stream.specs.Front.{is_offset};
ghost use Rattle.winnow_stream.specs.SliceBytes.{SlicesHaveBytes};
ghost use Rattle.winnow_views.specs.BitSource.{bit_place};

use crate::recovery::Mode;
use std::alloc::{AllocError, Global};
use winnow_recover::Recoverable;
use winnow_script_run::{Answer, Step, run};
use winnow_stream::{AsBytes, NoSet, Stream, slice_bytes_law};
use winnow_views::{Bits, bit_slice_place_law};
use winnow_wrap::{LocatingSlice, Partial, Stateful};

/// The bits of a stream of bytes, inside each of the four wrappers.
pub type WrappedBits<I> = Partial<Stateful<LocatingSlice<Recoverable<Bits<I>, Mode>>, u32>>;

/// The answers of a script on bits.
pub type BitAnswers<T> = Vec<Answer<bool, (T, usize, usize), Vec<(usize, bool)>>>;

/// Takes bits by a script. The number of bits that remained tells the place of the slice, how many
/// whole bytes it has and how many bits it takes of the next byte.
pub fn take_by_script<I: Stream<Token = u8>>(
    alloc: Global,
    bits: &mut WrappedBits<I>,
    count: usize,
) -> Result<BitAnswers<I::Slice>, AllocError>
where
    I::Slice: AsBytes + Drop,
    requires valid { ⟦<WrappedBits<I> as Stream>⟧.valid bits.old }
    requires bytes { SlicesHaveBytes I.is_slice I.Slice.bytes }
    requires enough { IsTrue (is_offset (⟦<WrappedBits<I> as Stream>⟧.remaining bits.old) count) }
    ensures slice { let place = bit_place (⟦<WrappedBits<I> as Stream>⟧.remaining bits.old) in
        IfOk result (λ out. (bytes : I.Slice)
        × (out.items ≡ answer.Slice (bytes, place, (count + place) % 8) ∷ [])
        × (length (I.Slice.bytes bytes) ≡ (count + place) / 8)) }
{
    bit_slice_place_law::<I>();
    let script = [Step::<NoSet>::Take(count)];
    run(alloc, bits, &script)
}

/// Takes three bits from place 1 of a byte: no whole byte, from place 1, and four bits of the next
/// byte, of which the first stood before the place.
pub fn take_three_at_one<'i>(
    alloc: Global,
    bits: &mut WrappedBits<&'i [u8]>,
) -> Result<BitAnswers<&'i [u8]>, AllocError>
    requires valid { ⟦<WrappedBits<&'i [u8]> as Stream>⟧.valid bits.old }
    requires place { bit_place (⟦<WrappedBits<&'i [u8]> as Stream>⟧.remaining bits.old) ≡ 1 }
    requires enough { IsTrue
        (is_offset (⟦<WrappedBits<&'i [u8]> as Stream>⟧.remaining bits.old) 3) }
    ensures { IfOk result (λ out. (none : Bor (List ℕ)) × (none.now ≡ [])
        × (out.items ≡ answer.Slice (none, 1, 4) ∷ [])) }
{
    slice_bytes_law();
    take_by_script(alloc, bits, 3)
}
