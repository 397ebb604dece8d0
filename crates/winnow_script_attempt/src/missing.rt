//! `step_missing`, which returns the bytes that a waiting step lacks.

ghost use Rattle.std.specs.Prelude.{◌≡◌, ◌<◌, Some, drop, option_map};
ghost use Rattle.std.specs.Prelude.{IfOk, OnErr, IsSome};
ghost use Rattle.winnow_match.specs.Search.{hit, bytes_of_needles};
ghost use Rattle.winnow_script_attempt.specs.Settled.{IsSettled, NoneOccurs};
ghost use Rattle.winnow_script_attempt.specs.Looks.{piece_reading};
ghost use Rattle.winnow_script_attempt.specs.Missing.{letters, needle_missing, need_missing};
ghost use Rattle.winnow_script_attempt.specs.Missing.{missing};

use crate::calls::Settled;
use crate::kept::Kept;
use crate::searches::{find_from, needle_bytes, needle_of};
use std::alloc::{AllocError, Global};
use std::ops::Range;
use winnow_match::{Needles, stretch};
use winnow_script_run::{Need, SearchStep};
use winnow_sets::{AsChar, CharSet};
use winnow_stream::{AsBStr, Stream, StreamIsPartial};

// Returns n letters `a` as the missing input.
fn letters(alloc: Global, n: usize) -> Result<Option<Vec<u8>>, AllocError>
    ensures { IfOk result (λ more. option_map (λ bytes. bytes.items) more ≡ Some (letters n)) }
{
    Ok(Some(vec![in alloc; b'a'; n]?))
}

// Returns a copy of these bytes as the missing input.
fn copied(alloc: Global, bytes: &[u8]) -> Result<Option<Vec<u8>>, AllocError>
    ensures { IfOk result (λ more. option_map (λ copy. copy.items) more ≡ Some bytes.now) }
{
    Ok(Some(Vec::from_slice(alloc, bytes)?))
}

// Returns what follows the first n bytes, or nothing if there are fewer.
fn after(bytes: &[u8], n: usize) -> &[u8]
    ensures { result.now ≡ drop n bytes.now }
{
    if n <= bytes.len() {
        bytes.split_at(n).1
    } else {
        &[]
    }
}

// Returns the first place of a needle, where none stands before what is settled. Searches that it
// sets up are dropped here, so that no exit of its caller has to drop them.
fn first_hit(needles: &Needles<&[u8]>, bytes: &[u8], settled: Settled) -> Option<Range<usize>>
    requires { NoneOccurs (bytes_of_needles needles.now) bytes.now settled.width }
    ensures { result ≡ hit (bytes_of_needles needles.now) bytes.now }
{
    find_from(needles, bytes, settled, &mut None)
}

// Returns what a search is missing, where no needle stands before what is settled.
fn needle_missing<'n>(needles: &Needles<&'n [u8]>, bytes: &[u8], settled: Settled) -> &'n [u8]
    requires { NoneOccurs (bytes_of_needles needles.now) bytes.now settled.width }
    ensures { result.now ≡ needle_missing (bytes_of_needles needles.now) bytes.now }
{
    match first_hit(needles, bytes, settled) {
        None => needle_of(needles, 0),
        Some(hit) => match stretch(bytes, needles, &hit) {
            None => &[],
            Some(found) => after(
                needle_of(needles, found.needle),
                bytes.len().saturating_sub(found.place),
            ),
        },
    }
}

// Returns what is missing to meet a need.
fn need_missing<S: Kept>(
    alloc: Global,
    need: &Need<CharSet>,
    rest: S,
) -> Result<Option<Vec<u8>>, AllocError>
where
    S::Token: AsChar + Drop,
    S::Slice: Drop,
    requires { S.valid rest }
    ensures told { IfOk result (λ more. option_map (λ bytes. bytes.items) more ≡ need_missing
        S.counts_shortage S.greatest S.spell (S.remaining rest) need.now) }
    ensures refused { OnErr result
        (IsSome (need_missing S.counts_shortage S.greatest S.spell (S.remaining rest) need.now)) }
{
    match need {
        Need::Width(n) => letters(alloc, n.saturating_sub(rest.eof_offset())),
        Need::Tokens(n) => letters(alloc, rest.letters_to(*n)),
        Need::TokenOf(set) => rest.spell_one(alloc, set),
        _ => letters(alloc, 1),
    }
}

/// Returns what a step is missing on `rest`, given what it has settled. The answer is `None` if the
/// step looks for a token of a set that holds none. Memory is refused only if something is missing.
pub fn step_missing<S: Kept, L: AsBStr>(
    alloc: Global,
    step: &SearchStep<CharSet, L>,
    rest: S,
    settled: Settled,
) -> Result<Option<Vec<u8>>, AllocError>
where
    S::Token: AsChar + Drop,
    S::Slice: Drop,
    requires valid { S.valid rest }
    requires settled { IsSettled
        (piece_reading S.Token.code S.counts_shortage S.write L.text_bytes)
        step.now (S.remaining rest) settled }
    ensures told { IfOk result (λ more. option_map (λ bytes. bytes.items) more ≡ missing
        (piece_reading S.Token.code S.counts_shortage S.write L.text_bytes)
        S.greatest S.spell (S.remaining rest) step.now) }
    ensures refused { OnErr result (IsSome (missing
        (piece_reading S.Token.code S.counts_shortage S.write L.text_bytes)
        S.greatest S.spell (S.remaining rest) step.now)) }
{
    match step {
        SearchStep::Call(call) => need_missing(alloc, &call.need(), rest),
        SearchStep::Compare(literal) => {
            let more = after(literal.as_bstr(), rest.bytes().len());
            copied(alloc, more)
        }
        SearchStep::Find(needles) => {
            let needles = needle_bytes(needles);
            let more = needle_missing(&needles, rest.bytes(), settled);
            copied(alloc, more)
        }
    }
}
