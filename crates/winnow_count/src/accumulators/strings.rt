//! `String` as an accumulator of characters and texts.

ghost use Rattle.std.specs.Prelude.{◌≡◌, ◌++◌, encode_utf8, IfOk, OnErr, ⊤};
ghost use Rattle.std.specs.Cow.{cow_str_bytes};
ghost use Rattle.std.specs.List.{flat_map};
ghost use Rattle.std.specs.Str.{encode_utf8_all};
ghost use Rattle.std.specs.String.{string_bytes, StringUnchanged};
ghost use Rattle.std.proofs.Common.{rules};
ghost use Rattle.winnow_count.specs.Accumulation.{StartsText};
ghost use Rattle.winnow_count.specs.AccumulationLaws.{characters_taken, concat_taken};

use super::room;
use crate::Accumulate;
use std::alloc::{AllocError, Global};
use std::borrow::CowStr;

/// Appends each character.
impl Accumulate<char> for String {
    ghost holds = { λ text characters. string_bytes text ≡ encode_utf8_all characters };

    ghost starts = { StartsText };

    ghost takes = { λ old c new. string_bytes new ≡ string_bytes old ++ encode_utf8 c };

    ghost stays = { StringUnchanged };

    fn initial(alloc: Global, capacity: Option<usize>) -> Result<Self, AllocError> {
        String::with_capacity(alloc, room(capacity))
    }

    fn accumulate(&mut self, _alloc: Global, c: char) -> Result<(), AllocError> {
        self.push(c)
    }

    ghost holds_starts = { Prim.search rules };

    ghost holds_taken = { characters_taken string_bytes };

    ghost holds_stays = { Prim.search rules };

    ghost fits = { Prim.search rules };
}

/// Appends each text.
impl<'i> Accumulate<&'i str> for String {
    ghost holds = { λ text pieces. string_bytes text ≡ flat_map (λ piece. piece.now) pieces };

    ghost starts = { StartsText };

    ghost takes = { λ old piece new. string_bytes new ≡ string_bytes old ++ piece.now };

    ghost stays = { StringUnchanged };

    fn initial(alloc: Global, capacity: Option<usize>) -> Result<Self, AllocError>
        ensures empty { IfOk result (StartsText capacity) }
        ensures refused { OnErr result ⊤ }
    {
        String::with_capacity(alloc, room(capacity))
    }

    fn accumulate(&mut self, _alloc: Global, piece: &'i str) -> Result<(), AllocError> {
        self.push_str(piece)
    }

    ghost holds_starts = { Prim.search rules };

    ghost holds_taken = { concat_taken string_bytes (λ piece. piece.now) };

    ghost holds_stays = { Prim.search rules };

    ghost fits = { Prim.search rules };
}

/// Appends each text.
impl<'i> Accumulate<CowStr<'i, Global>> for String {
    ghost holds = { λ text pieces. string_bytes text ≡ flat_map cow_str_bytes pieces };

    ghost starts = { StartsText };

    ghost takes = { λ old cow new. string_bytes new ≡ string_bytes old ++ cow_str_bytes cow };

    ghost stays = { StringUnchanged };

    fn initial(alloc: Global, capacity: Option<usize>) -> Result<Self, AllocError>
        ensures empty { IfOk result (StartsText capacity) }
        ensures refused { OnErr result ⊤ }
    {
        String::with_capacity(alloc, room(capacity))
    }

    fn accumulate(&mut self, _alloc: Global, piece: CowStr<'i, Global>) -> Result<(), AllocError> {
        self.push_str(piece.as_str())
    }

    ghost holds_starts = { Prim.search rules };

    ghost holds_taken = { concat_taken string_bytes cow_str_bytes };

    ghost holds_stays = { Prim.search rules };

    ghost fits = { Prim.search rules };
}

/// Appends each text.
impl Accumulate<String> for String {
    ghost holds = { λ text pieces. string_bytes text ≡ flat_map string_bytes pieces };

    ghost starts = { StartsText };

    ghost takes = { λ old piece new. string_bytes new ≡ string_bytes old ++ string_bytes piece };

    ghost stays = { StringUnchanged };

    fn initial(alloc: Global, capacity: Option<usize>) -> Result<Self, AllocError> {
        String::with_capacity(alloc, room(capacity))
    }

    fn accumulate(&mut self, _alloc: Global, piece: String) -> Result<(), AllocError> {
        self.push_str(piece.as_str())
    }

    ghost holds_starts = { Prim.search rules };

    ghost holds_taken = { concat_taken string_bytes string_bytes };

    ghost holds_stays = { Prim.search rules };

    ghost fits = { Prim.search rules };
}
