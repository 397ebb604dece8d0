//! The ghost members of ranges of counts, of accumulators, and of values read from what was taken,
//! spelled out.
ghost use Rattle.std.specs.Prelude.{◌≡◌, ◌-◌, ℕ, List, length, Some, None};
ghost use Rattle.std.specs.Borrow.{Bor};
ghost use Rattle.std.specs.BTreeMap as ordered_map;
ghost use Rattle.std.specs.BTreeSet as ordered_set;
ghost use Rattle.std.specs.Cow.{cow_str_bytes};
ghost use Rattle.std.specs.HashMap as hashed_map;
ghost use Rattle.std.specs.HashSet as hashed_set;
ghost use Rattle.std.specs.Int.{w8, w16, w32, w64, w128};
ghost use Rattle.std.specs.List.{flat_map};
ghost use Rattle.std.specs.Ordering.{eq_by_cmp};
ghost use Rattle.std.specs.Range.{range_inclusive_start, range_inclusive_end};
ghost use Rattle.std.specs.Str.{encode_utf8_all};
ghost use Rattle.std.specs.String.{string_bytes};
ghost use Rattle.winnow_count.specs.Reading.{ReadsUnsigned, ReadsSigned, ReadsBool, ReadsChar};
ghost use Rattle.winnow_count.specs.Accumulation.{HasKeys, HasLastValues};
ghost use Rattle.winnow_count.specs.CountRange.{least_count, greatest_count};
ghost use Rattle.winnow_count.specs.declared.range.Range as counted;

use std::alloc::Global;
use std::borrow::CowStr;
use std::collections::{BTreeMap, BTreeSet, HashMap, HashSet, VecDeque};
use std::hash::Hash;
use std::ops;
use winnow_count::{Accumulate, Range, Readable};

/// A range of counts is made from a number, which is its only count, or from any range of numbers.
/// A half-open range ends one below its end, but not below 0.
pub fn counts_members()
    ensures one { (n : ℕ) (r : counted.Range) → ⟦<Range as From<usize>>⟧.from_gives n r
        → (least_count r ≡ n) × (greatest_count r ≡ Some n) }
    ensures half_open { (from : _) (r : counted.Range)
        → ⟦<Range as From<ops::Range<usize>>>⟧.from_gives from r
        → (least_count r ≡ from.start) × (greatest_count r ≡ Some (from.end - 1)) }
    ensures closed { (from : _) (r : counted.Range)
        → ⟦<Range as From<ops::RangeInclusive<usize>>>⟧.from_gives from r
        → (least_count r ≡ range_inclusive_start from)
        × (greatest_count r ≡ Some (range_inclusive_end from)) }
    ensures from_start { (from : _) (r : counted.Range)
        → ⟦<Range as From<ops::RangeFrom<usize>>>⟧.from_gives from r
        → (least_count r ≡ from.start) × (greatest_count r ≡ None) }
    ensures below { (from : _) (r : counted.Range)
        → ⟦<Range as From<ops::RangeTo<usize>>>⟧.from_gives from r
        → (least_count r ≡ 0) × (greatest_count r ≡ Some (from.end - 1)) }
    ensures up_to { (from : _) (r : counted.Range)
        → ⟦<Range as From<ops::RangeToInclusive<usize>>>⟧.from_gives from r
        → (least_count r ≡ 0) × (greatest_count r ≡ Some from.end) }
    ensures all { (from : _) (r : counted.Range)
        → ⟦<Range as From<ops::RangeFull>>⟧.from_gives from r
        → (least_count r ≡ 0) × (greatest_count r ≡ None) }
{}

/// An accumulator that keeps nothing, or only counts, asks for no memory, so it is never refused
/// any.
pub fn memoryless_members<T: Drop>()
    ensures nothing { ⟦<() as Accumulate<T>>⟧.refusable → ⊥ }
    ensures count { ⟦<usize as Accumulate<T>>⟧.refusable → ⊥ }
{}

/// A count is that of the items, and a list has the items, or those of all slices, in their order.
pub fn held_items_members<T: Copy + Drop + 'static>()
    ensures count { (count : ℕ) (items : List T)
        → ⟦<usize as Accumulate<T>>⟧.holds count items → count ≡ length items }
    ensures list { (vector : _) (items : List T)
        → ⟦<Vec<T> as Accumulate<T>>⟧.holds vector items → vector.items ≡ items }
    ensures slices { (vector : _) (slices : List (Bor (List T)))
        → ⟦<Vec<T> as Accumulate<&'static [T]>>⟧.holds vector slices
        → vector.items ≡ flat_map (λ slice. slice.now) slices }
    ensures queue { (queue : _) (slices : List (Bor (List T)))
        → ⟦<VecDeque<T> as Accumulate<&'static [T]>>⟧.holds queue slices
        → queue.items ≡ flat_map (λ slice. slice.now) slices }
{}

/// A text has the UTF-8 of the characters, or the bytes of the texts, in their order.
pub fn held_texts_members()
    ensures characters { (text : _) (characters : List ℕ)
        → ⟦<String as Accumulate<char>>⟧.holds text characters
        → string_bytes text ≡ encode_utf8_all characters }
    ensures pieces { (text : _) (pieces : List (Bor (List ℕ)))
        → ⟦<String as Accumulate<&'static str>>⟧.holds text pieces
        → string_bytes text ≡ flat_map (λ piece. piece.now) pieces }
    ensures cows { (text : _) (pieces : _)
        → ⟦<String as Accumulate<CowStr<'static, Global>>>⟧.holds text pieces
        → string_bytes text ≡ flat_map cow_str_bytes pieces }
    ensures strings { (text : _) (pieces : _)
        → ⟦<String as Accumulate<String>>⟧.holds text pieces
        → string_bytes text ≡ flat_map string_bytes pieces }
{}

/// The same of a text that is borrowed as long as it can be.
pub fn held_cows_members()
    ensures characters { (text : _) (characters : List ℕ)
        → ⟦<CowStr<'static, Global> as Accumulate<char>>⟧.holds text characters
        → cow_str_bytes text ≡ encode_utf8_all characters }
    ensures pieces { (text : _) (pieces : List (Bor (List ℕ)))
        → ⟦<CowStr<'static, Global> as Accumulate<&'static str>>⟧.holds text pieces
        → cow_str_bytes text ≡ flat_map (λ piece. piece.now) pieces }
    ensures cows { (text : _) (pieces : _)
        → ⟦<CowStr<'static, Global> as Accumulate<CowStr<'static, Global>>>⟧.holds text pieces
        → cow_str_bytes text ≡ flat_map cow_str_bytes pieces }
    ensures strings { (text : _) (pieces : _)
        → ⟦<CowStr<'static, Global> as Accumulate<String>>⟧.holds text pieces
        → cow_str_bytes text ≡ flat_map string_bytes pieces }
{}

/// A set has the keys, and a map has the last value of each key.
pub fn held_keys_members<K: Ord + Hash + Drop, V: Drop>()
    ensures ordered_set { (keys : _) (items : List K)
        → ⟦<BTreeSet<K> as Accumulate<K>>⟧.holds keys items
        → HasKeys (eq_by_cmp K.cmp) (ordered_set.contains K.cmp keys) items }
    ensures ordered_map { (map : _) (pairs : List (K × V))
        → ⟦<BTreeMap<K, V> as Accumulate<(K, V)>>⟧.holds map pairs
        → HasLastValues (eq_by_cmp K.cmp) (ordered_map.get K.cmp map) pairs }
    ensures hashed_set { (keys : _) (items : List K)
        → ⟦<HashSet<K> as Accumulate<K>>⟧.holds keys items
        → HasKeys K.eq (hashed_set.contains K.eq keys) items }
    ensures hashed_map { (map : _) (pairs : List (K × V))
        → ⟦<HashMap<K, V> as Accumulate<(K, V)>>⟧.holds map pairs
        → HasLastValues K.eq (hashed_map.get K.eq map) pairs }
{}

/// A number is read exactly where it is one of its width, and a flag and a character where they are
/// written.
pub fn unsigned_reading_members()
    ensures u8 { (text : List ℕ) (n : ℕ)
        → (⟦<u8 as Readable>⟧.reads text n → ReadsUnsigned 8 text n)
        × (ReadsUnsigned 8 text n → ⟦<u8 as Readable>⟧.reads text n) }
    ensures u16 { (text : List ℕ) (n : ℕ)
        → (⟦<u16 as Readable>⟧.reads text n → ReadsUnsigned 16 text n)
        × (ReadsUnsigned 16 text n → ⟦<u16 as Readable>⟧.reads text n) }
    ensures u32 { (text : List ℕ) (n : ℕ)
        → (⟦<u32 as Readable>⟧.reads text n → ReadsUnsigned 32 text n)
        × (ReadsUnsigned 32 text n → ⟦<u32 as Readable>⟧.reads text n) }
    ensures u64 { (text : List ℕ) (n : ℕ)
        → (⟦<u64 as Readable>⟧.reads text n → ReadsUnsigned 64 text n)
        × (ReadsUnsigned 64 text n → ⟦<u64 as Readable>⟧.reads text n) }
    ensures u128 { (text : List ℕ) (n : ℕ)
        → (⟦<u128 as Readable>⟧.reads text n → ReadsUnsigned 128 text n)
        × (ReadsUnsigned 128 text n → ⟦<u128 as Readable>⟧.reads text n) }
    ensures usize { (text : List ℕ) (n : ℕ)
        → (⟦<usize as Readable>⟧.reads text n → ReadsUnsigned 64 text n)
        × (ReadsUnsigned 64 text n → ⟦<usize as Readable>⟧.reads text n) }
    ensures bool { (text : List ℕ) (b : _)
        → (⟦<bool as Readable>⟧.reads text b → ReadsBool text b)
        × (ReadsBool text b → ⟦<bool as Readable>⟧.reads text b) }
    ensures char { (text : List ℕ) (c : ℕ)
        → (⟦<char as Readable>⟧.reads text c → ReadsChar text c)
        × (ReadsChar text c → ⟦<char as Readable>⟧.reads text c) }
{}

/// A signed number is read exactly if it is one of its width.
pub fn signed_reading_members()
    ensures i8 { (text : List ℕ) (n : _)
        → (⟦<i8 as Readable>⟧.reads text n → ReadsSigned w8 text n)
        × (ReadsSigned w8 text n → ⟦<i8 as Readable>⟧.reads text n) }
    ensures i16 { (text : List ℕ) (n : _)
        → (⟦<i16 as Readable>⟧.reads text n → ReadsSigned w16 text n)
        × (ReadsSigned w16 text n → ⟦<i16 as Readable>⟧.reads text n) }
    ensures i32 { (text : List ℕ) (n : _)
        → (⟦<i32 as Readable>⟧.reads text n → ReadsSigned w32 text n)
        × (ReadsSigned w32 text n → ⟦<i32 as Readable>⟧.reads text n) }
    ensures i64 { (text : List ℕ) (n : _)
        → (⟦<i64 as Readable>⟧.reads text n → ReadsSigned w64 text n)
        × (ReadsSigned w64 text n → ⟦<i64 as Readable>⟧.reads text n) }
    ensures i128 { (text : List ℕ) (n : _)
        → (⟦<i128 as Readable>⟧.reads text n → ReadsSigned w128 text n)
        × (ReadsSigned w128 text n → ⟦<i128 as Readable>⟧.reads text n) }
    ensures isize { (text : List ℕ) (n : _)
        → (⟦<isize as Readable>⟧.reads text n → ReadsSigned w64 text n)
        × (ReadsSigned w64 text n → ⟦<isize as Readable>⟧.reads text n) }
{}
