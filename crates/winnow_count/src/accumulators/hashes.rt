//! `HashMap` and `HashSet` as accumulators.

ghost use Rattle.std.specs.Prelude.{◌≤◌, true, Some};
ghost use Rattle.std.specs.HashMap as map;
ghost use Rattle.std.specs.HashSet as set;
ghost use Rattle.std.proofs.Common.{rules};
ghost use Rattle.winnow_count.specs.Accumulation.{HasKeys, HasLastValues, room_of};
ghost use Rattle.winnow_count.specs.AccumulationLaws.{hash_map_starts, hash_map_stays};
ghost use Rattle.winnow_count.specs.AccumulationLaws.{hash_map_taken};
ghost use Rattle.winnow_count.specs.AccumulationLaws.{hash_set_starts, hash_set_stays};
ghost use Rattle.winnow_count.specs.AccumulationLaws.{hash_set_taken};

use super::room;
use crate::Accumulate;
use std::alloc::{AllocError, Global};
use std::collections::{HashMap, HashSet};
use std::hash::Hash;

/// Keeps the last value of each key.
impl<K: Eq + Hash + Drop, V: Drop> Accumulate<(K, V)> for HashMap<K, V> {
    ghost holds = { λ m pairs. HasLastValues K.eq (map.get K.eq m) pairs };

    ghost starts = { λ capacity m. map.IsEmpty m × (room_of capacity ≤ map.spare m) };

    ghost takes = { λ old pair new. map.Updates K.eq old new pair.0 (Some pair.1) };

    ghost stays = { map.IsUnchanged };

    fn initial(alloc: Global, capacity: Option<usize>) -> Result<Self, AllocError> {
        HashMap::with_capacity(alloc, room(capacity))
    }

    fn accumulate(&mut self, _alloc: Global, pair: (K, V)) -> Result<(), AllocError> {
        let (key, value) = pair;
        self.insert(key, value)?;
        Ok(())
    }

    ghost holds_starts = { hash_map_starts K.eq };

    ghost holds_taken = { hash_map_taken K.Eq.laws };

    ghost holds_stays = { hash_map_stays K.eq };

    ghost fits = { Prim.search rules };
}

/// Keeps the keys.
impl<K: Eq + Hash + Drop> Accumulate<K> for HashSet<K> {
    ghost holds = { λ s keys. HasKeys K.eq (set.contains K.eq s) keys };

    ghost starts = { λ capacity s. set.IsEmpty s × (room_of capacity ≤ set.spare s) };

    ghost takes = { λ old key new. set.Updates K.eq old new key true };

    ghost stays = { set.IsUnchanged };

    fn initial(alloc: Global, capacity: Option<usize>) -> Result<Self, AllocError> {
        HashSet::with_capacity(alloc, room(capacity))
    }

    fn accumulate(&mut self, _alloc: Global, key: K) -> Result<(), AllocError> {
        self.insert(key)?;
        Ok(())
    }

    ghost holds_starts = { hash_set_starts K.eq };

    ghost holds_taken = { hash_set_taken K.Eq.laws };

    ghost holds_stays = { hash_set_stays K.eq };

    ghost fits = { Prim.search rules };
}
