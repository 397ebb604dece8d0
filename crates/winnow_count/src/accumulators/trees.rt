//! `BTreeMap` and `BTreeSet` as accumulators.

ghost use Rattle.std.specs.Prelude.{true, Some, IsOk, IfOk, OnErr, ⊤};
ghost use Rattle.std.specs.BTreeMap as map;
ghost use Rattle.std.specs.BTreeSet as set;
ghost use Rattle.std.specs.Ordering.{eq_by_cmp};
ghost use Rattle.std.proofs.Common.{rules};
ghost use Rattle.winnow_count.specs.Accumulation.{HasKeys, HasLastValues};
ghost use Rattle.winnow_count.specs.AccumulationLaws.{tree_map_starts, tree_map_stays};
ghost use Rattle.winnow_count.specs.AccumulationLaws.{tree_map_taken};
ghost use Rattle.winnow_count.specs.AccumulationLaws.{tree_set_starts, tree_set_stays};
ghost use Rattle.winnow_count.specs.AccumulationLaws.{tree_set_taken};

use crate::Accumulate;
use std::alloc::{AllocError, Global};
use std::collections::{BTreeMap, BTreeSet};

/// Keeps the last value of each key.
impl<K: Ord + Drop, V: Drop> Accumulate<(K, V)> for BTreeMap<K, V> {
    ghost holds = { λ m pairs. HasLastValues (eq_by_cmp K.cmp) (map.get K.cmp m) pairs };

    ghost starts = { λ _ m. map.IsEmpty m };

    ghost takes = { λ old pair new. map.Updates K.cmp old new pair.0 (Some pair.1) };

    ghost stays = { map.IsUnchanged };

    fn initial(alloc: Global, _capacity: Option<usize>) -> Result<Self, AllocError>
        ensures made { IsOk result }
        ensures empty { IfOk result map.IsEmpty }
        ensures refused { OnErr result ⊤ }
    {
        Ok(BTreeMap::new(alloc))
    }

    fn accumulate(&mut self, _alloc: Global, pair: (K, V)) -> Result<(), AllocError> {
        let (key, value) = pair;
        self.insert(key, value)?;
        Ok(())
    }

    ghost holds_starts = { tree_map_starts K.cmp };

    ghost holds_taken = { tree_map_taken K.total };

    ghost holds_stays = { tree_map_stays K.cmp };

    ghost fits = { Prim.search rules };
}

/// Keeps the keys.
impl<K: Ord + Drop> Accumulate<K> for BTreeSet<K> {
    ghost holds = { λ s keys. HasKeys (eq_by_cmp K.cmp) (set.contains K.cmp s) keys };

    ghost starts = { λ _ s. set.IsEmpty s };

    ghost takes = { λ old key new. set.Updates K.cmp old new key true };

    ghost stays = { set.IsUnchanged };

    fn initial(alloc: Global, _capacity: Option<usize>) -> Result<Self, AllocError>
        ensures made { IsOk result }
        ensures empty { IfOk result set.IsEmpty }
        ensures refused { OnErr result ⊤ }
    {
        Ok(BTreeSet::new(alloc))
    }

    fn accumulate(&mut self, _alloc: Global, key: K) -> Result<(), AllocError> {
        self.insert(key)?;
        Ok(())
    }

    ghost holds_starts = { tree_set_starts K.cmp };

    ghost holds_taken = { tree_set_taken K.total };

    ghost holds_stays = { tree_set_stays K.cmp };

    ghost fits = { Prim.search rules };
}
