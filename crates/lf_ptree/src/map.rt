//! The map that callers see, over its pages.
ghost use Rattle.std.specs.Prelude.{◌≡◌, ◌↔◌, IfOk, IsTrue, []};
ghost use Rattle.std.specs.Option.{option_copied};
ghost use Rattle.lf_ptree.specs.Pairs.{put_pair, value_at, without_key, pairs_from, pairs_below, Ascends};
ghost use Rattle.lf_ptree.specs.Ranges.{pairs_left, range_left};

use crate::build::{middles_of, pages_of};
use crate::page::share;
use crate::range::{Pairs, Range, all_from, all_of, below};
use crate::removal::without_below;
use crate::root::{Middle, put_below, value_below};
use lf_base::Memory;
use std::alloc::Global;
use std::marker::Model;
use std::sync::Arc;

/// An ordered map. Contracts see the list of its pairs in order of their keys.
///
/// A map doesn't change: `insert` and `remove` give another one, which shares all pages but those
/// on the way to the key, and every pair. It has three levels: pages of up to 64 pairs, pages of up
/// to 128 pages, and the root, which has a handle for some 2,000 to 8,192 pairs. For n pairs a look
/// takes some log n comparisons. A change takes them too, and copies a page of each level.
#[derive(Drop)]
pub struct PMap<K: Ord, V> {
    middles: Vec<Arc<Middle<K, V>>>,
}

impl<K: Ord, V> Model for PMap<K, V> {
    ghost use Rattle.std.specs.Prelude.{List};
    ghost use Rattle.std.specs.Coded.{coded_list, coded×};
    ghost use Rattle.lf_ptree.specs.Roots.{all_pairs, IsRoot};

    ghost Value = { List (K × V) };

    ghost coded = { coded_list (coded× K.code V.code) };

    ghost view = { λ m. all_pairs m.middles.items };

    ghost invariant = { λ m. IsRoot K.cmp m.middles.items };
}

impl<K: Ord, V> PMap<K, V> {
    /// The empty map. It takes no memory.
    pub fn new(alloc: Global) -> PMap<K, V>
        ensures { result ≡ [] }
    {
        PMap {
            middles: Vec::new(alloc),
        }
    }

    /// The keys of a map ascend. It does nothing.
    pub fn ascends(&self)
        ensures { Ascends K.cmp self.now }
    {
        let _ = &self.middles;
    }

    /// Whether there is no pair.
    pub fn is_empty(&self) -> bool
        ensures { IsTrue result ↔ (self.now ≡ []) }
    {
        match self.iter().next() {
            Some(_) => false,
            None => true,
        }
    }

    /// The value at a key.
    pub fn get(&self, key: &K) -> Option<&V>
        ensures { option_copied result ≡ value_at K.cmp key.now self.now }
    {
        value_below(self.middles.as_slice(), key)
    }

    /// All pairs, in order of their keys.
    pub fn iter(&self) -> Pairs<'_, K, V>
        ensures { pairs_left result ≡ self.now }
    {
        all_of(self.middles.as_slice())
    }

    /// The pairs from `low` on, in order of their keys. The first is found in some log n
    /// comparisons, and each other one in constant time.
    pub fn from<'a>(&'a self, low: &K) -> Pairs<'a, K, V>
        ensures { pairs_left result ≡ pairs_from K.cmp low.now self.now }
    {
        all_from(self.middles.as_slice(), low)
    }

    /// The pairs from `low` up to but not including `high`, in order of their keys.
    pub fn range<'a>(&'a self, low: &K, high: &'a K) -> Range<'a, K, V>
        ensures { range_left K.cmp result ≡ pairs_below K.cmp high.now (pairs_from K.cmp low.now self.now) }
    {
        below(self.from(low), high)
    }
}

impl<K: Ord + Drop, V: Drop> PMap<K, V> {
    /// The map of pairs that stand in order of their keys. It takes time in proportion to their
    /// number.
    pub fn from_sorted(alloc: Global, pairs: Vec<(K, V)>) -> Result<PMap<K, V>, Memory>
        requires { Ascends K.cmp pairs.items }
        ensures { IfOk result (λ made. made ≡ pairs.items) }
    {
        let middles = middles_of(alloc, pages_of(alloc, pairs)?)?;
        Ok(PMap { middles })
    }

    /// The map with the pair, in place of an older pair of the key. The old map stays.
    pub fn insert(&self, alloc: Global, key: K, value: V) -> Result<PMap<K, V>, Memory>
        ensures { IfOk result (λ made. made ≡ put_pair K.cmp key value self.now) }
    {
        let middles = put_below(alloc, self.middles.as_slice(), key, value)?;
        Ok(PMap { middles })
    }

    /// The same map. It copies the root.
    pub fn share(&self, alloc: Global) -> Result<PMap<K, V>, Memory>
        ensures { IfOk result (λ made. made ≡ self.now) }
    {
        let middles = share(alloc, self.middles.as_slice())?;
        Ok(PMap { middles })
    }

    /// The map without the key. The old map stays.
    pub fn remove(&self, alloc: Global, key: &K) -> Result<PMap<K, V>, Memory>
        ensures { IfOk result (λ made. made ≡ without_key K.cmp key.now self.now) }
    {
        let middles = without_below(alloc, self.middles.as_slice(), key)?;
        Ok(PMap { middles })
    }
}
