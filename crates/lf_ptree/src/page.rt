//! Pairs on a page, and lists of shared handles with one written anew. The levels above call it.
ghost use Rattle.std.specs.Prelude.{◌≡◌, IfErr, IfOk, map, ◌+◌, ◌<◌, length, [], ◌∷◌, ◌++◌, ◌≤◌, insert, slice_set};
ghost use Rattle.std.specs.Arc.{arc_value};
ghost use Rattle.lf_ptree.specs.Pairs.{Ascends, pairs_of, key_order, put_pair, IsAt, IsGapFor};

use lf_base::Memory;
use std::alloc::Global;
use std::cmp::Ordering;
use std::sync::Arc;

/// A page of pairs, each behind a handle of its own.
#[derive(Drop)]
pub struct Page<K, V> {
    pub pairs: Vec<Arc<(K, V)>>,
}

// How the pair's key stands to a key.
fn order_beside<K: Ord, V>(pair: &Arc<(K, V)>, key: &K) -> Ordering
    ensures { result ≡ key_order K.cmp key.now (arc_value pair.now) }
{
    pair.0.cmp(key)
}

/// Where the key is, or where it would go.
pub fn place_of<K: Ord, V>(pairs: &[Arc<(K, V)>], key: &K) -> Result<usize, usize>
    requires { Ascends K.cmp (pairs_of pairs.now) }
    ensures found { IfOk result (IsAt K.cmp (pairs_of pairs.now) key.now) }
    ensures absent { IfErr result (IsGapFor K.cmp (pairs_of pairs.now) key.now) }
{
    pairs.binary_search_by(|pair| order_beside(pair, key))
}

/// Handles of the same values, with room for one more.
pub fn share<T: Drop>(alloc: Global, items: &[Arc<T>]) -> Result<Vec<Arc<T>>, Memory>
    ensures { IfOk result (λ shared. map arc_value shared.items ≡ map arc_value items.now) }
{
    let mut shared = Vec::with_capacity(alloc, items.len() + 1)?;
    for item in items {
        shared.push(Arc::try_clone(item)?)?;
    }
    Ok(shared)
}

/// Handles of the same values, but for one.
pub fn set_at<T: Drop>(
    alloc: Global,
    items: &[Arc<T>],
    at: usize,
    value: T,
) -> Result<Vec<Arc<T>>, Memory>
    requires { at < length items.now }
    ensures { IfOk result
        (λ made. map arc_value made.items ≡ slice_set (map arc_value items.now) at value) }
{
    let mut made = share(alloc, items)?;
    made[at] = Arc::new(alloc, value)?;
    Ok(made)
}

/// Handles of the same values, and one more.
pub fn insert_at<T: Drop>(
    alloc: Global,
    items: &[Arc<T>],
    at: usize,
    value: T,
) -> Result<Vec<Arc<T>>, Memory>
    requires { at ≤ length items.now }
    ensures { IfOk result (λ made. map arc_value made.items ≡ insert (map arc_value items.now) at value) }
{
    let mut made = share(alloc, items)?;
    made.insert(at, Arc::new(alloc, value)?)?;
    Ok(made)
}

/// The pairs with one put among them.
pub fn with_pair<K: Ord + Drop, V: Drop>(
    alloc: Global,
    pairs: &[Arc<(K, V)>],
    key: K,
    value: V,
) -> Result<Vec<Arc<(K, V)>>, Memory>
    requires { Ascends K.cmp (pairs_of pairs.now) }
    ensures { IfOk result (λ made. pairs_of made.items ≡ put_pair K.cmp key value (pairs_of pairs.now)) }
{
    match place_of(pairs, &key) {
        Ok(at) => set_at(alloc, pairs, at, (key, value)),
        Err(at) => insert_at(alloc, pairs, at, (key, value)),
    }
}
