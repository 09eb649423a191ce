//! Pairs that are taken out, level by level. A page that loses its last pair goes; pages are never
//! joined. `PMap::remove` calls it.
ghost use Rattle.std.specs.Prelude.{◌≡◌, ◌<◌, IfOk, length, map};
ghost use Rattle.std.specs.List.{remove};
ghost use Rattle.std.specs.Arc.{arc_value};
ghost use Rattle.lf_ptree.specs.Pairs.{Ascends, pairs_of, without_key};
ghost use Rattle.lf_ptree.specs.Pages.{IsMap, IsRebuilt, flat, groups};
ghost use Rattle.lf_ptree.specs.Roots.{AllFull, HasFullPages, IsRoot, all_pairs, mid_groups};

use crate::page::{Page, place_of, set_at, share};
use crate::pages::page_for;
use crate::root::{Middle, middle_for};
use lf_base::Memory;
use std::alloc::Global;
use std::sync::Arc;

// Handles of the same values, without one.
fn remove_at<T: Drop>(alloc: Global, items: &[Arc<T>], at: usize) -> Result<Vec<Arc<T>>, Memory>
    requires { at < length items.now }
    ensures { IfOk result (λ made. map arc_value made.items ≡ remove (map arc_value items.now) at) }
{
    let mut made = share(alloc, items)?;
    drop(made.remove(at));
    Ok(made)
}

// The pairs of a page without that of a key.
fn without_pair<K: Ord + Drop, V: Drop>(
    alloc: Global,
    pairs: &[Arc<(K, V)>],
    key: &K,
) -> Result<Vec<Arc<(K, V)>>, Memory>
    requires { Ascends K.cmp (pairs_of pairs.now) }
    ensures { IfOk result (λ made. pairs_of made.items ≡ without_key K.cmp key.now (pairs_of pairs.now)) }
{
    match place_of(pairs, key) {
        Ok(at) => remove_at(alloc, pairs, at),
        Err(_) => share(alloc, pairs),
    }
}

// The pages with the pairs of one of them written anew, or without it where no pair is left.
fn with_fewer_pairs<K: Drop, V: Drop>(
    alloc: Global,
    pages: &[Arc<Page<K, V>>],
    at: usize,
    pairs: Vec<Arc<(K, V)>>,
) -> Result<Vec<Arc<Page<K, V>>>, Memory>
    requires { at < length pages.now }
    ensures { IfOk result
        (λ made. IsRebuilt (groups pages.now) at (pairs_of pairs.items) (groups made.items)) }
{
    if pairs.is_empty() {
        return remove_at(alloc, pages, at);
    }
    set_at(alloc, pages, at, Page { pairs })
}

// The pages without the pair of a key.
fn without_in_pages<K: Ord + Drop, V: Drop>(
    alloc: Global,
    pages: &[Arc<Page<K, V>>],
    key: &K,
) -> Result<Vec<Arc<Page<K, V>>>, Memory>
    requires { IsMap K.cmp pages.now }
    ensures pairs { IfOk result (λ made. flat made.items ≡ without_key K.cmp key.now (flat pages.now)) }
    ensures map { IfOk result (λ made. IsMap K.cmp made.items) }
{
    if pages.is_empty() {
        return Ok(Vec::new(alloc));
    }
    let at = page_for(pages, key);
    let pairs = without_pair(alloc, pages[at].pairs.as_slice(), key)?;
    with_fewer_pairs(alloc, pages, at, pairs)
}

// The middle pages with one of them written anew, or without it where no page is left.
fn with_fewer_pages<K: Drop, V: Drop>(
    alloc: Global,
    middles: &[Arc<Middle<K, V>>],
    at: usize,
    pages: Vec<Arc<Page<K, V>>>,
) -> Result<Vec<Arc<Middle<K, V>>>, Memory>
    requires in_range { at < length middles.now }
    requires full { HasFullPages pages.items }
    ensures rebuilt { IfOk result (λ made.
        IsRebuilt (mid_groups middles.now) at (flat pages.items) (mid_groups made.items)) }
    ensures full { IfOk result (λ made. AllFull middles.now → AllFull made.items) }
{
    if pages.is_empty() {
        return remove_at(alloc, middles, at);
    }
    set_at(alloc, middles, at, Middle { pages })
}

/// The middle pages without the pair of a key.
pub fn without_below<K: Ord + Drop, V: Drop>(
    alloc: Global,
    middles: &[Arc<Middle<K, V>>],
    key: &K,
) -> Result<Vec<Arc<Middle<K, V>>>, Memory>
    requires { IsRoot K.cmp middles.now }
    ensures pairs { IfOk result
        (λ made. all_pairs made.items ≡ without_key K.cmp key.now (all_pairs middles.now)) }
    ensures map { IfOk result (λ made. IsRoot K.cmp made.items) }
{
    if middles.is_empty() {
        return Ok(Vec::new(alloc));
    }
    let at = middle_for(middles, key);
    let pages = without_in_pages(alloc, middles[at].pages.as_slice(), key)?;
    with_fewer_pages(alloc, middles, at, pages)
}
