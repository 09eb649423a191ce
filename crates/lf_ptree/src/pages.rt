//! Pages, the middle level: where a key stands among them, and a pair that is put into one.
ghost use Rattle.std.specs.Prelude.{◌≡◌, ◌<◌, ◌+◌, ◌++◌, ◌∷◌, IfOk, [], length, insert, slice_set};
ghost use Rattle.std.specs.Arc.{arc_value};
ghost use Rattle.std.specs.Option.{option_copied};
ghost use Rattle.lf_ptree.specs.Pairs.{put_pair, value_at, pairs_of, Ascends};
ghost use Rattle.lf_ptree.specs.Pages.{flat, groups, HasPair, IsMap, IsGrouped, IsGroupFor, head_order, page_pairs, IsRebuilt};

use crate::page::{Page, insert_at, place_of, set_at, with_pair};
use lf_base::Memory;
use std::alloc::Global;
use std::cmp::Ordering;
use std::sync::Arc;

// The most pairs of a page. The proof of `with_page` names the half of it.
const PAGE: usize = 64;

// How the first key of a page stands to a key.
fn order_beside<K: Ord, V>(page: &Arc<Page<K, V>>, key: &K) -> Ordering
    ensures { result ≡ head_order K.cmp key.now (page_pairs (arc_value page.now)) }
{
    match page.pairs.first() {
        Some(pair) => pair.0.cmp(key),
        None => Ordering::Less,
    }
}

/// The page in which the key stands or would stand.
pub fn page_for<K: Ord, V>(pages: &[Arc<Page<K, V>>], key: &K) -> usize
    requires map { IsMap K.cmp pages.now }
    requires some { 0 < length pages.now }
    ensures { IsGroupFor K.cmp (groups pages.now) key.now result }
{
    match pages.binary_search_by(|page| order_beside(page, key)) {
        Ok(at) => at,
        Err(at) => at.saturating_sub(1),
    }
}

/// The value at a key.
pub fn value_among<'a, K: Ord, V>(pages: &'a [Arc<Page<K, V>>], key: &K) -> Option<&'a V>
    requires { IsMap K.cmp pages.now }
    ensures { option_copied result ≡ value_at K.cmp key.now (flat pages.now) }
{
    if pages.is_empty() {
        return None;
    }
    let at = page_for(pages, key);
    value_in(pages[at].pairs.as_slice(), key)
}

fn value_in<'a, K: Ord, V>(pairs: &'a [Arc<(K, V)>], key: &K) -> Option<&'a V>
    requires { Ascends K.cmp (pairs_of pairs.now) }
    ensures { option_copied result ≡ value_at K.cmp key.now (pairs_of pairs.now) }
{
    match place_of(pairs, key) {
        Ok(at) => Some(&pairs[at].1),
        Err(_) => None,
    }
}

/// The pages with the pairs of one of them written anew, as two pages where they are many.
fn with_page<K: Drop, V: Drop>(
    alloc: Global,
    pages: &[Arc<Page<K, V>>],
    at: usize,
    pairs: Vec<Arc<(K, V)>>,
) -> Result<Vec<Arc<Page<K, V>>>, Memory>
    requires in_range { at < length pages.now }
    requires some { HasPair (pairs_of pairs.items) }
    ensures { IfOk result
        (λ made. IsRebuilt (groups pages.now) at (pairs_of pairs.items) (groups made.items)) }
{
    if pairs.len() <= PAGE {
        return set_at(alloc, pages, at, Page { pairs });
    }
    let mut lower = pairs;
    let upper = lower.split_off(PAGE / 2)?;
    let halved = set_at(alloc, pages, at, Page { pairs: lower })?;
    insert_at(alloc, halved.as_slice(), at + 1, Page { pairs: upper })
}

// The page of one pair.
pub fn first_page<K: Ord + Drop, V: Drop>(
    alloc: Global,
    key: K,
    value: V,
) -> Result<Vec<Arc<Page<K, V>>>, Memory>
    ensures { IfOk result (λ made. groups made.items ≡ ((key, value) ∷ []) ∷ []) }
{
    let mut pairs = Vec::new(alloc);
    pairs.push(Arc::new(alloc, (key, value))?)?;
    let mut made = Vec::new(alloc);
    made.push(Arc::new(alloc, Page { pairs })?)?;
    Ok(made)
}

/// The pages with one pair put among them.
pub fn put_in_pages<K: Ord + Drop, V: Drop>(
    alloc: Global,
    pages: &[Arc<Page<K, V>>],
    key: K,
    value: V,
) -> Result<Vec<Arc<Page<K, V>>>, Memory>
    requires { IsMap K.cmp pages.now }
    ensures pairs { IfOk result (λ made. flat made.items ≡ put_pair K.cmp key value (flat pages.now)) }
    ensures map { IfOk result (λ made. IsMap K.cmp made.items) }
{
    if pages.is_empty() {
        return first_page(alloc, key, value);
    }
    let at = page_for(pages, &key);
    let pairs = with_pair(alloc, pages[at].pairs.as_slice(), key, value)?;
    with_page(alloc, pages, at, pairs)
}
