//! Middle pages, the upper level: where a key stands among them, and a pair that is put below them.
ghost use Rattle.std.specs.Prelude.{◌≡◌, ◌<◌, ◌≤◌, IfOk, length, map};
ghost use Rattle.std.specs.Arc.{arc_value};
ghost use Rattle.std.specs.Option.{option_copied};
ghost use Rattle.lf_ptree.specs.Pairs.{put_pair, value_at};
ghost use Rattle.lf_ptree.specs.Pages.{flat, groups, HasPair, IsGrouped, IsGroupFor, head_order, IsRebuilt};
ghost use Rattle.lf_ptree.specs.Roots.{all_pairs, mid_groups, mid_pairs, HasFullPages, AllFull, IsFirst, IsRoot};

use crate::page::{Page, insert_at, set_at};
use crate::pages::{first_page, put_in_pages, value_among};
use lf_base::Memory;
use std::alloc::Global;
use std::cmp::Ordering;
use std::sync::Arc;

// The most pages of a middle page. They are many, so that the root, which each change copies, has
// few handles. The proof of `with_middle` names the half of it.
const MIDDLE: usize = 128;

/// A page of pages.
#[derive(Drop)]
pub struct Middle<K, V> {
    pub pages: Vec<Arc<Page<K, V>>>,
}

// How the first key of a middle page stands to a key.
fn order_beside<K: Ord, V>(middle: &Arc<Middle<K, V>>, key: &K) -> Ordering
    ensures { result ≡ head_order K.cmp key.now (mid_pairs (arc_value middle.now)) }
{
    for page in middle.pages.iter() {
        if let Some(pair) = page.pairs.first() {
            return pair.0.cmp(key);
        }
    }
    Ordering::Less
}

/// The middle page in which the key stands or would stand.
pub fn middle_for<K: Ord, V>(middles: &[Arc<Middle<K, V>>], key: &K) -> usize
    requires map { IsGrouped K.cmp (mid_groups middles.now) }
    requires some { 0 < length middles.now }
    ensures { IsGroupFor K.cmp (mid_groups middles.now) key.now result }
{
    match middles.binary_search_by(|middle| order_beside(middle, key)) {
        Ok(at) => at,
        Err(at) => at.saturating_sub(1),
    }
}

/// The value at a key.
pub fn value_below<'a, K: Ord, V>(middles: &'a [Arc<Middle<K, V>>], key: &K) -> Option<&'a V>
    requires { IsRoot K.cmp middles.now }
    ensures { option_copied result ≡ value_at K.cmp key.now (all_pairs middles.now) }
{
    if middles.is_empty() {
        return None;
    }
    let at = middle_for(middles, key);
    value_among(middles[at].pages.as_slice(), key)
}

// The middle pages with one of them written anew, as two where it has many pages.
fn with_middle<K: Drop, V: Drop>(
    alloc: Global,
    middles: &[Arc<Middle<K, V>>],
    at: usize,
    pages: Vec<Arc<Page<K, V>>>,
) -> Result<Vec<Arc<Middle<K, V>>>, Memory>
    requires in_range { at < length middles.now }
    requires some { HasPair (flat pages.items) }
    requires full { HasFullPages pages.items }
    ensures rebuilt { IfOk result (λ made.
        IsRebuilt (mid_groups middles.now) at (flat pages.items) (mid_groups made.items)) }
    ensures full { IfOk result (λ made. AllFull middles.now → AllFull made.items) }
{
    if pages.len() <= MIDDLE {
        return set_at(alloc, middles, at, Middle { pages });
    }
    let mut lower = pages;
    let upper = lower.split_off(MIDDLE / 2)?;
    let halved = set_at(alloc, middles, at, Middle { pages: lower })?;
    insert_at(alloc, halved.as_slice(), at + 1, Middle { pages: upper })
}

// The middle page of one pair.
fn first_middle<K: Ord + Drop, V: Drop>(
    alloc: Global,
    key: K,
    value: V,
) -> Result<Vec<Arc<Middle<K, V>>>, Memory>
    ensures { IfOk result (λ made. IsFirst made.items (key, value)) }
{
    let pages = first_page(alloc, key, value)?;
    let mut made = Vec::new(alloc);
    made.push(Arc::new(alloc, Middle { pages })?)?;
    Ok(made)
}

/// The middle pages with one pair put among them.
pub fn put_below<K: Ord + Drop, V: Drop>(
    alloc: Global,
    middles: &[Arc<Middle<K, V>>],
    key: K,
    value: V,
) -> Result<Vec<Arc<Middle<K, V>>>, Memory>
    requires { IsRoot K.cmp middles.now }
    ensures pairs { IfOk result
        (λ made. all_pairs made.items ≡ put_pair K.cmp key value (all_pairs middles.now)) }
    ensures map { IfOk result (λ made. IsRoot K.cmp made.items) }
{
    if middles.is_empty() {
        return first_middle(alloc, key, value);
    }
    let at = middle_for(middles, &key);
    let pages = put_in_pages(alloc, middles[at].pages.as_slice(), key, value)?;
    with_middle(alloc, middles, at, pages)
}
