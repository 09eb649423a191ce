//! Iterators over the pairs of a map in order of their keys, which take no memory.
ghost use Rattle.std.specs.Prelude.{◌≡◌, ◌++◌, []};
ghost use Rattle.lf_ptree.specs.Pairs.{Ascends, pairs_of, pairs_from, pairs_below};
ghost use Rattle.lf_ptree.specs.Pages.{IsMap, flat};
ghost use Rattle.lf_ptree.specs.Roots.{IsRoot, all_pairs};
ghost use Rattle.lf_ptree.specs.Ranges.{pairs_left, range_left};

use crate::page::{Page, place_of};
use crate::pages::page_for;
use crate::root::{Middle, middle_for};
use std::sync::Arc;

/// The pairs from a place on to the end.
#[derive(Drop)]
pub struct Pairs<'a, K, V> {
    here: &'a [Arc<(K, V)>],
    pages: &'a [Arc<Page<K, V>>],
    middles: &'a [Arc<Middle<K, V>>],
}

impl<'a, K, V> Pairs<'a, K, V> {
    // Opens pages until a pair stands here or no page of the middle page is left.
    fn open_page(&mut self)
        ensures same { pairs_left self.new ≡ pairs_left self.old }
        ensures opened { self.new.here.now ≡ [] → self.new.pages.now ≡ [] }
        ensures others { self.new.middles.now ≡ self.old.middles.now }
    {
        while self.here.is_empty() {
            match self.pages.split_first() {
                Some((page, more)) => {
                    self.here = page.pairs.as_slice();
                    self.pages = more;
                }
                None => return,
            }
        }
    }

    // Opens pages until a pair stands here or nothing is left.
    fn open(&mut self)
        ensures same { pairs_left self.new ≡ pairs_left self.old }
        ensures opened { self.new.here.now ≡ [] → pairs_left self.new ≡ [] }
    {
        self.open_page();
        while self.here.is_empty() {
            match self.middles.split_first() {
                Some((middle, more)) => {
                    self.pages = middle.pages.as_slice();
                    self.middles = more;
                }
                None => return,
            }
            self.open_page();
        }
    }
}

impl<'a, K, V> Iterator for Pairs<'a, K, V> {
    ghost use Rattle.std.specs.Iterator.{YieldsFirstRef, item_count};
    ghost use Rattle.lf_ptree.specs.Ranges.{pairs_left, range_left};

    type Item = &'a (K, V);

    ghost next_gives = { YieldsFirstRef pairs_left };

    ghost remaining = { item_count pairs_left };

    fn next(&mut self) -> Option<&'a (K, V)> {
        self.open();
        let (first, more) = self.here.split_first()?;
        self.here = more;
        Some(first)
    }
}

/// The pairs from a place on whose keys are below a key.
#[derive(Drop)]
pub struct Range<'a, K: Ord, V> {
    pairs: Pairs<'a, K, V>,
    high: &'a K,
}

impl<'a, K: Ord, V> Iterator for Range<'a, K, V> {
    ghost use Rattle.std.specs.Iterator.{YieldsFirstRef, item_count};
    ghost use Rattle.lf_ptree.specs.Ranges.{range_left};

    type Item = &'a (K, V);

    ghost next_gives = { YieldsFirstRef (range_left K.cmp) };

    ghost remaining = { item_count (range_left K.cmp) };

    fn next(&mut self) -> Option<&'a (K, V)> {
        self.pairs.open();
        let (first, more) = self.pairs.here.split_first()?;
        if first.0.cmp(self.high).is_lt() {
            self.pairs.here = more;
            Some(first)
        } else {
            None
        }
    }
}

// The pairs of a page from a key on.
fn here_from<'a, K: Ord, V>(pairs: &'a [Arc<(K, V)>], low: &K) -> &'a [Arc<(K, V)>]
    requires { Ascends K.cmp (pairs_of pairs.now) }
    ensures { pairs_of result.now ≡ pairs_from K.cmp low.now (pairs_of pairs.now) }
{
    match place_of(pairs, low) {
        Ok(at) => pairs.split_at(at).1,
        Err(at) => pairs.split_at(at).1,
    }
}

// The pairs of pages from a key on: those of the key's page, and the pages behind it.
fn pages_from<'a, K: Ord, V>(
    pages: &'a [Arc<Page<K, V>>],
    low: &K,
) -> (&'a [Arc<(K, V)>], &'a [Arc<Page<K, V>>])
    requires { IsMap K.cmp pages.now }
    ensures { pairs_of result.0.now ++ flat result.1.now ≡ pairs_from K.cmp low.now (flat pages.now) }
{
    if pages.is_empty() {
        return (&[], pages);
    }
    let at = page_for(pages, low);
    let here = here_from(pages[at].pairs.as_slice(), low);
    (here, pages.split_at(at + 1).1)
}

/// The pairs from a key on.
pub fn all_from<'a, K: Ord, V>(middles: &'a [Arc<Middle<K, V>>], low: &K) -> Pairs<'a, K, V>
    requires { IsRoot K.cmp middles.now }
    ensures { pairs_left result ≡ pairs_from K.cmp low.now (all_pairs middles.now) }
{
    if middles.is_empty() {
        return all_of(middles);
    }
    let at = middle_for(middles, low);
    let (here, pages) = pages_from(middles[at].pages.as_slice(), low);
    Pairs {
        here,
        pages,
        middles: middles.split_at(at + 1).1,
    }
}

/// All pairs.
pub fn all_of<'a, K, V>(middles: &'a [Arc<Middle<K, V>>]) -> Pairs<'a, K, V>
    ensures { pairs_left result ≡ all_pairs middles.now }
{
    Pairs {
        here: &[],
        pages: &[],
        middles,
    }
}

/// Those of the pairs that are below a key.
pub fn below<'a, K: Ord, V>(pairs: Pairs<'a, K, V>, high: &'a K) -> Range<'a, K, V>
    ensures { range_left K.cmp result ≡ pairs_below K.cmp high.now (pairs_left pairs.entry) }
{
    Range { pairs, high }
}
