//! Pages that are built from pairs in order. `PMap::from_sorted` calls it.
ghost use Rattle.std.specs.Prelude.{◌≡◌, ◌∷◌, ◌++◌, [], map, List, IfOk, OnOk};
ghost use Rattle.std.specs.Arc.{arc_value};
ghost use Rattle.std.specs.declared.alloc.Global.{Global};
ghost use Rattle.std.specs.declared.sync.Arc.{Arc};
ghost use Rattle.lf_ptree.specs.declared.page.Page.{Page};
ghost use Rattle.lf_ptree.specs.Pairs.{pairs_of, Ascends};
ghost use Rattle.lf_ptree.specs.Pages.{flat, groups, with_group, IsMap};
ghost use Rattle.lf_ptree.specs.Roots.{all_pairs, IsRoot, IsGathering, middle_of};

use crate::page::Page;
use crate::root::Middle;
use lf_base::Memory;
use std::alloc::Global;
use std::mem;
use std::sync::Arc;

// How many pairs a page gets that is built, so that later ones find room in it.
const FILL: usize = 48;

// How many pages a middle page gets that is built.
const MIDDLE_FILL: usize = 96;

// One page more at the end.
fn close_page<K: Drop, V: Drop>(
    alloc: Global,
    pages: &mut Vec<Arc<Page<K, V>>>,
    pairs: Vec<Arc<(K, V)>>,
) -> Result<(), Memory>
    ensures { OnOk result (groups pages.new.items ≡ groups pages.old.items ++ pairs_of pairs.items ∷ []) }
{
    pages.push(Arc::new(alloc, Page { pairs })?)?;
    Ok(())
}

// The pages with a last one, unless that has no pair.
fn with_last<K: Drop, V: Drop>(
    alloc: Global,
    pages: Vec<Arc<Page<K, V>>>,
    page: Vec<Arc<(K, V)>>,
) -> Result<Vec<Arc<Page<K, V>>>, Memory>
    ensures { IfOk result
        (λ made. groups made.items ≡ with_group (groups pages.items) (pairs_of page.items)) }
{
    let mut made = pages;
    if page.is_empty() {
        return Ok(made);
    }
    close_page(alloc, &mut made, page)?;
    Ok(made)
}

/// The pages of pairs that stand in order.
pub fn pages_of<K: Ord + Drop, V: Drop>(
    alloc: Global,
    pairs: Vec<(K, V)>,
) -> Result<Vec<Arc<Page<K, V>>>, Memory>
    requires { Ascends K.cmp pairs.items }
    ensures pairs { IfOk result (λ made. flat made.items ≡ pairs.items) }
    ensures map { IfOk result (λ made. IsMap K.cmp made.items) }
{
    let mut pages = Vec::new(alloc);
    let mut page = Vec::new(alloc);
    for pair in pairs {
        page.push(Arc::new(alloc, pair)?)?;
        if page.len() >= FILL {
            let full = mem::replace(&mut page, Vec::new(alloc));
            close_page(alloc, &mut pages, full)?;
        }
    }
    with_last(alloc, pages, page)
}

// One middle page more at the end.
fn close_middle<K: Drop, V: Drop>(
    alloc: Global,
    middles: &mut Vec<Arc<Middle<K, V>>>,
    pages: Vec<Arc<Page<K, V>>>,
) -> Result<(), Memory>
    ensures { OnOk result (map arc_value middles.new.items
        ≡ map arc_value middles.old.items ++ middle_of pages ∷ []) }
{
    middles.push(Arc::new(alloc, Middle { pages })?)?;
    Ok(())
}

// The middle pages with a last one, unless that has no page.
fn with_last_middle<K: Drop, V: Drop>(
    alloc: Global,
    middles: Vec<Arc<Middle<K, V>>>,
    pages: Vec<Arc<Page<K, V>>>,
) -> Result<Vec<Arc<Middle<K, V>>>, Memory>
    ensures { IfOk result (λ made.
        (all : List (Arc (Page K V) Global)) → IsGathering middles.items pages.items [] all →
        IsGathering made.items [] [] all) }
{
    let mut made = middles;
    if pages.is_empty() {
        return Ok(made);
    }
    close_middle(alloc, &mut made, pages)?;
    Ok(made)
}

/// The middle pages of pages.
pub fn middles_of<K: Ord + Drop, V: Drop>(
    alloc: Global,
    pages: Vec<Arc<Page<K, V>>>,
) -> Result<Vec<Arc<Middle<K, V>>>, Memory>
    requires { IsMap K.cmp pages.items }
    ensures pairs { IfOk result (λ made. all_pairs made.items ≡ flat pages.items) }
    ensures map { IfOk result (λ made. IsRoot K.cmp made.items) }
{
    let mut middles = Vec::new(alloc);
    let mut gathered = Vec::new(alloc);
    for page in pages {
        gathered.push(page)?;
        if gathered.len() >= MIDDLE_FILL {
            let full = mem::replace(&mut gathered, Vec::new(alloc));
            close_middle(alloc, &mut middles, full)?;
        }
    }
    with_last_middle(alloc, middles, gathered)
}
