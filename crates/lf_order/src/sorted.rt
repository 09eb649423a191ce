//! Sets that are made by sorting.
ghost use Rattle.std.specs.Prelude.{◌≡◌, Bool, IfOk, IsTrue};
ghost use Rattle.std.specs.List.{list_any};
ghost use Rattle.std.specs.List.Sorted.{IsStrictlySortedBy};
ghost use Rattle.std.specs.Ordering.{is_eq};

use lf_base::Memory;

/// The values in order, one of those that tie. It takes n log n comparisons. A test that tells no
/// tied values apart finds one in both lists or in neither, and each value of the set is one of
/// those given.
pub fn sorted_set<T: Ord + Drop>(values: Vec<T>) -> Result<Vec<T>, Memory>
    ensures ascends { IfOk result (λ made. IsStrictlySortedBy T.cmp made.items) }
    ensures members { IfOk result (λ made.
        (test : T → Bool) → ((x y : T) → IsTrue (is_eq (T.cmp x y)) → test x ≡ test y) →
        list_any test made.items ≡ list_any test values.items) }
    ensures within { IfOk result (λ made.
        (test : T → Bool) → IsTrue (list_any test made.items) →
        IsTrue (list_any test values.items)) }
{
    let mut made = values;
    made.sort()?;
    made.dedup();
    Ok(made)
}
