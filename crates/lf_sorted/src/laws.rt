//! What putting a pair into a map in order of keys keeps and changes.
ghost use Rattle.lf_sorted.specs.Laws.{PutIsFound, PutKeepsOrder, PutKeepsOthers};

/// What `put` does to the entries of a map.
pub fn put_laws<T>()
    ensures order { PutKeepsOrder T }
    ensures found { PutIsFound T }
    ensures others { PutKeepsOthers T }
{}
