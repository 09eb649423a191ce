//! What an IRI alone asks of a term.
use crate::{Pick, PickKind};
use lf_model::Container;
use std::test::Fail;

#[test]
fn what_an_iri_alone_asks_for(rt: HostRuntime) -> Result<(), Fail> {
    let pick = Pick::of_iri(rt.alloc())?;
    assert_eq!(rt; pick.containers.len(), 2);
    assert!(rt;
        match pick.containers.at(0) {
            Some(container) => *container == Container::Set,
            None => false,
        }
    );
    for (place, name) in ["@id", "@none", "@any"].iter().enumerate() {
        assert!(rt;
            match pick.preferred.at(place as u64) {
                Some(preferred) => preferred.as_str() == *name,
                None => false,
            }
        );
    }
    assert_eq!(rt; pick.preferred.len(), 3);
    assert!(rt; pick.kind == PickKind::TypeKind && !pick.has_value);
    Ok(())
}
