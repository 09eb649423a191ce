//! Laws of node views: which nodes are keys, and what a key's view shows.
ghost use Rattle.def_datasets.specs.ViewLaws.{KeysAreListed, KeysInOrder, MergedKeys, KeysHaveViews, ViewStepsSuffice, SharedObjects, TypesAreTold, TypesInOrder, PropertiesAreTold, PropertiesInOrder, ObjectsAreTold, ObjectsInOrder, PointingIsTold, PointingInOrder};

/// The keys that are listed are those that the rule tells, and no others.
#[tactic(auto, using(crate::proofs::ViewProofs::keys_are_listed))]
pub fn keys_are_listed()
    ensures { KeysAreListed }
{}

/// The keys stand each once, in order of their ids.
#[tactic(auto, using(crate::proofs::ViewProofs::keys_in_order))]
pub fn keys_in_order()
    ensures { KeysInOrder }
{}

/// The merged graph has the keys of all graphs.
#[tactic(auto, using(crate::proofs::ViewProofs::merged_keys))]
pub fn merged_keys()
    ensures { MergedKeys }
{}

/// A key has a view, and nothing else has.
#[tactic(auto, using(crate::proofs::ViewProofs::keys_have_views))]
pub fn keys_have_views()
    ensures { KeysHaveViews }
{}

/// No further step changes keys and views.
pub fn view_steps_suffice()
    ensures { ViewStepsSuffice }
{}

/// An object that two graphs share under properties has one value in both, so a merged view may
/// take either.
#[tactic(auto, using(crate::proofs::TellProofs::shared_objects))]
pub fn shared_objects()
    ensures { SharedObjects }
{}

/// The types of a view are the objects of the quads that tell a type.
#[tactic(auto, using(crate::proofs::TellProofs::types_are_told))]
pub fn types_are_told()
    ensures { TypesAreTold }
{}

/// The types of a view stand each once, in order of their ids.
#[tactic(auto, using(crate::proofs::TellProofs::types_in_order))]
pub fn types_in_order()
    ensures { TypesInOrder }
{}

/// The properties of a view are those of its quads.
#[tactic(auto, using(crate::proofs::TellProofs::properties_are_told))]
pub fn properties_are_told()
    ensures { PropertiesAreTold }
{}

/// The properties of a view stand each once, in byte order.
#[tactic(auto, using(crate::proofs::TellProofs::properties_in_order))]
pub fn properties_in_order()
    ensures { PropertiesInOrder }
{}

/// The values under a property are those of its objects.
#[tactic(auto, using(crate::proofs::TellProofs::objects_are_told))]
pub fn objects_are_told()
    ensures { ObjectsAreTold }
{}

/// The objects under a property stand each once, in order of their canonical texts.
#[tactic(auto, using(crate::proofs::TellProofs::objects_in_order))]
pub fn objects_in_order()
    ensures { ObjectsInOrder }
{}

/// The keys that point at a node are those of which a quad shows it.
#[tactic(auto, using(crate::proofs::PointingProofs::pointing_is_told))]
pub fn pointing_is_told()
    ensures { PointingIsTold }
{}

/// The keys that point at a node stand each once, in order of their ids.
pub fn pointing_in_order()
    ensures { PointingInOrder }
{}
