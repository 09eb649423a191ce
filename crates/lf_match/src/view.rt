//! What a view has under a property; `matching` and embedding call it.
ghost use Rattle.std.specs.Prelude.{◌≡◌, map};
ghost use Rattle.lf_model.specs.ValueBridge.{value_data};
ghost use Rattle.lf_oracle.specs.NodeViews.{view_data};
ghost use Rattle.def_framing.specs.Views.{values_under};

use lf_base::{Same, Text};
use lf_model::{NodeView, Value};

/// The values of a node under a property (JSON-LD 1.1, section 9.2).
pub fn values_under<'a>(view: &'a NodeView, property: &Text) -> &'a [Value]
    ensures { map value_data result.now ≡ values_under (view_data view.now) property.now }
{
    for entry in view.props.as_slice() {
        if entry.property.is(property) {
            return entry.values.as_slice();
        }
    }
    &[]
}
