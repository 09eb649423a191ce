//! The flags of a frame (JSON-LD 1.1 Framing, section 4.1).
ghost use Rattle.std.specs.Prelude.{◌≡◌};
ghost use Rattle.lf_model.specs.JsonBridge.{json_data};
ghost use Rattle.def_contexts.specs.FrameFlags.{alone, embed_given, embed_named, truth_given};

use lf_base::Text;
use lf_model::{Embed, Json, LdError};

// The value of a flag, which may stand alone in an array.
fn alone(value: &Json) -> &Json
    ensures { json_data result.now ≡ alone (json_data value.now) }
{
    match value {
        Json::List(items) => match items.as_slice() {
            [] => value,
            [only, rest @ ..] => match rest {
                [] => only,
                [_second, _more @ ..] => value,
            },
        },
        Json::Null => value,
        Json::Bool(_) => value,
        Json::Whole(_) => value,
        Json::Fraction => value,
        Json::Text(_) => value,
        Json::Map(_) => value,
    }
}

// The value of `@embed` of this name.
fn embed_named(name: &Text) -> Result<Embed, LdError>
    ensures { result ≡ embed_named name.now }
{
    match name.as_str() {
        "@once" => Ok(Embed::Once),
        "@always" => Ok(Embed::Always),
        "@never" => Ok(Embed::Never),
        _ => Err(LdError::InvalidEmbedValue),
    }
}

/// The object embed flag.
pub fn embed_given(value: &Json) -> Result<Embed, LdError>
    ensures { result ≡ embed_given (alone (json_data value.now)) }
{
    match alone(value) {
        Json::Text(name) => embed_named(name),
        Json::Bool(true) => Ok(Embed::Once),
        Json::Bool(false) => Ok(Embed::Never),
        Json::Null => Err(LdError::InvalidEmbedValue),
        Json::Whole(_) => Err(LdError::InvalidEmbedValue),
        Json::Fraction => Err(LdError::InvalidEmbedValue),
        Json::List(_) => Err(LdError::InvalidEmbedValue),
        Json::Map(_) => Err(LdError::InvalidEmbedValue),
    }
}

/// A flag that is true or false.
pub fn truth_given(value: &Json) -> Result<bool, LdError>
    ensures { result ≡ truth_given (alone (json_data value.now)) }
{
    match alone(value) {
        Json::Bool(truth) => Ok(*truth),
        Json::Null => Err(LdError::InvalidFrame),
        Json::Whole(_) => Err(LdError::InvalidFrame),
        Json::Fraction => Err(LdError::InvalidFrame),
        Json::Text(_) => Err(LdError::InvalidFrame),
        Json::List(_) => Err(LdError::InvalidFrame),
        Json::Map(_) => Err(LdError::InvalidFrame),
    }
}
