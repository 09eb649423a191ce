//! The errors of JSON-LD by their names (JSON-LD 1.1 API, section 9.6; JSON-LD 1.1 Framing, section 5.3).
ghost use Rattle.std.specs.Prelude.{◌≡◌};
ghost use Rattle.lf_model.specs.ErrorName.{NamesDiffer, name_of};

use std::error::Error;
use std::fmt;

/// The errors of contexts, frames and compaction, by their names in the standards
/// (JSON-LD 1.1 Processing Algorithms and API, section 9.6; JSON-LD 1.1 Framing, section 5.3).
#[derive(Clone, Copy, Debug, PartialEq, Eq)]
pub enum LdError {
    CollidingKeywords,
    CyclicIriMapping,
    InvalidEmbedValue,
    InvalidIdValue,
    InvalidReverseValue,
    InvalidVersionValue,
    InvalidContainerMapping,
    InvalidDefaultLanguage,
    InvalidFrame,
    InvalidIriMapping,
    InvalidKeywordAlias,
    InvalidLanguageMapping,
    InvalidLocalContext,
    InvalidPrefixValue,
    InvalidReverseProperty,
    InvalidTermDefinition,
    InvalidTypeMapping,
    InvalidTypeValue,
    InvalidValueObject,
    InvalidVocabMapping,
    KeywordRedefinition,
    LoadingRemoteContextFailed,
    IriConfusedWithPrefix,
}

impl LdError {
    /// The name of the error in the standards.
    pub fn name(&self) -> &str
        ensures { result.now ≡ name_of self.now }
    {
        match self {
            LdError::CollidingKeywords => "colliding keywords",
            LdError::CyclicIriMapping => "cyclic IRI mapping",
            LdError::InvalidEmbedValue => "invalid @embed value",
            LdError::InvalidIdValue => "invalid @id value",
            LdError::InvalidReverseValue => "invalid @reverse value",
            LdError::InvalidVersionValue => "invalid @version value",
            LdError::InvalidContainerMapping => "invalid container mapping",
            LdError::InvalidDefaultLanguage => "invalid default language",
            LdError::InvalidFrame => "invalid frame",
            LdError::InvalidIriMapping => "invalid IRI mapping",
            LdError::InvalidKeywordAlias => "invalid keyword alias",
            LdError::InvalidLanguageMapping => "invalid language mapping",
            LdError::InvalidLocalContext => "invalid local context",
            LdError::InvalidPrefixValue => "invalid @prefix value",
            LdError::InvalidReverseProperty => "invalid reverse property",
            LdError::InvalidTermDefinition => "invalid term definition",
            LdError::InvalidTypeMapping => "invalid type mapping",
            LdError::InvalidTypeValue => "invalid type value",
            LdError::InvalidValueObject => "invalid value object",
            LdError::InvalidVocabMapping => "invalid vocab mapping",
            LdError::KeywordRedefinition => "keyword redefinition",
            LdError::LoadingRemoteContextFailed => "loading remote context failed",
            LdError::IriConfusedWithPrefix => "IRI confused with prefix",
        }
    }
}

impl fmt::Display for LdError {
    fn fmt<W: fmt::Write>(&self, f: &mut fmt::Formatter<W>) -> fmt::Result {
        f.write_str(self.name())
    }
}

impl Error for LdError {}

/// No two errors share a name.
pub fn error_names_law()
    ensures { NamesDiffer }
{}
