//! The versions of the protocol, each known by its content type.
ghost use Rattle.std.specs.Prelude.{◌≡◌, None, IfOk};
ghost use Rattle.journal_errors.specs.Versions.{content_type, version_of, version_read};
ghost use Rattle.journal_errors.specs.declared.version.Version.TheVariants.{V5, V8};

use crate::{Error, NamedFault};
use std::str::FromStr;

#[derive(Clone, Copy, Debug, PartialEq, Eq, PartialOrd, Ord)]
pub enum Version {
    V1,
    V2,
    V3,
    V4,
    V5,
    V6,
    V7,
    V8,
}

impl Version {
    #[tactic(auto, unfolding(crate::specs::Versions::content_type))]
    pub fn content_type(&self) -> &'static str
        ensures { result.now ≡ content_type self.now }
    {
        match self {
            Version::V1 => "application/vnd.restate.invocation.v1",
            Version::V2 => "application/vnd.restate.invocation.v2",
            Version::V3 => "application/vnd.restate.invocation.v3",
            Version::V4 => "application/vnd.restate.invocation.v4",
            Version::V5 => "application/vnd.restate.invocation.v5",
            Version::V6 => "application/vnd.restate.invocation.v6",
            Version::V7 => "application/vnd.restate.invocation.v7",
            Version::V8 => "application/vnd.restate.invocation.v8",
        }
    }

    pub fn minimum_supported_version() -> Version
        ensures { result ≡ V5 }
    {
        Version::V5
    }

    pub fn maximum_supported_version() -> Version
        ensures { result ≡ V8 }
    {
        Version::V8
    }

    /// The version whose content type the text is, byte for byte.
    #[tactic(auto, unfolding(crate::specs::Versions::version_of))]
    pub fn of_content_type(text: &str) -> Option<Version>
        ensures { result ≡ version_of text.now }
    {
        if text == Version::V1.content_type() {
            return Some(Version::V1);
        }
        if text == Version::V2.content_type() {
            return Some(Version::V2);
        }
        if text == Version::V3.content_type() {
            return Some(Version::V3);
        }
        if text == Version::V4.content_type() {
            return Some(Version::V4);
        }
        if text == Version::V5.content_type() {
            return Some(Version::V5);
        }
        if text == Version::V6.content_type() {
            return Some(Version::V6);
        }
        if text == Version::V7.content_type() {
            return Some(Version::V7);
        }
        if text == Version::V8.content_type() {
            return Some(Version::V8);
        }
        None
    }
}

impl FromStr for Version {
    type Err = Error;

    ghost from_str_gives = { λ text r. r ≡ version_read (version_of text) };

    fn from_str(s: &str) -> Result<Version, Error> {
        match Version::of_content_type(s) {
            Some(version) => Ok(version),
            None => Err(Error::named(NamedFault::BadContentType, None)),
        }
    }
}
