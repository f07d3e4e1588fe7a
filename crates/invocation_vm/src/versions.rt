//! The version that a request asks for by its content type, and the head of the response.
ghost use Rattle.std.specs.Prelude.{◌≡◌, Some, codes, IfOk};
ghost use Rattle.invocation_vm.specs.Making.{IsSupported, supported, version_in, response_head};

use journal_protocol::{Error, Header, HeaderMap, NamedFault, Version};
use plain::{Items, Text};
use std::alloc::{AllocError, Global};
use vm_types::ResponseHead;

/// Refuses a version that is not supported.
pub fn supported(version: Version) -> Result<Version, Error>
    ensures does { result ≡ supported version }
    ensures same { IfOk result (λ it. it ≡ version) }
    ensures supported { IfOk result IsSupported }
{
    match version {
        Version::V1 | Version::V2 | Version::V3 | Version::V4 => Err(Error::named(
            NamedFault::UnsupportedMediaType,
            None,
        )),
        _ => Ok(version),
    }
}

/// The version that a content type names. The one that most name is looked for first, as each comparison takes time.
#[tactic(auto, using(crate::proofs::Naming::names_v7))]
pub fn version_named(content_type: &str) -> Result<Version, Error>
    ensures does { result ≡ version_in (Some (Some content_type.now)) }
    ensures supported { IfOk result IsSupported }
{
    if content_type == Version::V7.content_type() {
        return Ok(Version::V7);
    }
    let Some(version) = Version::of_content_type(content_type) else {
        return Err(Error::named(NamedFault::BadContentType, None));
    };
    supported(version)
}

/// The version that a request asks for.
pub fn version_in<H: HeaderMap>(headers: &H) -> Result<Version, Error>
    ensures does { result ≡ version_in (H.found headers.now (codes "content-type")) }
    ensures supported { IfOk result IsSupported }
{
    let found = match headers.extract("content-type") {
        Ok(found) => found,
        Err(_) => return Err(Error::named(NamedFault::BadRequest, None)),
    };
    let Some(text) = found else {
        return Err(Error::named(NamedFault::MissingContentType, None));
    };
    version_named(text)
}

/// The head of the response in this version.
pub fn response_head(alloc: Global, version: Version) -> Result<ResponseHead, AllocError>
    ensures { IfOk result (λ head. head ≡ response_head version) }
{
    let mut headers = Items::new(alloc);
    headers.push(Header {
        key: Text::from_str(alloc, "content-type")?,
        value: Text::from_str(alloc, version.content_type())?,
    })?;
    Ok(ResponseHead {
        status_code: 200,
        headers,
        version,
    })
}
