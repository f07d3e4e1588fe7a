//! What the error of an attempt is about.
use bytes::Bytes;
use call_details::attempt::explain_attempt;
use handlers::named::Named;
use journal_protocol::Version;
use lines::line::Line;
use std::alloc::{AllocError, Global};
use vm_types::VMOptions;

/// What the error is about by which the named handler's attempt over this input fails; none if it doesn't, or the error says all that is known.
pub fn explain(
    alloc: Global,
    content_type: &str,
    handler: &str,
    input: Vec<u8>,
) -> Result<Option<Line>, AllocError> {
    let Some(version) = Version::of_content_type(content_type) else {
        return Ok(None);
    };
    let Some(handler) = Named::of_name(alloc, handler) else {
        return Ok(None);
    };
    let input = Bytes::from_vec(input)?;
    explain_attempt(alloc, version, VMOptions::default(), &handler, input, true)
}
