//! The headers of a request that has a content type and nothing else.

use journal_errors::HeaderMap;

/// A request's content type.
#[derive(Debug, Drop)]
pub enum ContentType {
    Absent,
    /// It is there, and can't be read.
    Unreadable,
    Named(String),
}

/// A header can't be read.
#[derive(Clone, Copy, Debug)]
pub struct UnreadableHeader;

impl HeaderMap for ContentType {
    type Error = UnreadableHeader;

    ghost use Rattle.vm_types.specs.ContentTypes.{header_under};

    ghost found = { λ headers name. header_under headers name };

    fn extract(&self, name: &str) -> Result<Option<&str>, UnreadableHeader> {
        if name != "content-type" {
            return Ok(None);
        }
        match self {
            ContentType::Absent => Ok(None),
            ContentType::Unreadable => Err(UnreadableHeader),
            ContentType::Named(text) => Ok(Some(text.as_str())),
        }
    }
}
