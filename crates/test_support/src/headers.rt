//! The headers of a request: with a content type, without one, or such that none can be read.
ghost use Rattle.std.specs.Prelude.{◌≡◌};

use journal_protocol::HeaderMap;

/// The headers of a request.
#[derive(Clone, Copy, Debug)]
pub enum Headers {
    ContentType(&'static str),
    Empty,
    Unreadable,
}

/// A header can't be read.
#[derive(Clone, Copy, Debug)]
pub struct Unread;

impl HeaderMap for Headers {
    type Error = Unread;

    ghost use Rattle.test_support.specs.Headers.{test_header};

    ghost found = { test_header };

    fn extract(&self, name: &str) -> Result<Option<&str>, Unread> {
        match self {
            Headers::ContentType(text) => {
                if name == "content-type" {
                    Ok(Some(*text))
                } else {
                    Ok(None)
                }
            }
            Headers::Empty => Ok(None),
            Headers::Unreadable => Err(Unread),
        }
    }
}
