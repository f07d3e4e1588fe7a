//! What rows write: ids and what arrives. Trees are written as in scripts, and so are handles; the first of a row is 11, since
//! handle 1 is the cancel signal's.
use bytes::Bytes;
use journal_protocol::{Failure, Notification, NotificationId, NotificationResult};
use lines::atoms::number_of;
use plain::{Items, Text};
use std::alloc::Global;
use std::test::Fail;

/// The number of a word.
pub fn number(word: &str) -> Result<u32, Fail> {
    let number = number_of(word.as_bytes()).ok_or("no number")?;
    if number <= u32::MAX as u64 {
        Ok(number as u32)
    } else {
        Err(Fail::from("too great a number"))
    }
}

/// The id of a word: a completion's number, `#` and a signal's number, or a signal's name in quotes.
pub fn id(alloc: Global, word: &str) -> Result<NotificationId, Fail> {
    if let Some(word) = word.strip_prefix("#") {
        return Ok(NotificationId::SignalId(number(word)?));
    }
    if let Some(name) = word.strip_prefix("\"") {
        let name = name.strip_suffix("\"").ok_or("a name without end")?;
        return Ok(NotificationId::SignalName(Text::from_str(alloc, name)?));
    }
    Ok(NotificationId::CompletionId(number(word)?))
}

fn failure(alloc: Global) -> NotificationResult {
    NotificationResult::Failure(Failure {
        code: 500,
        message: Text::empty(alloc),
        metadata: Items::new(alloc),
    })
}

fn value(alloc: Global, text: &str) -> Result<NotificationResult, Fail> {
    let text = String::from_str(alloc, text)?;
    Ok(NotificationResult::Value(Bytes::from_string(text)?))
}

/// What arrives: `f` and an id fails, `s` and an id succeeds; with `=` and a value it succeeds with that.
pub fn arrival(alloc: Global, word: &str) -> Result<Notification, Fail> {
    if let Some(word) = word.strip_prefix("f") {
        return Ok(Notification {
            id: id(alloc, word)?,
            result: failure(alloc),
        });
    }
    let word = word.strip_prefix("s").ok_or("nothing that arrives")?;
    match word.split_once("=") {
        None => Ok(Notification {
            id: id(alloc, word)?,
            result: NotificationResult::Void,
        }),
        Some((word, text)) => Ok(Notification {
            id: id(alloc, word)?,
            result: value(alloc, text)?,
        }),
    }
}
