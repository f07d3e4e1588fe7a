//! What a line of the script asks for.
use vm_types::{Call, ContentType, VMOptions};

/// A line of the script, read as a whole.
#[derive(Drop)]
pub enum Request {
    /// Nothing: a blank line or a comment.
    Nothing,
    /// A line without a meaning.
    Bad,
    /// A `vm` line without a meaning, which drops the VM.
    BadMake,
    /// A new VM, which replaces the last one.
    Make(ContentType, VMOptions),
    Call(Call),
}
