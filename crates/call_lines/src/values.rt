//! The texts of what calls take and answer.
ghost use Rattle.std.specs.Prelude.{◌≡◌, ◌++◌, codes, OnOk};
ghost use Rattle.std.specs.Fmt.{decimal};
ghost use Rattle.lines.specs.Atoms.{quoted};
ghost use Rattle.call_lines.specs.Texts.{failure_text, flag_text, header_text, input_text, invocation_text, optional_text, pair_text, payload_text, value_text};

use crate::shown::{Shown, labelled, listed, spaced};
use bytes::Bytes;
use journal_protocol::Header;
use lines::line::Line;
use plain::Text;
use std::alloc::AllocError;
use vm_types::{Input, TerminalFailure, Value};

impl Shown for bool {
    ghost text = { flag_text };

    fn show(&self, line: &mut Line) -> Result<(), AllocError> {
        line.word(if *self { "true" } else { "false" })
    }
}

impl Shown for u64 {
    ghost text = { decimal };

    fn show(&self, line: &mut Line) -> Result<(), AllocError> {
        line.number(*self)
    }
}

/// In quotes.
impl Shown for Bytes {
    ghost text = { quoted };

    fn show(&self, line: &mut Line) -> Result<(), AllocError> {
        line.quoted(self.as_slice())
    }
}

/// In quotes.
impl Shown for Text {
    ghost text = { quoted };

    fn show(&self, line: &mut Line) -> Result<(), AllocError> {
        line.quoted(self.as_str().as_bytes())
    }
}

/// Shown as `-` if it is `None`.
impl Shown for Option<Text> {
    ghost text = { optional_text };

    fn show(&self, line: &mut Line) -> Result<(), AllocError> {
        match self {
            Some(text) => text.show(line),
            None => line.word("-"),
        }
    }
}

/// Writes a key and its value.
fn pair(key: &Text, value: &Text, line: &mut Line) -> Result<(), AllocError>
    ensures { OnOk result (line.new ≡ line.old ++ pair_text (key.now, value.now)) }
{
    line.word("{")?;
    key.show(line)?;
    line.word(" ")?;
    value.show(line)?;
    line.word("}")
}

impl Shown for (Text, Text) {
    ghost text = { pair_text };

    fn show(&self, line: &mut Line) -> Result<(), AllocError> {
        pair(&self.0, &self.1, line)
    }
}

impl Shown for Header {
    ghost text = { header_text };

    fn show(&self, line: &mut Line) -> Result<(), AllocError> {
        pair(&self.key, &self.value, line)
    }
}

impl Shown for TerminalFailure {
    ghost text = { failure_text };

    fn show(&self, line: &mut Line) -> Result<(), AllocError> {
        line.word("failure ")?;
        line.number(u64::from(self.code))?;
        line.word(" ")?;
        self.message.show(line)?;
        spaced(self.metadata.as_slice(), line)
    }
}

impl Shown for Value {
    ghost text = { value_text };

    fn show(&self, line: &mut Line) -> Result<(), AllocError> {
        match self {
            Value::Void => line.word("void"),
            Value::Success(bytes) => labelled("success ", bytes, line),
            Value::Failure(failure) => failure.show(line),
            Value::StateKeys(keys) => {
                line.word("keys ")?;
                listed(keys.as_slice(), line)
            }
            Value::InvocationId(id) => labelled("invocation ", id, line),
        }
    }
}

/// Writes which invocation it is, and the headers.
fn invocation(input: &Input, line: &mut Line) -> Result<(), AllocError>
    ensures { OnOk result (line.new ≡ line.old ++ invocation_text input.now) }
{
    labelled("id=", &input.invocation_id, line)?;
    labelled(" seed=", &input.random_seed, line)?;
    labelled(" key=", &input.key, line)?;
    line.word(" headers=")?;
    listed(input.headers.as_slice(), line)
}

/// Writes what came with the call.
fn payload(input: &Input, line: &mut Line) -> Result<(), AllocError>
    ensures { OnOk result (line.new ≡ line.old ++ payload_text input.now) }
{
    labelled(" value=", &input.input, line)?;
    labelled(" scope=", &input.scope, line)?;
    labelled(" limit=", &input.limit_key, line)?;
    labelled(" idem=", &input.idempotency_key, line)
}

impl Shown for Input {
    ghost text = { input_text };

    fn show(&self, line: &mut Line) -> Result<(), AllocError> {
        invocation(self, line)?;
        payload(self, line)
    }
}
