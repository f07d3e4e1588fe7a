//! The texts of replies.
ghost use Rattle.std.specs.Prelude.{◌≡◌, ◌++◌, codes, ℤ, OnOk};
ghost use Rattle.std.specs.Fmt.{decimal};
ghost use Rattle.call_lines.specs.Replies.{awaited_text, error_text, head_text, index_text, reply_text, state_text, value_reply_text, version_text};

use crate::shown::{Shown, labelled, spaced};
use journal_protocol::{Error, Version};
use lines::line::Line;
use std::alloc::AllocError;
use vm_types::{Answer, AwaitResponse, EphemeralCompletionId, Reply, ResponseHead, State};

impl Shown for Version {
    ghost text = { version_text };

    fn show(&self, line: &mut Line) -> Result<(), AllocError> {
        line.word(match self {
            Version::V1 => "V1",
            Version::V2 => "V2",
            Version::V3 => "V3",
            Version::V4 => "V4",
            Version::V5 => "V5",
            Version::V6 => "V6",
            Version::V7 => "V7",
            Version::V8 => "V8",
        })
    }
}

impl Shown for State {
    ghost text = { state_text };

    fn show(&self, line: &mut Line) -> Result<(), AllocError> {
        line.word(match self {
            State::WaitingPreFlight => "WaitingPreFlight",
            State::Replaying => "Replaying",
            State::Processing => "Processing",
            State::Closed => "Closed",
        })
    }
}

/// The code and the text. What else is in an error isn't printed.
impl Shown for Error {
    ghost text = { error_text };

    fn show(&self, line: &mut Line) -> Result<(), AllocError> {
        line.word("err ")?;
        line.number(u64::from(self.code()))?;
        line.word(" ")?;
        line.quoted(self.message().as_bytes())
    }
}

impl Shown for ResponseHead {
    ghost text = { head_text };

    fn show(&self, line: &mut Line) -> Result<(), AllocError> {
        line.number(u64::from(self.status_code))?;
        line.word(" ")?;
        self.version.show(line)?;
        spaced(self.headers.as_slice(), line)
    }
}

impl Shown for EphemeralCompletionId {
    ghost text = { λ id. decimal id.0 };

    fn show(&self, line: &mut Line) -> Result<(), AllocError> {
        line.number(u64::from(self.0))
    }
}

impl Shown for AwaitResponse {
    ghost text = { awaited_text };

    fn show(&self, line: &mut Line) -> Result<(), AllocError> {
        match self {
            AwaitResponse::AnyCompleted => line.word("any"),
            AwaitResponse::CancelSignalReceived => line.word("cancelled"),
            AwaitResponse::ExecuteRun(handle) => labelled("run ", handle, line),
            AwaitResponse::EphemeralNotificationReady(id) => labelled("ephemeral ", id, line),
            AwaitResponse::WaitingExternalProgress {
                waiting_input,
                waiting_run_proposal,
            } => {
                line.word("wait ")?;
                waiting_input.show(line)?;
                line.word(" ")?;
                waiting_run_proposal.show(line)
            }
        }
    }
}

/// Writes a number that may be below 0.
fn index(index: i64, line: &mut Line) -> Result<(), AllocError>
    ensures { OnOk result (line.new ≡ line.old ++ index_text index) }
{
    match u64::try_from(index) {
        Ok(index) => line.number(index),
        Err(_) => {
            line.word("-")?;
            line.number(index.unsigned_abs())
        }
    }
}

/// Writes an answer that has a value.
fn show_value(reply: &Reply, line: &mut Line) -> Result<(), AllocError>
    ensures { OnOk result (line.new ≡ line.old ++ value_reply_text reply.now) }
{
    match reply {
        Reply::Made(version) => version.show(line),
        Reply::Head(head) => head.show(line),
        Reply::Output(bytes) => line.hex(bytes.as_slice()),
        Reply::Ready(is_ready) => is_ready.show(line),
        Reply::State(state) => state.show(line),
        Reply::Index(given) => index(*given, line),
        Reply::Awaited(response) => response.show(line),
        Reply::Run(run) => run.show(line),
        Reply::Ephemeral(id) => id.show(line),
        Reply::Answer(answer) => answer.show(line),
        _ => Ok(()),
    }
}

impl Shown for Reply {
    ghost text = { reply_text };

    fn show(&self, line: &mut Line) -> Result<(), AllocError> {
        match self {
            Reply::Nothing => Ok(()),
            Reply::Bad => line.word("bad"),
            Reply::NoVm => line.word("none"),
            Reply::Refused(error) => error.show(line),
            Reply::Done | Reply::Answer(Answer::Unit) => line.word("ok"),
            _ => {
                line.word("ok ")?;
                show_value(self, line)
            }
        }
    }
}
