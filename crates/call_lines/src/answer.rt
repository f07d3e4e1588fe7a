//! The texts of what a handler's calls answered.
ghost use Rattle.std.specs.Prelude.{◌≡◌, ◌++◌, codes, OnOk};
ghost use Rattle.std.specs.Fmt.{decimal};
ghost use Rattle.call_lines.specs.Answers.{answer_text, awakeable_text, deadline_text, handles_text, run_text, taken_text};

use crate::shown::Shown;
use await_trees::NotificationHandle;
use lines::line::Line;
use std::alloc::AllocError;
use vm_types::{Answer, AwakeableHandle, CallHandle, DeadlineCallHandle, RunHandle, Value};

impl Shown for NotificationHandle {
    ghost text = { λ handle. decimal handle.0 };

    fn show(&self, line: &mut Line) -> Result<(), AllocError> {
        line.number(u64::from(self.0))
    }
}

impl Shown for CallHandle {
    ghost text = { handles_text };

    fn show(&self, line: &mut Line) -> Result<(), AllocError> {
        self.invocation_id_notification_handle.show(line)?;
        line.word(" ")?;
        self.call_notification_handle.show(line)
    }
}

impl Shown for DeadlineCallHandle {
    ghost text = { deadline_text };

    fn show(&self, line: &mut Line) -> Result<(), AllocError> {
        self.invocation_id_notification_handle.show(line)?;
        line.word(" ")?;
        self.call_notification_handle.show(line)?;
        line.word(" ")?;
        self.deadline_notification_handle.show(line)
    }
}

impl Shown for AwakeableHandle {
    ghost text = { awakeable_text };

    fn show(&self, line: &mut Line) -> Result<(), AllocError> {
        self.handle.show(line)?;
        line.word(" ")?;
        self.id.show(line)
    }
}

/// The handle, and whether the result is already there.
impl Shown for RunHandle {
    ghost text = { run_text };

    fn show(&self, line: &mut Line) -> Result<(), AllocError> {
        self.handle.show(line)?;
        line.word(" ")?;
        self.replayed.show(line)
    }
}

/// What was taken, if anything was.
impl Shown for Option<Value> {
    ghost text = { taken_text };

    fn show(&self, line: &mut Line) -> Result<(), AllocError> {
        match self {
            Some(value) => value.show(line),
            None => line.word("none"),
        }
    }
}

impl Shown for Answer {
    ghost text = { answer_text };

    fn show(&self, line: &mut Line) -> Result<(), AllocError> {
        match self {
            Answer::Input(input) => input.show(line),
            Answer::Handle(handle) => handle.show(line),
            Answer::Call(handles) => handles.show(line),
            Answer::CallWithDeadline(handles) => handles.show(line),
            Answer::Send(handles) => handles.invocation_id_notification_handle.show(line),
            Answer::Awakeable(awakeable) => awakeable.show(line),
            Answer::Unit => Ok(()),
            Answer::Awake => line.word("any"),
            Answer::Cancelled => line.word("cancelled"),
            Answer::Taken(taken) => taken.show(line),
            Answer::Completed(is) => is.show(line),
        }
    }
}
