//! What a call is compared with: it is kept before the call, which takes it away.
use invocation_vm::CoreVM;
use journal_protocol::RawMessage;
use std::alloc::AllocError;

/// What is so of a VM before a call.
#[derive(Drop)]
pub struct Moment {
    /// Whether recorded commands are replayed.
    pub(crate) is_replaying: bool,
    /// The index of the next command, the input being 0.
    pub(crate) index: u32,
    /// The completion id that comes next.
    pub(crate) completion: u32,
    /// The next recorded command.
    pub(crate) next: Option<RawMessage>,
    /// The one after it: a call has two commands at most.
    pub(crate) after: Option<RawMessage>,
}

fn copy_of(raw: Option<&RawMessage>) -> Result<Option<RawMessage>, AllocError> {
    match raw {
        Some(raw) => Ok(Some(RawMessage {
            ty: raw.ty,
            body: raw.body.clone()?,
        })),
        None => Ok(None),
    }
}

impl Moment {
    /// There is none of a VM that has failed: each of its calls returns its first error.
    pub fn of(vm: &CoreVM) -> Result<Option<Moment>, AllocError> {
        let machine = &vm.machine;
        if machine.has_failed() {
            return Ok(None);
        }
        let next = copy_of(machine.commands.items().get(0))?;
        let after = copy_of(machine.commands.items().get(1))?;
        Ok(Some(Moment {
            is_replaying: machine.phase.is_replaying(),
            index: machine.counters.next_index(),
            completion: machine.counters.completion,
            next,
            after,
        }))
    }
}
