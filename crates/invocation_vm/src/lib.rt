//! The invocation VM: a handler's calls and the bytes of one attempt in, answers and the bytes of commands out. `VM` is the trait of the calls
//! with what each does, and `CoreVM` is a decoder and a machine that does it. This crate joins the two: a call is one event of the machine, and a
//! piece of bytes is as many as it has whole frames. What an event does stands in `vm_machine`, `vm_inputs` and `vm_awaits`.
#![tactic(auto)]

/// One event of the machine, ended by the error rule: out of memory gives back the numbers that it took.
macro_rules! settled_event {
    ($machine:expr, $event:expr, $settle:ident) => {{
        let before = $machine.counters;
        let given = $event;
        $machine.$settle(before, given)
    }};
}

/// One event of a call: a machine that failed answers its first error.
macro_rules! event {
    ($machine:expr, $event:expr) => {{
        if let Err(error) = $machine.live() {
            return Err(error);
        }
        settled_event!($machine, $event, settle)
    }};
}

/// As `event`, of a call that is made often and answers numbers. An error is large, so only what has one hands one on.
macro_rules! frequent_event {
    ($machine:expr, $event:expr) => {{
        if $machine.has_failed() {
            return first_error(&$machine);
        }
        let before = $machine.counters;
        let given = $event;
        if let Ok(answer) = &given {
            return Ok(*answer);
        }
        $machine.settle(before, given)
    }};
}

/// One event of a machine that hasn't failed, in a call whose one error is out of memory.
macro_rules! quiet_event {
    ($machine:expr, $event:expr) => {
        settled_event!($machine, $event, settle_quietly)
    };
}

/// Fails a machine by out of memory, apart from an event.
macro_rules! starve {
    ($machine:expr) => {{
        let before = $machine.counters;
        let _ = $machine.starve(before);
    }};
}

mod core_vm;
mod feed;
mod shared;
mod step;
mod versions;
mod vm;
mod waking;

pub use core_vm::CoreVM;
pub use feed::any_cut;
pub use step::Stepped;
pub use versions::{supported, version_in, version_named};
pub use vm::VM;
