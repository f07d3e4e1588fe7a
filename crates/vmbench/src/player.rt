//! A VM that is played on.

use crate::frames::Frames;
use await_trees::{NotificationHandle, UnresolvedFuture};
use bytes::Bytes;
use invocation_vm::{CoreVM, VM};
use std::alloc::{AllocError, Global};
use test_support::headers::Headers;
use vm_types::{AwaitResponse, ImplicitCancellationOption, VMOptions, VMResult};

/// A call was refused, an await wasn't done, or no memory was found.
#[derive(Clone, Copy, Debug)]
pub(crate) struct Failed;

impl From<AllocError> for Failed {
    fn from(_: AllocError) -> Failed {
        Failed
    }
}

/// What a call answers.
pub(crate) fn done<T>(given: VMResult<T>) -> Result<T, Failed> {
    match given {
        Ok(answer) => Ok(answer),
        Err(error) => {
            drop(error);
            Err(Failed)
        }
    }
}

/// A text of its own.
pub(crate) fn string(alloc: Global, text: &str) -> Result<String, Failed> {
    Ok(String::from_str(alloc, text)?)
}

/// Bytes of their own.
pub(crate) fn bytes(alloc: Global, text: &str) -> Result<Bytes, Failed> {
    Ok(Bytes::copy_from_slice(alloc, text.as_bytes())?)
}

/// Feeds the VM these frames, which are none from then on.
pub(crate) fn feed(alloc: Global, vm: &mut CoreVM, fed: &mut Frames) -> Result<(), Failed> {
    let copy = Bytes::copy_from_slice(alloc, fed.bytes.as_slice())?;
    fed.bytes.clear();
    Ok(vm.notify_input(copy)?)
}

/// A VM whose handler has begun: the frames stand after its Start and Input, and `known` entries are known.
pub(crate) fn begin(
    alloc: Global,
    known: u32,
    is_partial: bool,
    entries: &mut Frames,
) -> Result<CoreVM, Failed> {
    let options = VMOptions {
        implicit_cancellation: ImplicitCancellationOption::Disabled,
        ..VMOptions::default()
    };
    let headers = Headers::ContentType("application/vnd.restate.invocation.v7");
    let mut vm = done(CoreVM::new(alloc, headers, options))?;
    let mut start = Frames::new(alloc);
    start.start(known, is_partial)?;
    feed(alloc, &mut vm, &mut start)?;
    feed(alloc, &mut vm, entries)?;
    let input = done(vm.sys_input())?;
    drop(input);
    Ok(vm)
}

/// Awaits a handle.
pub(crate) fn awaits(vm: &mut CoreVM, handle: u32) -> Result<AwaitResponse, Failed> {
    done(vm.do_await(UnresolvedFuture::Single(NotificationHandle(handle))))
}

/// Takes the result of a handle.
pub(crate) fn take(vm: &mut CoreVM, handle: u32) -> Result<(), Failed> {
    let value = done(vm.take_notification(NotificationHandle(handle)))?;
    drop(value);
    Ok(())
}

/// Awaits a handle, and takes its result.
pub(crate) fn take_awaited(vm: &mut CoreVM, handle: u32) -> Result<(), Failed> {
    match awaits(vm, handle)? {
        AwaitResponse::AnyCompleted => take(vm, handle),
        _ => Err(Failed),
    }
}
