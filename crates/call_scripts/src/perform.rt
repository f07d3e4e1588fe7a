//! What a line asks for, done.
ghost use Rattle.std.specs.Prelude.{◌≡◌, None};
ghost use Rattle.call_scripts.specs.Performed.{Performed};
ghost use Rattle.vm_types.specs.declared.reply.Reply.TheVariants as reply;

use call_lines::request::Request;
use invocation_vm::CoreVM;
use std::alloc::Global;
use vm_calls::making::make_anew;
use vm_calls::perform::perform_call;
use vm_types::Reply;

/// Drops the last VM, since no new one can be made.
fn bad_make(vm: &mut Option<CoreVM>) -> Reply
    ensures vm { vm.new ≡ None }
    ensures reply { result ≡ reply.Bad }
{
    *vm = None;
    Reply::Bad
}

/// Does what a line asks for.
pub fn perform(alloc: Global, vm: &mut Option<CoreVM>, request: Request) -> Reply
    ensures { Performed alloc request vm.old result vm.new }
{
    match request {
        Request::Nothing => Reply::Nothing,
        Request::Bad => Reply::Bad,
        Request::BadMake => bad_make(vm),
        Request::Make(content_type, options) => make_anew(alloc, vm, content_type, options),
        Request::Call(call) => match vm {
            Some(vm) => perform_call(vm, call),
            None => {
                drop(call);
                Reply::NoVm
            }
        },
    }
}
