//! A new VM, which replaces the last one.
ghost use Rattle.std.specs.Prelude.{◌≡◌, codes};
ghost use Rattle.invocation_vm.specs.Making.{version_in};
ghost use Rattle.vm_types.specs.ContentTypes.{header_under};
ghost use Rattle.vm_calls.specs.Making.{VmIsMade};

use invocation_vm::{CoreVM, VM};
use std::alloc::Global;
use vm_types::{ContentType, Reply, VMOptions};

/// Replaces the last VM by another one, or by none. The last one is dropped.
fn replace(vm: &mut Option<CoreVM>, new: Option<CoreVM>)
    ensures { vm.new ≡ new }
{
    *vm = new;
}

/// Replaces the last VM by a new one. The last one is dropped first. Returns the new one's version, or why none was made.
#[tactic(auto, using(crate::proofs::Made::made_as_asked))]
pub fn make_anew(
    alloc: Global,
    vm: &mut Option<CoreVM>,
    content_type: ContentType,
    options: VMOptions,
) -> Reply
    ensures { VmIsMade alloc options (version_in (header_under content_type (codes "content-type")))
        result
        vm.new }
{
    replace(vm, None);
    match CoreVM::new(alloc, content_type, options) {
        Ok(new) => {
            let version = new.version();
            replace(vm, Some(new));
            Reply::Made(version)
        }
        Err(error) => Reply::Refused(error),
    }
}
