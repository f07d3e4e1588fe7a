//! A session as C holds it.
ghost use Rattle.std.specs.Prelude.{◌≡◌, Option, Some, None};
ghost use Rattle.std.specs.Option.{MatchOption};
ghost use Rattle.c_sessions.specs.declared.session.Session.{Session};
ghost use Rattle.c_sessions.specs.contracts.session.Session.{the_row as session_row};
ghost use Rattle.c_values.specs.Held.{held};

use crate::session::Session;
use c_values::Loose;
use std::alloc::Global;
use std::marker::Model;

/// A session as C holds it: none, which is all zeroes, or the pointer to its block. It isn't `Drop`: whoever has one takes the
/// session out by `take`, so none is forgotten.
#[repr(C)]
pub struct Vm {
    pub(crate) at: *mut u8,
    pub ghost value: { Option Session },
}

impl Model for Vm {
    ghost also_owns = { λ p. held session_row p.at p.value };
}

/// No session.
fn empty() -> Vm
    ensures { result.value ≡ None }
{
    Vm {
        at: std::ptr::null_mut(),
    }
}

/// A session's box, as C holds it.
fn hide(loose: Loose<Session, Global>) -> Vm
    ensures { result.value ≡ Some loose.value }
{
    let Loose { at, alloc: _ } = loose;
    Vm { at: at as *mut u8 }
}

/// The session's box, if C holds one.
fn show(vm: Vm, alloc: Global) -> Option<Loose<Session, Global>>
    ensures { MatchOption result (vm.value ≡ None) (λ l. vm.value ≡ Some l.value) }
{
    let Vm { at } = vm;
    if at.is_null() {
        None
    } else {
        Some(Loose {
            at: at as *mut Session,
            alloc,
        })
    }
}

/// Takes the session out of the hands of C.
pub fn take(alloc: Global, vm: &mut Vm) -> Option<Box<Session>>
    ensures emptied { vm.new.value ≡ None }
    ensures taken { MatchOption result (vm.old.value ≡ None) (λ session. vm.old.value
        ≡ Some session.value) }
{
    match show(std::mem::replace(vm, empty()), alloc) {
        Some(loose) => Some(loose.into_box()),
        None => None,
    }
}

/// Puts a session into the hands of C. One that was there is dropped.
pub fn give(alloc: Global, vm: &mut Vm, session: Box<Session>)
    ensures { vm.new.value ≡ Some session.value }
{
    let former = std::mem::replace(vm, hide(Loose::of(session)));
    if let Some(loose) = show(former, alloc) {
        drop(loose.into_box());
    }
}

unsafe impl Send for Vm {}
