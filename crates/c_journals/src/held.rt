//! A journal as C holds it.
ghost use Rattle.std.specs.Prelude.{◌≡◌, Option, Some, None};
ghost use Rattle.std.specs.Option.{MatchOption};
ghost use Rattle.c_journals.specs.declared.journal.HeldJournal.{HeldJournal};
ghost use Rattle.c_journals.specs.contracts.journal.HeldJournal.{the_row as journal_row};
ghost use Rattle.c_values.specs.Held.{held};

use crate::journal::HeldJournal;
use c_values::Loose;
use std::alloc::Global;
use std::marker::Model;

/// A journal as C holds it: none, which is all zeroes, or the pointer to its block. It isn't `Drop`: whoever has one takes the
/// journal out by `take`, so none is forgotten.
#[repr(C)]
pub struct Journal {
    pub(crate) at: *mut u8,
    pub ghost value: { Option HeldJournal },
}

impl Model for Journal {
    ghost also_owns = { λ p. held journal_row p.at p.value };
}

/// No journal.
fn empty() -> Journal
    ensures { result.value ≡ None }
{
    Journal {
        at: std::ptr::null_mut(),
    }
}

/// A journal's box, as C holds it.
fn hide(loose: Loose<HeldJournal, Global>) -> Journal
    ensures { result.value ≡ Some loose.value }
{
    let Loose { at, alloc: _ } = loose;
    Journal { at: at as *mut u8 }
}

/// The journal's box, if C holds one.
fn show(journal: Journal, alloc: Global) -> Option<Loose<HeldJournal, Global>>
    ensures { MatchOption result (journal.value ≡ None) (λ l. journal.value ≡ Some l.value) }
{
    let Journal { at } = journal;
    if at.is_null() {
        None
    } else {
        Some(Loose {
            at: at as *mut HeldJournal,
            alloc,
        })
    }
}

/// Takes the journal out of the hands of C.
pub(crate) fn take(alloc: Global, held: &mut Journal) -> Option<Box<HeldJournal>>
    ensures emptied { held.new.value ≡ None }
    ensures taken { MatchOption result (held.old.value ≡ None) (λ journal. held.old.value
        ≡ Some journal.value) }
{
    match show(std::mem::replace(held, empty()), alloc) {
        Some(loose) => Some(loose.into_box()),
        None => None,
    }
}

/// Puts a journal into the hands of C. One that was there is dropped.
pub(crate) fn give(alloc: Global, held: &mut Journal, journal: Box<HeldJournal>)
    ensures { held.new.value ≡ Some journal.value }
{
    let former = std::mem::replace(held, hide(Loose::of(journal)));
    if let Some(loose) = show(former, alloc) {
        drop(loose.into_box());
    }
}

unsafe impl Send for Journal {}
