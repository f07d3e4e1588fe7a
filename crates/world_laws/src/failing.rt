//! The law of an attempt's error: by which of its calls it came.
ghost use Rattle.std.specs.Prelude.{◌≡◌, ℕ, Some};
ghost use Rattle.std.proofs.Common.{Global};
ghost use Rattle.journal_protocol.specs.Error.{Error};
ghost use Rattle.invocation_vm.specs.Making.{made};
ghost use Rattle.vm_model.specs.Fixed.{Fixed};
ghost use Rattle.vm_attempt.specs.Record.{Record};
ghost use Rattle.vm_attempt.specs.Stepping.{fresh_record};
ghost use Rattle.vm_attempt.specs.Courses.{FailedByCall, Leads};

/// Each error of an attempt's VM came by one of the attempt's own calls: a piece that was fed, the end of its input, a step of its handler
/// or the result of a run. The VM had no error before that call, which left this one, by what such a call does.
pub fn errors_come_by_calls()
    ensures { (fixed : Fixed) (alloc : Global) (n : ℕ) (r : Record) (e : Error)
        → Leads fixed.handler n (fresh_record (made alloc fixed.options fixed.version)) r
        → r.vm.machine.failure ≡ Some e → FailedByCall fixed.handler
        (fresh_record (made alloc fixed.options fixed.version)) r e }
{}
