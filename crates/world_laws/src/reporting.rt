//! The law of proposed results: each is that of a run's result which was reported.
ghost use Rattle.std.specs.Prelude.{ℕ, List};
ghost use Rattle.std.specs.List.{AllByRecursion};
ghost use Rattle.std.proofs.Common.{Global};
ghost use Rattle.invocation_vm.specs.Making.{made};
ghost use Rattle.vm_model.specs.Fixed.{Fixed};
ghost use Rattle.vm_attempt.specs.Record.{Record};
ghost use Rattle.vm_attempt.specs.Stepping.{fresh_record};
ghost use Rattle.vm_attempt.specs.Courses.{Leads};
ghost use Rattle.world_laws.specs.Reports.{WasReported};

/// No result of a run is invented: each result that an attempt proposed was reported to it for a handle, and it is proposed for the
/// pending run of that handle, with the value that was reported, or as the failure that the retry policy makes of it.
pub fn proposals_are_of_reports()
    ensures { (fixed : Fixed) (alloc : Global) (n : ℕ) (r : Record)
        → Leads fixed.handler n (fresh_record (made alloc fixed.options fixed.version)) r
        → AllByRecursion (WasReported fixed.handler
        (fresh_record (made alloc fixed.options fixed.version)) r) r.proposed }
{}
