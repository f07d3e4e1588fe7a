//! The law of which runs one attempt executes.
ghost use Rattle.std.specs.Prelude.{ℕ, Ok};
ghost use Rattle.std.proofs.Common.{Global};
ghost use Rattle.await_trees.specs.declared.handle.NotificationHandle.{NotificationHandle};
ghost use Rattle.invocation_vm.specs.Making.{made};
ghost use Rattle.journal_entries.specs.JournalFrames.{notifications_among};
ghost use Rattle.vm_model.specs.Fixed.{Fixed};
ghost use Rattle.vm_attempt.specs.declared.progress.Progress.TheVariants as progress;
ghost use Rattle.vm_attempt.specs.Record.{Record, heard};
ghost use Rattle.vm_attempt.specs.Stepping.{StepDoes, fresh_record};
ghost use Rattle.vm_attempt.specs.Courses.{Leads};
ghost use Rattle.vm_attempt.specs.Told.{Journal, Premises};
ghost use Rattle.world_laws.specs.Unfinished.{HasNoResult};

/// An attempt executes no run again whose result is stored: if a step hands out a run, that run is
/// pending, and the journal with which the attempt was begun, which are the entries that Start
/// counts, has no result of it. What comes after these entries may.
pub fn attempts_execute_no_finished_runs()
    ensures { (fixed : Fixed) (alloc : Global) (n : ℕ) (old new : Record)
        (handle : NotificationHandle)
        → Leads fixed.handler n (fresh_record (made alloc fixed.options fixed.version)) old
        → Premises fixed (heard fixed.version old)
        → StepDoes fixed.handler old (Ok (progress.ExecuteRun handle)) new
        → (j : Journal (heard fixed.version old))
        → HasNoResult handle new.vm.machine.runs (notifications_among j.entries) }
{}
