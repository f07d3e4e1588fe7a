//! Runs in the order of their calls, each found by its handle: handles rise.
ghost use Rattle.std.specs.Prelude.{◌≡◌, ◌<◌, [], ◌∷◌, ◌++◌, OnErr, IfOk, IfNone, IfSome, find, true};
ghost use Rattle.std.specs.List.{AllByRecursion, list_any};
ghost use Rattle.std.specs.Option.{option_map};
ghost use Rattle.vm_runs.specs.Firsts.{with_first, without_first};
ghost use Rattle.vm_runs.specs.Pending.{executes, handle_of, has_handle, run_info, is_executing, is_executing_in, lesser_handle, may_execute, run_started, is_waiting_run};

use crate::pending::{PendingRun, RunExecution};
use await_trees::NotificationHandle;
use std::alloc::{AllocError, Global};
use std::collections::BTreeMap;
use std::marker::Model;

/// Contracts see the list of the runs. A call takes a time that grows with the logarithm of their number, for each handle that
/// it is given.
#[derive(Drop)]
pub struct OrderedRuns {
    by_handle: BTreeMap<u32, PendingRun>,
}

impl Model for OrderedRuns {
    ghost use Rattle.std.specs.Prelude.{◌≡◌, List};
    ghost use Rattle.std.specs.List.{AllByRecursion};
    ghost use Rattle.std.specs.List.Sorted.{IsStrictlySortedBy};
    ghost use Rattle.std.specs.Map.{keys_of, values_of};
    ghost use Rattle.std.specs.Ordering.{nat_cmp};
    ghost use Rattle.vm_runs.specs.declared.pending.PendingRun.{PendingRun};

    ghost Value = { List PendingRun };

    ghost view = { λ runs. values_of runs.by_handle.entries };

    ghost invariant = { λ runs. AllByRecursion (λ e. e.0 ≡ e.1.handle) runs.by_handle.entries
        × IsStrictlySortedBy nat_cmp (keys_of runs.by_handle.entries) };
}

/// The less of two handles.
fn lesser(least: Option<u32>, handle: u32) -> u32
    ensures { result ≡ lesser_handle least handle }
{
    match least {
        Some(other) => other.min(handle),
        None => handle,
    }
}

fn waits(execution: RunExecution) -> bool
    ensures { result ≡ is_waiting_run execution }
{
    match execution {
        RunExecution::Waiting => true,
        RunExecution::Executing => false,
    }
}

fn executes(execution: RunExecution) -> bool
    ensures { result ≡ executes execution }
{
    match execution {
        RunExecution::Waiting => false,
        RunExecution::Executing => true,
    }
}

impl OrderedRuns {
    /// No runs.
    pub fn new(alloc: Global) -> OrderedRuns
        ensures { result ≡ [] }
    {
        OrderedRuns {
            by_handle: BTreeMap::new(alloc),
        }
    }

    /// Whether a handle is above those of all runs.
    fn is_next(&self, handle: u32) -> bool
        ensures { result ≡ true → AllByRecursion (λ run. run.handle < handle) self.now }
    {
        match self.by_handle.last_key_value() {
            Some((last, _)) => *last < handle,
            None => true,
        }
    }

    /// A run is called after the others. It comes back if its handle isn't above theirs.
    pub fn push(&mut self, run: PendingRun) -> Result<Option<PendingRun>, AllocError>
        ensures called { IfOk result (λ back. IfNone back (self.new ≡ self.old ++ run ∷ [])) }
        ensures back { IfOk result (λ back. IfSome back (λ r. (r ≡ run) × (self.new ≡ self.old))) }
        ensures err { OnErr result (self.new ≡ self.old) }
    {
        if !self.is_next(run.handle) {
            return Ok(Some(run));
        }
        self.by_handle.insert(run.handle, run)?;
        Ok(None)
    }

    /// Whether the run of this handle waits.
    fn waits(&self, handle: u32) -> bool
        ensures { result ≡ list_any (may_execute (handle ∷ [])) self.now }
    {
        match self.by_handle.get(&handle) {
            Some(run) => waits(run.execution),
            None => false,
        }
    }

    /// Of the runs that wait and have one of these handles the first has this one.
    fn handle_to_execute(&self, any_handle: &[u32]) -> Option<u32>
        ensures { result
            ≡ option_map (λ run. run.handle) (find (may_execute any_handle.now) self.now) }
    {
        let _ = &self.by_handle;
        let mut least = None;
        for handle in any_handle {
            if self.waits(*handle) {
                least = Some(lesser(least, *handle));
            }
        }
        least
    }

    /// The run of this handle is executed from now on.
    fn execute(&mut self, handle: u32)
        ensures { self.new ≡ with_first (has_handle (record { 0 = handle })) run_started self.old }
    {
        let Some(run) = self.by_handle.get_mut(&handle) else {
            return;
        };
        run.execution = RunExecution::Executing;
    }

    /// Of the runs that wait and have one of these handles the first is executed from now on.
    pub fn try_execute_run(&mut self, any_handle: &[u32]) -> Option<NotificationHandle>
        ensures run { result ≡ option_map handle_of (find (may_execute any_handle.now) self.old) }
        ensures rest { self.new ≡ with_first (may_execute any_handle.now) run_started self.old }
    {
        let _ = &self.by_handle;
        let handle = self.handle_to_execute(any_handle)?;
        self.execute(handle);
        Some(NotificationHandle(handle))
    }

    /// The index and the name of the run's command.
    pub fn get_run_info(&self, handle: &NotificationHandle) -> Option<(u32, &str)>
        ensures { option_map (λ info. (info.0, info.1.now)) result
            ≡ option_map run_info (find (has_handle handle.now) self.now) }
    {
        let run = self.by_handle.get(&handle.0)?;
        Some((run.command_index, run.name.as_str()))
    }

    /// Whether the run of this handle is being executed.
    fn executes(&self, handle: u32) -> bool
        ensures { result ≡ list_any (is_executing_in (handle ∷ [])) self.now }
    {
        match self.by_handle.get(&handle) {
            Some(run) => executes(run.execution),
            None => false,
        }
    }

    /// Whether a run with one of these handles is being executed.
    pub fn any_executing_in_this_set(&self, any_handle: &[u32]) -> bool
        ensures { result ≡ list_any (is_executing_in any_handle.now) self.now }
    {
        for handle in any_handle {
            if self.executes(*handle) {
                return true;
            }
        }
        false
    }

    /// Whether any run is being executed. It looks at each, until one is.
    pub fn any_executing(&self) -> bool
        ensures { result ≡ list_any is_executing self.now }
    {
        self.by_handle
            .values()
            .any(|run| run.execution == RunExecution::Executing)
    }

    /// The run of this handle isn't pending any more.
    pub fn notify_execution_completed(&mut self, executed: NotificationHandle) -> Option<PendingRun>
        ensures run { result ≡ find (has_handle executed) self.old }
        ensures rest { self.new ≡ without_first (has_handle executed) self.old }
    {
        self.by_handle.remove(&executed.0)
    }
}
