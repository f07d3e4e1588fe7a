//! The runs that were called and whose results are neither known nor proposed, in the order of their calls.
ghost use Rattle.std.specs.Prelude.{◌≡◌, [], ◌∷◌, ◌++◌, OnOk, OnErr, find, position, true};
ghost use Rattle.std.specs.List.{list_any};
ghost use Rattle.std.specs.Option.{option_map};
ghost use Rattle.vm_runs.specs.Firsts.{with_first, without_first};
ghost use Rattle.vm_runs.specs.Pending.{handle_of, has_handle, run_info, is_executing, is_executing_in, is_one_of, may_execute, run_started, to_execute};

use crate::ordered_runs::OrderedRuns;
use crate::pending::{PendingRun, RunExecution};
use await_trees::NotificationHandle;
use plain::Text;
use std::alloc::{AllocError, Global};
use std::marker::Model;

/// The runs that were called after one whose handle isn't above all handles before it: in a machine there are none, since
/// handles rise. Contracts see their list.
#[derive(Drop)]
struct LateRuns {
    pending: Vec<PendingRun>,
}

impl Model for LateRuns {
    ghost use Rattle.std.specs.Prelude.{List};
    ghost use Rattle.vm_runs.specs.declared.pending.PendingRun.{PendingRun};

    ghost Value = { List PendingRun };

    ghost view = { λ late. late.pending.items };
}

fn is_one_of(handle: u32, any_handle: &[u32]) -> bool
    ensures { result ≡ is_one_of any_handle.now handle }
{
    any_handle.iter().any(|other| *other == handle)
}

impl LateRuns {
    /// No runs.
    fn new(alloc: Global) -> LateRuns
        ensures { result ≡ [] }
    {
        LateRuns {
            pending: Vec::new(alloc),
        }
    }

    fn is_empty(&self) -> bool
        ensures { result ≡ true → self.now ≡ [] }
    {
        self.pending.is_empty()
    }

    /// A run is called after the others.
    fn push(&mut self, run: PendingRun) -> Result<(), AllocError>
        ensures ok { OnOk result (self.new ≡ self.old ++ run ∷ []) }
        ensures err { OnErr result (self.new ≡ self.old) }
    {
        self.pending.push(run)?;
        Ok(())
    }

    /// The place of the first run that waits and has one of these handles.
    fn place_to_execute(&self, any_handle: &[u32]) -> Option<usize>
        ensures { result ≡ position (may_execute any_handle.now) self.now }
    {
        self.pending.iter().position(|run| run.execution == RunExecution::Waiting
            && is_one_of(run.handle, any_handle))
    }

    /// The place of the first run with this handle.
    fn place_of(&self, handle: NotificationHandle) -> Option<usize>
        ensures { result ≡ position (has_handle handle) self.now }
    {
        self.pending.iter().position(|run| run.handle == handle.0)
    }

    fn try_execute_run(&mut self, any_handle: &[u32]) -> Option<NotificationHandle>
        ensures run { result ≡ option_map handle_of (find (may_execute any_handle.now) self.old) }
        ensures rest { self.new ≡ with_first (may_execute any_handle.now) run_started self.old }
    {
        let at = self.place_to_execute(any_handle)?;
        let run = &mut self.pending[at];
        run.execution = RunExecution::Executing;
        Some(NotificationHandle(run.handle))
    }

    fn get_run_info(&self, handle: &NotificationHandle) -> Option<(u32, &str)>
        ensures { option_map (λ info. (info.0, info.1.now)) result
            ≡ option_map run_info (find (has_handle handle.now) self.now) }
    {
        let run = self.pending.iter().find(|run| run.handle == handle.0)?;
        Some((run.command_index, run.name.as_str()))
    }

    fn any_executing_in_this_set(&self, any_handle: &[u32]) -> bool
        ensures { result ≡ list_any (is_executing_in any_handle.now) self.now }
    {
        self.pending.iter().any(|run| run.execution == RunExecution::Executing
            && is_one_of(run.handle, any_handle))
    }

    fn any_executing(&self) -> bool
        ensures { result ≡ list_any is_executing self.now }
    {
        self.pending
            .iter()
            .any(|run| run.execution == RunExecution::Executing)
    }

    fn notify_execution_completed(&mut self, executed: NotificationHandle) -> Option<PendingRun>
        ensures run { result ≡ find (has_handle executed) self.old }
        ensures rest { self.new ≡ without_first (has_handle executed) self.old }
    {
        let at = self.place_of(executed)?;
        Some(self.pending.remove(at))
    }
}

/// Contracts see the list of the runs.
#[derive(Drop)]
pub struct RunState {
    ordered: OrderedRuns,
    late: LateRuns,
}

impl Model for RunState {
    ghost use Rattle.std.specs.Prelude.{◌++◌, List};
    ghost use Rattle.vm_runs.specs.declared.pending.PendingRun.{PendingRun};

    ghost Value = { List PendingRun };

    ghost view = { λ state. state.ordered ++ state.late };
}

impl RunState {
    /// No runs.
    pub fn new(alloc: Global) -> RunState
        ensures { result ≡ [] }
    {
        RunState {
            ordered: OrderedRuns::new(alloc),
            late: LateRuns::new(alloc),
        }
    }

    /// A run is called after the others.
    fn push(&mut self, run: PendingRun) -> Result<(), AllocError>
        ensures ok { OnOk result (self.new ≡ self.old ++ run ∷ []) }
        ensures err { OnErr result (self.new ≡ self.old) }
    {
        if !self.late.is_empty() {
            return self.late.push(run);
        }
        match self.ordered.push(run)? {
            None => Ok(()),
            Some(run) => self.late.push(run),
        }
    }

    /// A run was called whose result isn't known.
    pub fn insert_run_to_execute(
        &mut self,
        handle: NotificationHandle,
        completion_id: u32,
        command_index: u32,
        command_name: Text,
    ) -> Result<(), AllocError>
        ensures ok { OnOk result (self.new ≡ self.old
            ++ to_execute handle completion_id command_index command_name ∷ []) }
        ensures err { OnErr result (self.new ≡ self.old) }
    {
        self.push(PendingRun {
            handle: handle.0,
            completion_id,
            command_index,
            name: command_name,
            execution: RunExecution::Waiting,
        })
    }

    /// Of the runs that wait and have one of these handles the first is executed from now on.
    pub fn try_execute_run(&mut self, any_handle: &[u32]) -> Option<NotificationHandle>
        ensures run { result ≡ option_map handle_of (find (may_execute any_handle.now) self.old) }
        ensures rest { self.new ≡ with_first (may_execute any_handle.now) run_started self.old }
    {
        match self.ordered.try_execute_run(any_handle) {
            Some(handle) => Some(handle),
            None => self.late.try_execute_run(any_handle),
        }
    }

    /// The index and the name of the run's command.
    pub fn get_run_info(&self, handle: &NotificationHandle) -> Option<(u32, &str)>
        ensures { option_map (λ info. (info.0, info.1.now)) result
            ≡ option_map run_info (find (has_handle handle.now) self.now) }
    {
        match self.ordered.get_run_info(handle) {
            Some(info) => Some(info),
            None => self.late.get_run_info(handle),
        }
    }

    /// Whether a run with one of these handles is being executed.
    pub fn any_executing_in_this_set(&self, any_handle: &[u32]) -> bool
        ensures { result ≡ list_any (is_executing_in any_handle.now) self.now }
    {
        self.ordered.any_executing_in_this_set(any_handle)
            || self.late.any_executing_in_this_set(any_handle)
    }

    /// Whether any run is being executed. It looks at each, until one is.
    pub fn any_executing(&self) -> bool
        ensures { result ≡ list_any is_executing self.now }
    {
        self.ordered.any_executing() || self.late.any_executing()
    }

    /// The run's result is proposed, so it isn't pending any more; none if no run has the handle.
    pub fn notify_execution_completed(&mut self, executed: NotificationHandle) -> Option<PendingRun>
        ensures run { result ≡ find (has_handle executed) self.old }
        ensures rest { self.new ≡ without_first (has_handle executed) self.old }
    {
        match self.ordered.notify_execution_completed(executed) {
            Some(run) => Some(run),
            None => self.late.notify_execution_completed(executed),
        }
    }
}
