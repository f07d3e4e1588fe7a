//! `Counters`: the numbers that calls are given.
ghost use Rattle.std.specs.Prelude.{◌≡◌, ◌<◌, ◌+◌, ◌^◌, IfNone};
ghost use Rattle.vm_state.specs.Counting.{fresh_counters, next_index, missing_number, missing_ephemeral, missing_signals};

use journal_errors::NamedFault;

/// The next numbers, each one's place; a counter at `u32::MAX` hands nothing out.
#[derive(Clone, Copy)]
pub struct Counters {
    /// The index of the last command; none before any.
    pub command: Option<u32>,
    pub completion: u32,
    pub signal: u32,
    pub handle: u32,
    pub ephemeral: u32,
}

impl Counters {
    /// Command indexes count from 0, completion and ephemeral ids from 1, signal ids and handles from 17.
    pub fn new() -> Counters
        ensures { result ≡ fresh_counters }
    {
        Counters {
            command: None,
            completion: 1,
            signal: 17,
            handle: 17,
            ephemeral: 1,
        }
    }

    /// The index after the last command; it stays at `u32::MAX`.
    pub fn next_index(&self) -> u32
        ensures { result ≡ next_index self.now.command }
    {
        match self.command {
            None => 0,
            Some(index) => index.saturating_add(1),
        }
    }

    /// The first kind of number of which too few are left for a call with a command.
    pub fn missing(&self, ids: u32, signals: u32, handles: u32) -> Option<NamedFault>
        ensures found { result ≡ missing_number ids signals handles self.now }
        ensures ids_left { IfNone result (self.now.completion + ids < 2 ^ 32) }
        ensures signals_left { IfNone result (self.now.signal + signals < 2 ^ 32) }
        ensures handles_left { IfNone result (self.now.handle + handles < 2 ^ 32) }
    {
        if u32::MAX - self.completion < ids {
            return Some(NamedFault::ExhaustedCompletionIds);
        }
        if let Some(fault) = self.missing_signals(signals, handles) {
            return Some(fault);
        }
        if self.command.unwrap_or(0) == u32::MAX {
            return Some(NamedFault::ExhaustedCommandIndexes);
        }
        None
    }

    /// The first kind of number of which too few are left for a call that has no command.
    pub fn missing_signals(&self, signals: u32, handles: u32) -> Option<NamedFault>
        ensures found { result ≡ missing_signals signals handles self.now }
        ensures signals_left { IfNone result (self.now.signal + signals < 2 ^ 32) }
        ensures handles_left { IfNone result (self.now.handle + handles < 2 ^ 32) }
    {
        if u32::MAX - self.signal < signals {
            Some(NamedFault::ExhaustedSignalIds)
        } else if u32::MAX - self.handle < handles {
            Some(NamedFault::ExhaustedHandles)
        } else {
            None
        }
    }

    /// Whether no id is left for an ephemeral read.
    pub fn missing_ephemeral(&self) -> Option<NamedFault>
        ensures found { result ≡ missing_ephemeral self.now }
        ensures left { IfNone result (self.now.ephemeral + 1 < 2 ^ 32) }
    {
        if self.ephemeral == u32::MAX {
            return Some(NamedFault::ExhaustedEphemeralIds);
        }
        None
    }
}
