//! What happens to an engine.

use engine_inboxes::Order;
use world_rounds::Event;

/// What happens. Numbers are places of invocations, in the order in which they were made.
#[derive(Drop)]
pub enum Happening {
    /// An invocation is asked for from outside.
    Submit(Order),
    /// A new attempt begins, if it is the invocation's turn. One that lives is lost.
    Begin(usize),
    /// This happens to the attempt: a piece, a close, a step, or the result of a run. An arrival or a store is nothing here.
    Act(usize, Event),
    /// What waits at this place is delivered to the attempt, if it can be.
    Deliver(usize, usize),
    /// The next command or proposal that the attempt wrote is stored, with its effect.
    Store(usize),
    /// The attempt is lost, with what wasn't stored.
    Stop(usize),
    /// All attempts are lost.
    StopAll,
    /// It is this late, in ms since the Unix epoch, or later.
    Clock(u64),
}
