//! The event of all calls that have a command: the command is written, or in replay the recorded one is popped.
ghost use Rattle.std.specs.Prelude.{◌≡◌, ◌<◌, ◌+◌, ◌^◌, ◌∷◌, [], true, Some, IfNone, IfSome, IfOk, OnOk, OnErr};
ghost use Rattle.journal_protocol.specs.Bodies.{message_in};
ghost use Rattle.journal_protocol.specs.Errors.{named_error};
ghost use Rattle.journal_protocol.specs.Frames.{IsWhole, type_of};
ghost use Rattle.vm_machine.specs.Outcomes.{Gives, about_last, last_related, lasting};
ghost use Rattle.vm_machine.specs.Commands.{entered, phase_after, written, popped, replayed, carried_out, handed_out, knows_next, misfit_of, mismatch_unless, runs_after, Carries, Issues};
ghost use Rattle.vm_types.specs.Options.{checks_are_off};
ghost use Rattle.vm_machine.specs.Phases.{is_processing};
ghost use Rattle.vm_asks.specs.Requests.{changed, ids_of, tracked_after};

use crate::fault::{Fault, refuse};
use crate::machine::Machine;
use crate::phase::Phase;
use await_trees::NotificationHandle;
use journal_protocol::{
    Error, Message, MessageType, NamedFault, NotificationId, RawMessage, RelatedCommand,
};
use journal_replay::header_eq;
use plain::{Text, copy_of};
use std::alloc::{AllocError, Global};
use vm_asks::Command;
use vm_asks::request::{give_ids, ids_of, is_cancelled_with, name_of, shown_type};
use vm_parts::{LastCommand, Queue};
use vm_types::NonDeterministicChecksOption;

/// An error that relates to the command that would come next.
pub fn about_next(fault: NamedFault, index: u32, ty: MessageType, name: Text) -> Error
    ensures { result ≡ named_error fault (Some (record { index = index; ty = ty; name = name })) }
{
    Error::named(fault, Some(RelatedCommand { index, ty, name }))
}

/// The phase in which these recorded commands are left.
fn phase_after(commands: &Queue<RawMessage>) -> Phase
    ensures { result ≡ phase_after commands.now }
{
    if commands.is_empty() {
        Phase::Processing
    } else {
        Phase::Replaying
    }
}

/// A mismatch, unless the commands are equal.
fn mismatch_unless(equal: bool) -> Option<NamedFault>
    ensures { result ≡ mismatch_unless equal }
{
    if equal {
        None
    } else {
        Some(NamedFault::CommandMismatch)
    }
}

/// Why a recorded command isn't this one, if it isn't. It is looked at where it was read, since a message is large to hand on.
fn misfit(
    alloc: Global,
    raw: &RawMessage,
    asked: &Message,
    ignore_payloads: bool,
) -> Result<Option<NamedFault>, AllocError>
    ensures { IfOk result (λ fault. fault
        ≡ misfit_of asked.now ignore_payloads (message_in raw.now.ty raw.now.body)) }
{
    let read = raw.read(alloc);
    match &read {
        Ok(recorded) => Ok(mismatch_unless(header_eq(recorded, asked, ignore_payloads))),
        Err(plain::Fault::Memory) => Err(AllocError),
        Err(plain::Fault::Malformed) => Ok(Some(NamedFault::BadMessage)),
    }
}

fn checks_are_off(option: NonDeterministicChecksOption) -> bool
    ensures { result ≡ checks_are_off option }
{
    matches!(option, NonDeterministicChecksOption::PayloadChecksDisabled)
}

impl Machine {
    /// Counts a command, and keeps its type and name.
    #[inline(always)]
    pub fn enter(&mut self, ty: MessageType, name: Text)
        ensures { self.new ≡ entered ty name self.old }
    {
        self.counters.command = Some(self.counters.next_index());
        self.last_command = LastCommand { ty, name };
    }

    /// The last command, as an error that relates to it shows it.
    pub fn last_related(&self) -> Result<RelatedCommand, AllocError>
        ensures { IfOk result (λ related. related ≡ last_related self.now) }
    {
        Ok(RelatedCommand {
            index: self.counters.command.unwrap_or(0),
            ty: self.last_command.ty,
            name: copy_of(&self.last_command.name)?,
        })
    }

    /// An error that relates to the last command.
    pub fn about_last(&self, fault: NamedFault) -> Result<Error, AllocError>
        ensures { IfOk result (λ e. e ≡ about_last fault self.now) }
    {
        Ok(Error::named(fault, Some(self.last_related()?)))
    }

    /// Pops the next recorded command, if one is left; after the last the machine is in Processing.
    pub fn pop_next(&mut self) -> Option<RawMessage>
        ensures none { IfNone result ((self.old.commands ≡ []) × (self.new ≡ self.old)) }
        ensures some { IfSome result (λ raw. (self.old.commands ≡ raw ∷ self.new.commands)
            × (self.new ≡ record self.old {
              commands = self.new.commands;
              phase = phase_after self.new.commands;
            })) }
    {
        let raw = self.commands.pop()?;
        self.phase = phase_after(&self.commands);
        Some(raw)
    }

    /// Pops the next recorded command, which has to be of this type.
    #[tactic(auto, unfolding(crate::specs::Commands::popped))]
    pub fn pop(&mut self, ty: MessageType) -> Result<RawMessage, Fault>
        ensures step { Gives (popped ty self.old) result self.old self.new }
        ensures quiet { lasting self.new ≡ lasting self.old }
    {
        let Some(raw) = self.pop_next() else {
            return Err(Fault::Refused(self.about_last(NamedFault::UnavailableEntry)?));
        };
        if !raw.has_type(ty) {
            return Err(Fault::Refused(self.about_last(NamedFault::CommandTypeMismatch)?));
        }
        Ok(raw)
    }

    #[tactic(auto, unfolding(crate::specs::Commands::replayed), using(crate::proofs::Replaying::replays_fit))]
    #[inline(never)]
    fn replay(&mut self, message: &Message, ignore_payloads: bool) -> Result<(), Fault>
        ensures { Gives (replayed message.now ignore_payloads self.old) result self.old self.new }
    {
        let raw = self.pop(message.ty())?;
        match misfit(self.alloc, &raw, message, ignore_payloads)? {
            None => Ok(()),
            Some(fault) => Err(Fault::Refused(self.about_last(fault)?)),
        }
    }

    pub fn write(&mut self, message: &Message) -> Result<(), AllocError>
        ensures ok { OnOk result (self.new ≡ written message.now self.old) }
        ensures whole { OnOk result (IsWhole message.now) }
        ensures err { OnErr result (lasting self.new ≡ lasting self.old) }
    {
        self.output.write(self.alloc, message)?;
        self.wrote_command = true;
        Ok(())
    }

    #[tactic(auto, unfolding(crate::specs::Commands::carried_out))]
    fn carry_out(&mut self, message: &Message, ignore_payloads: bool) -> Result<(), Fault>
        ensures does { Gives (carried_out message.now ignore_payloads self.old) result self.old
            self.new }
        ensures whole { OnOk result (is_processing self.old.phase ≡ true → IsWhole message.now) }
    {
        if self.phase.is_processing() {
            self.write(message)?;
            return Ok(());
        }
        self.replay(message, ignore_payloads)
    }

    /// Gives this number of next handles the next completion ids.
    #[inline(always)]
    pub fn hand_out(&mut self, ids: u32) -> Result<(), AllocError>
        requires ids { self.old.counters.completion + ids < 2 ^ 32 }
        requires handles { self.old.counters.handle + ids < 2 ^ 32 }
        ensures ok { OnOk result (self.new ≡ handed_out ids self.old) }
        ensures err { OnErr result (lasting self.new ≡ lasting self.old) }
    {
        for i in 0..ids {
            let id = NotificationId::CompletionId(self.counters.completion + i);
            self.results.map_handle(self.counters.handle + i, id)?;
        }
        self.counters.completion += ids;
        self.counters.handle += ids;
        Ok(())
    }

    /// Keeps the first handle of a command whose invocation is cancelled with the handler's.
    fn track(&mut self, command: &Message, handle: NotificationHandle) -> Result<(), AllocError>
        ensures ok { OnOk result (self.new
            ≡ record self.old {
              tracked = tracked_after self.old.options.implicit_cancellation
                  command.now handle.0 self.old.tracked;
            }) }
        ensures err { OnErr result (lasting self.new ≡ lasting self.old) }
    {
        if is_cancelled_with(self.options.implicit_cancellation, command) {
            self.tracked.push(handle.0)?;
        }
        Ok(())
    }

    /// Whether the completion id that comes next has a result already.
    pub fn knows_next(&self) -> bool
        ensures { result ≡ knows_next self.now }
    {
        let id = NotificationId::CompletionId(self.counters.completion);
        self.results.knows(&id)
    }

    /// Keeps a run whose result isn't known, by its handle and its index.
    fn note_run(
        &mut self,
        command: &Message,
        handle: NotificationHandle,
        index: u32,
    ) -> Result<(), AllocError>
        ensures ok { OnOk result (self.new
            ≡ record self.old {
              runs = runs_after command.now handle self.old.counters.completion
                  index (knows_next self.old) self.old.runs;
            }) }
        ensures err { OnErr result (lasting self.new ≡ lasting self.old) }
    {
        if let Message::Run(run) = command {
            if !self.knows_next() {
                let name = copy_of(&run.name)?;
                self.runs
                    .insert_run_to_execute(handle, self.counters.completion, index, name)?;
            }
        }
        Ok(())
    }

    /// What a command changes of the state.
    fn change(&mut self, command: &Message) -> Result<(), AllocError>
        ensures ok { OnOk result (self.new
            ≡ record self.old { state = changed command.now self.old.state }) }
        ensures err { OnErr result (lasting self.new ≡ lasting self.old) }
    {
        match command {
            Message::SetState(command) => self.state.set(&command.key, &command.value),
            Message::ClearState(command) => self.state.clear(&command.key),
            Message::ClearAllState(_) => {
                self.state.clear_all();
                Ok(())
            }
            _ => Ok(()),
        }
    }

    /// A call that has a command, which is given without its numbers, and whether its payload may differ from one
    /// attempt to the next.
    #[tactic(auto, using(vm_asks::proofs::Numbering::same_type), unfolding(crate::specs::Commands::issued))]
    pub fn issue(
        &mut self,
        message: &mut Message,
        unstable: bool,
    ) -> Result<NotificationHandle, Fault>
        ensures does { Issues message.old unstable result self.old self.new }
        ensures same { type_of message.new ≡ type_of message.old }
    {
        let ty = shown_type(message);
        let name = name_of(self.alloc, message)?;
        if !self.phase.is_running() {
            self.enter(ty, name);
            return Err(Fault::Refused(self.about_last(self.phase.fault())?));
        }
        let ids = ids_of(message);
        let index = self.counters.next_index();
        if let Some(fault) = self.counters.missing(ids, 0, ids) {
            return Err(Fault::Refused(about_next(fault, index, ty, name)));
        }
        let handle = NotificationHandle(self.counters.handle);
        self.track(message, handle)?;
        self.note_run(message, handle, index)?;
        give_ids(message, self.counters.completion);
        self.enter(ty, name);
        self.hand_out(ids)?;
        self.change(message)?;
        let ignore_payloads = checks_are_off(self.options.non_determinism_checks) || unstable;
        self.carry_out(message, ignore_payloads)?;
        Ok(handle)
    }

    /// A call that has a command, unless its arguments refuse it.
    #[inline(always)]
    pub fn command(&mut self, command: &mut Command) -> Result<NotificationHandle, Fault>
        ensures { Carries command.old result self.old self.new }
    {
        if let Some(fault) = command.refusal {
            return Err(refuse(fault));
        }
        self.issue(&mut command.message, command.unstable)
    }
}
