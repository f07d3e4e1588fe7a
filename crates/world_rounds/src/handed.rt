//! What a round hands out: its Start message, with the state as the journal's commands have changed it.
ghost use Rattle.std.specs.Prelude.{◌≡◌, ◌≤◌, length, IfOk, OnOk};
ghost use Rattle.journal_protocol.specs.Frames.{encoding, IsWhole};
ghost use Rattle.journal_protocol.specs.Message.TheVariants as message;
ghost use Rattle.vm_state.specs.declared.state_map.StateCoverage.TheVariants.{Complete};
ghost use Rattle.vm_state.specs.Entries.{entries_of as state_entries};
ghost use Rattle.journal_entries.specs.Arrivals.{most_entries};
ghost use Rattle.world_rounds.specs.States.{HaveTextKeys, pairs_for, state_after};
ghost use Rattle.world_rounds.specs.Worlds.{start_message};

use crate::types::{Identity, Round, Setting};
use crate::values::Values;
use bytes::Bytes;
use journal_protocol::{Encoder, Message, Start};
use plain::{Items, Text};
use std::alloc::{AllocError, Global};

/// The state before any command.
fn base_values(alloc: Global, base: &[(Text, Bytes)]) -> Result<Values, AllocError>
    ensures { IfOk result (λ v. v
        ≡ record { entries = state_entries base.now; coverage = Complete }) }
{
    let mut values = Values::new(alloc);
    for (key, value) in base {
        values.set(key, value)?;
    }
    Ok(values)
}

/// The state after the journal's commands.
fn values_after(alloc: Global, setting: &Setting, journal: &[Bytes]) -> Result<Values, AllocError>
    ensures { IfOk result (λ v. v ≡ state_after setting.now journal.now) }
{
    let mut values = base_values(alloc, setting.base.as_slice())?;
    values.apply_all(alloc, journal)?;
    Ok(values)
}

/// The pairs that a round hands out.
fn handed_pairs(
    alloc: Global,
    setting: &Setting,
    round: &Round,
    journal: &[Bytes],
) -> Result<Items<(Bytes, Bytes)>, AllocError>
    ensures pairs { IfOk result (λ pairs. pairs ≡ pairs_for setting.now round.now journal.now) }
    ensures texts { OnOk result (HaveTextKeys (pairs_for setting.now round.now journal.now)) }
{
    let values = values_after(alloc, setting, journal)?;
    values.pairs(alloc, round.partial, round.keys.as_slice())
}

fn copy_identity(identity: &Identity) -> Result<Identity, AllocError>
    ensures { IfOk result (λ copy. copy ≡ identity.now) }
{
    identity.clone()
}

fn encode_start(alloc: Global, start: Start) -> Result<Bytes, AllocError>
    ensures bytes { IfOk result (λ b. b ≡ encoding (message.Start start)) }
    ensures whole { OnOk result (IsWhole (message.Start start)) }
{
    let message = Message::Start(start);
    Encoder::new(alloc).encode(&message)
}

/// The frame of a round's Start.
pub fn start_bytes(
    alloc: Global,
    setting: &Setting,
    round: &Round,
    journal: &[Bytes],
) -> Result<Bytes, AllocError>
    requires { length journal.now ≤ most_entries }
    ensures bytes { IfOk result (λ b. b
        ≡ encoding (start_message setting.now round.now journal.now)) }
    ensures whole { OnOk result (IsWhole (start_message setting.now round.now journal.now)) }
    ensures texts { OnOk result (HaveTextKeys (pairs_for setting.now round.now journal.now)) }
{
    let pairs = handed_pairs(alloc, setting, round, journal)?;
    let identity = copy_identity(&setting.identity)?;
    let start = identity.into_start(pairs, round, journal.len() as u32);
    encode_start(alloc, start)
}
