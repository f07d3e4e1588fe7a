//! A law of deliveries: what can come comes.
ghost use Rattle.std.specs.Prelude.{◌≡◌, ℕ, [], List};
ghost use Rattle.engine_fences.specs.Deliveries.{AllHaveToWait, HasLiveAttempt, NothingCanCome, WhatCanComes};
ghost use Rattle.engines.specs.Deliveries.{AllDelivered};
ghost use Rattle.engines.specs.Engines.{AllHappen};
ghost use Rattle.engines.specs.declared.types.Happening.{Happening};

use engines::Engine;
use vm_types::Handler;

/// What can come by what is there now comes by its delivery, if an attempt of its invocation lives.
pub fn what_can_come_comes<'a, H: Handler + Drop>(engine: &Engine<'a, H>)
    ensures comes { WhatCanComes (λ h. H.meaning h) engine.now }
    // As many deliveries as things wait, one after another, leave nothing that can come.
    ensures all { (place : ℕ) (new : _) → HasLiveAttempt engine.now place
        → AllDelivered (λ h. H.meaning h) place engine.now new → NothingCanCome new place }
    // In an engine that began without an invocation, all that still waits then is a sleep whose time hasn't come, or the result of an
    // invocation that hasn't ended.
    ensures causes { engine.now.invocations.items ≡ [] → (events : List Happening) (mid new : _)
        (place : ℕ) → AllHappen (λ h. H.meaning h) events engine.now mid → HasLiveAttempt mid place
        → AllDelivered (λ h. H.meaning h) place mid new → AllHaveToWait new place }
{}
