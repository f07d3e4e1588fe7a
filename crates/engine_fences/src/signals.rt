//! Laws of signals that invocations send to each other.
ghost use Rattle.std.specs.Prelude.{◌≡◌, ℕ, ◌≤◌, ◌^◌, [], length, List};
ghost use Rattle.engine_fences.specs.Ordering.{AllInOrder, HappenInTurn, IsInTurn};
ghost use Rattle.engine_fences.specs.Signals.{AllAreNamed, NoneFromNowhere, SignalsComeOnce};
ghost use Rattle.engines.specs.Engines.{AllHappen};
ghost use Rattle.engines.specs.declared.types.Happening.{Happening};
ghost use Rattle.engines.specs.declared.types.Happening.TheVariants as happening;

use engines::Engine;
use vm_types::Handler;

/// Over all events each signal that a stored command sends to an invocation comes for it once, or waits for it.
pub fn signals_come_once<'a, H: Handler + Drop>(engine: &Engine<'a, H>)
    ensures once { (events : List Happening) (new : _)
        → AllHappen (λ h. H.meaning h) events engine.now new → SignalsComeOnce engine.now new }
    // Of an engine that began without an invocation no signal comes that wasn't sent.
    ensures sent { engine.now.invocations.items ≡ [] → (events : List Happening) (new : _)
        → AllHappen (λ h. H.meaning h) events engine.now new → NoneFromNowhere new }
    // And no two of its invocations have one id.
    ensures named { engine.now.invocations.items ≡ [] → (events : List Happening) (new : _)
        → AllHappen (λ h. H.meaning h) events engine.now new
        → length new.invocations.items ≤ 2 ^ 64 → AllAreNamed new }
{}

/// If each delivery that takes a signal takes the one that has waited longest, signals come in the order in which they were sent.
pub fn signals_come_in_order<'a, H: Handler + Drop>(engine: &Engine<'a, H>)
    ensures order { (events : List Happening) (new : _)
        → HappenInTurn (λ h. H.meaning h) events engine.now new → AllInOrder engine.now new }
    // A delivery of what stands in front does so.
    ensures front { (place : ℕ) → IsInTurn engine.now (happening.Deliver place 0) }
{}
