//! Laws of keys: whose turn comes, and the state that earlier invocations of a key leave to a later one.
ghost use Rattle.std.specs.Prelude.{◌≡◌, [], List};
ghost use Rattle.engine_fences.specs.KeyStates.{AreSettled, StatesAreHandedOn};
ghost use Rattle.engine_fences.specs.KeyTurns.{TurnsGoOn};
ghost use Rattle.engines.specs.Between.{AllKept};
ghost use Rattle.engines.specs.Engines.{AllHappen};
ghost use Rattle.engines.specs.declared.types.Happening.{Happening};

use engines::Engine;
use vm_types::Handler;

/// Once an invocation has begun, the state that those of its key leave to it is settled: no event changes it.
pub fn key_states_are_settled<'a, H: Handler + Drop>(engine: &Engine<'a, H>)
    ensures settled { AllKept engine.now → (events : List Happening) (new : _)
        → AllHappen (λ h. H.meaning h) events engine.now new → AreSettled engine.now new }
    // In an engine that began without an invocation, its attempts are handed this state.
    ensures handed { engine.now.invocations.items ≡ [] → (events : List Happening) (new : _)
        → AllHappen (λ h. H.meaning h) events engine.now new → StatesAreHandedOn new }
{}

/// Of a key's invocations that haven't ended the first may begin, once its time has come.
pub fn key_turns_go_on<'a, H: Handler + Drop>(engine: &Engine<'a, H>)
    ensures turns { TurnsGoOn engine.now }
{}
