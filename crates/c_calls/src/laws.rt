//! Laws of the errors that calls from C return: of which kind they are.
ghost use Rattle.std.specs.Prelude.{Bool, List, ℕ};
ghost use Rattle.c_sessions.specs.declared.kind.Kind.TheVariants as kind;
ghost use Rattle.c_calls.specs.Calls.{AsksReady, AttachesTo, AwaitsHandle, AwaitsNodes, CallsARun, CallsHandler, CallsSleep, CallsWithDeadline, CancelsInvocation, ClearsAllState, ClearsState, ClosesInput, CompletesAwakeable, CompletesPromise, CompletesSignal, EndsHandler, GetsOutput, GetsPromise, MakesAwakeable, MakesSignal, PeeksPromise, ProposesResult, ProposesRetryable, ReadsEphemerally, ReadsHead, ReadsInput, ReadsKeys, ReadsState, ReportsError, SendsTo, SetsState, TakesEphemeral, TakesOutputOf, TakesResult, WritesOutput};
ghost use Rattle.c_calls.specs.Refusals.{FailsByRefusal, RefusesAs};
ghost use Rattle.c_calls.specs.declared.callees.GivenTarget.{GivenTarget};
ghost use Rattle.c_calls.specs.declared.invocations.GivenInvocation.{GivenInvocation};
ghost use Rattle.c_calls.specs.declared.nodes.Node.{Node};
ghost use Rattle.c_calls.specs.declared.policies.GivenPolicy.{GivenPolicy};
ghost use Rattle.c_calls.specs.declared.reports.GivenCommand.{GivenCommand};
ghost use Rattle.c_calls.specs.declared.reports.GivenError.{GivenError};
ghost use Rattle.c_calls.specs.declared.values.GivenValue.{GivenValue};

/// A query of a VM that has ended, or whose invocation is suspended, says so by a kind of its own; and one that finds no memory by another.
pub fn queries_have_errors_of_their_own()
    ensures ready { RefusesAs kind.Closed 598 AsksReady }
    ensures head { RefusesAs kind.OutOfMemory 500 ReadsHead }
    ensures output { RefusesAs kind.OutOfMemory 500 TakesOutputOf }
{}

/// An await of a VM that hasn't failed has the error of a suspension, by a kind of its own.
pub fn awaits_have_errors_of_their_own()
    ensures handle { (handle : ℕ) → RefusesAs kind.Suspended 599 (AwaitsHandle handle) }
    ensures nodes { (nodes : List Node) → RefusesAs kind.Suspended 599 (AwaitsNodes nodes) }
{}

/// The errors of a call that writes a command, or of a handler's end, have failed the VM.
pub fn errors_of_commands_fail_the_vm()
    ensures sleep { (name : List ℕ) (millis : ℕ) → FailsByRefusal (CallsSleep name millis) }
    ensures promise { (key : List ℕ) → FailsByRefusal (GetsPromise key) }
    ensures peek { (key : List ℕ) → FailsByRefusal (PeeksPromise key) }
    ensures promised { (key : List ℕ) (value : GivenValue) (unstable : Bool)
        → FailsByRefusal (CompletesPromise key value unstable) }
    ensures awakened { (id : List ℕ) (value : GivenValue) (unstable : Bool)
        → FailsByRefusal (CompletesAwakeable id value unstable) }
    ensures signalled { (target name : List ℕ) (value : GivenValue)
        → FailsByRefusal (CompletesSignal target name value) }
    ensures cancel { (target : List ℕ) → FailsByRefusal (CancelsInvocation target) }
    ensures write { (value : GivenValue) (unstable : Bool)
        → FailsByRefusal (WritesOutput value unstable) }
    ensures end { FailsByRefusal EndsHandler }
    ensures run { (name : List ℕ) → FailsByRefusal (CallsARun name) }
{}

/// The errors of a call of another handler, or of another invocation, have failed the VM.
pub fn errors_of_callers_fail_the_vm()
    ensures call { (target : GivenTarget) (bytes name : List ℕ) (unstable : Bool)
        → FailsByRefusal (CallsHandler target bytes name unstable) }
    ensures deadline { (target : GivenTarget) (bytes : List ℕ) (millis : ℕ) (name : List ℕ)
        (unstable : Bool)
        → FailsByRefusal (CallsWithDeadline target bytes millis name unstable) }
    ensures send { (target : GivenTarget) (bytes : List ℕ) (millis : ℕ) (name : List ℕ)
        (unstable : Bool) → FailsByRefusal (SendsTo target bytes millis name unstable) }
    ensures attach { (given : GivenInvocation) → FailsByRefusal (AttachesTo given) }
    ensures get { (given : GivenInvocation) → FailsByRefusal (GetsOutput given) }
{}

/// The errors of a call on the state have failed the VM.
pub fn errors_of_state_fail_the_vm()
    ensures set { (key value name : List ℕ) (unstable : Bool)
        → FailsByRefusal (SetsState key value name unstable) }
    ensures clear { (key name : List ℕ) → FailsByRefusal (ClearsState key name) }
    ensures clear_all { (name : List ℕ) → FailsByRefusal (ClearsAllState name) }
    ensures get { (key name : List ℕ) → FailsByRefusal (ReadsState key name) }
    ensures keys { (name : List ℕ) → FailsByRefusal (ReadsKeys name) }
    ensures ephemeral { (key : List ℕ) → FailsByRefusal (ReadsEphemerally key) }
    ensures taken { (id : ℕ) → FailsByRefusal (TakesEphemeral id) }
{}

/// The errors of a call that writes no command, an await's apart, have failed the VM.
pub fn errors_beside_commands_fail_the_vm()
    ensures awakeable { FailsByRefusal MakesAwakeable }
    ensures signal { (name : List ℕ) → FailsByRefusal (MakesSignal name) }
    ensures take { (handle : ℕ) → FailsByRefusal (TakesResult handle) }
    ensures input { FailsByRefusal ReadsInput }
    ensures close { FailsByRefusal ClosesInput }
    ensures propose { (of : ℕ) (value : GivenValue) (by : GivenPolicy)
        → FailsByRefusal (ProposesResult of value by) }
    ensures retryable { (of millis : ℕ) (given : GivenError) (by : GivenPolicy)
        → FailsByRefusal (ProposesRetryable of millis given by) }
    ensures report { (given : GivenError) (command : GivenCommand)
        → FailsByRefusal (ReportsError given command) }
{}
