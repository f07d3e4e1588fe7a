//! The first word of a line, which says what call is made.
ghost use Rattle.std.specs.Prelude.{◌≡◌, IfOk, IfErr, Some, None};
ghost use Rattle.call_lines.specs.Verbs.{verb_name, verb_named};

use plain::Fault;

/// A call of the VM, as the first word of a line names it.
#[derive(Clone, Copy)]
pub enum Verb {
    Head,
    Input,
    Close,
    Output,
    Ready,
    State,
    Index,
    Error,
    Await,
    Completed,
    Take,
    SysInput,
    Get,
    Keys,
    Set,
    Clear,
    ClearAll,
    Sleep,
    Call,
    CallWithDeadline,
    Send,
    Awakeable,
    Signal,
    CompleteAwakeable,
    CompleteSignal,
    Cancel,
    GetPromise,
    PeekPromise,
    CompletePromise,
    Run,
    Propose,
    Attach,
    GetOutput,
    WriteOutput,
    End,
    EphemeralGet,
    TakeEphemeral,
}

/// Each verb: those that most lines have come first.
static VERBS: [Verb; 37] = [
    Verb::Take,
    Verb::Await,
    Verb::Input,
    Verb::Sleep,
    Verb::Get,
    Verb::Set,
    Verb::Call,
    Verb::Run,
    Verb::Propose,
    Verb::Signal,
    Verb::Completed,
    Verb::Send,
    Verb::Output,
    Verb::Head,
    Verb::Close,
    Verb::Ready,
    Verb::State,
    Verb::Index,
    Verb::Error,
    Verb::SysInput,
    Verb::Keys,
    Verb::Clear,
    Verb::ClearAll,
    Verb::CallWithDeadline,
    Verb::Awakeable,
    Verb::CompleteAwakeable,
    Verb::CompleteSignal,
    Verb::Cancel,
    Verb::GetPromise,
    Verb::PeekPromise,
    Verb::CompletePromise,
    Verb::Attach,
    Verb::GetOutput,
    Verb::WriteOutput,
    Verb::End,
    Verb::EphemeralGet,
    Verb::TakeEphemeral,
];

/// The word for it.
#[tactic(auto, unfolding(crate::specs::Verbs::verb_name))]
fn name_of_verb(verb: Verb) -> &'static str
    ensures { result.now ≡ verb_name verb }
{
    match verb {
        Verb::Head => "head",
        Verb::Input => "input",
        Verb::Close => "close",
        Verb::Output => "output",
        Verb::Ready => "ready",
        Verb::State => "state",
        Verb::Index => "index",
        Verb::Error => "error",
        Verb::Await => "await",
        Verb::Completed => "completed",
        Verb::Take => "take",
        Verb::SysInput => "sys_input",
        Verb::Get => "get",
        Verb::Keys => "keys",
        Verb::Set => "set",
        Verb::Clear => "clear",
        Verb::ClearAll => "clear_all",
        Verb::Sleep => "sleep",
        Verb::Call => "call",
        Verb::CallWithDeadline => "call_with_deadline",
        Verb::Send => "send",
        Verb::Awakeable => "awakeable",
        Verb::Signal => "signal",
        Verb::CompleteAwakeable => "complete_awakeable",
        Verb::CompleteSignal => "complete_signal",
        Verb::Cancel => "cancel",
        Verb::GetPromise => "get_promise",
        Verb::PeekPromise => "peek_promise",
        Verb::CompletePromise => "complete_promise",
        Verb::Run => "run",
        Verb::Propose => "propose",
        Verb::Attach => "attach",
        Verb::GetOutput => "get_output",
        Verb::WriteOutput => "write_output",
        Verb::End => "end",
        Verb::EphemeralGet => "ephemeral_get",
        Verb::TakeEphemeral => "take_ephemeral",
    }
}

/// The verb that a word is.
pub fn verb_of_word(word: &[u8]) -> Result<Verb, Fault>
    ensures named { IfOk result (λ verb. verb_named word.now ≡ Some verb) }
    ensures none { IfErr result (λ _. verb_named word.now ≡ None) }
{
    for verb in &VERBS {
        if word == name_of_verb(*verb).as_bytes() {
            return Ok(*verb);
        }
    }
    Err(Fault::Malformed)
}
