//! Laws of what C gets.
ghost use Rattle.std.specs.Prelude.{◌≡◌, Bool, true, false, Result, Ok};
ghost use Rattle.journal_protocol.specs.Error.{Error};
ghost use Rattle.vm_types.specs.declared.reply.Reply.{Reply};
ghost use Rattle.vm_types.specs.declared.reply.Reply.TheVariants as reply;
ghost use Rattle.c_sessions.specs.Calls.{outcome_told};
ghost use Rattle.c_sessions.specs.Replies.{kind_code, numbers_by, reads_as_memory, summary};
ghost use Rattle.c_sessions.specs.declared.kind.Kind.TheVariants as kind;
ghost use Rattle.c_values.specs.declared.status.Status.{Status};

/// A reply of the kind of errors comes only of a VM that has failed, whichever the call is.
pub fn errors_have_failed_the_vm()
    ensures { (has_failed mimics : Bool) (outcome : Result Reply Status)
        → (numbers_by has_failed mimics (outcome_told outcome)).kind ≡ kind_code kind.Error
        → has_failed ≡ true }
{}

/// The error of a VM that has failed has the status of out of memory if it reads so, and the caller has reported no such error; else it has that
/// of a refusal, whichever its code is. So no code that a handler chooses is taken for out of memory.
pub fn out_of_memory_has_a_status_of_its_own()
    ensures memory { (e : Error) → reads_as_memory e ≡ true
        → (numbers_by true false (summary (reply.Refused e))).status ≡ 1 }
    ensures other { (mimics : Bool) (e : Error) → reads_as_memory e ≡ false
        → (numbers_by true mimics (summary (reply.Refused e))).status ≡ 5 }
    ensures reported { (e : Error)
        → (numbers_by true true (summary (reply.Refused e))).status ≡ 5 }
{}
