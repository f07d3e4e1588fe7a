//! Copies of answers.
ghost use Rattle.std.specs.Prelude.{◌≡◌, IfOk};

use std::alloc::{AllocError, Global};
use vm_types::Answer;

fn copy_answer(answer: &Answer) -> Result<Answer, AllocError>
    ensures { IfOk result (λ copy. copy ≡ answer.now) }
{
    match answer {
        Answer::Input(input) => Ok(Answer::Input(input.clone()?)),
        Answer::Handle(handle) => Ok(Answer::Handle(*handle)),
        Answer::Call(made) => Ok(Answer::Call(*made)),
        Answer::CallWithDeadline(made) => Ok(Answer::CallWithDeadline(*made)),
        Answer::Send(made) => Ok(Answer::Send(*made)),
        Answer::Awakeable(made) => Ok(Answer::Awakeable(made.clone()?)),
        Answer::Unit => Ok(Answer::Unit),
        Answer::Awake => Ok(Answer::Awake),
        Answer::Cancelled => Ok(Answer::Cancelled),
        Answer::Taken(value) => Ok(Answer::Taken(value.clone()?)),
        Answer::Completed(is) => Ok(Answer::Completed(*is)),
    }
}

pub fn copy_answers(alloc: Global, answers: &[Answer]) -> Result<Vec<Answer>, AllocError>
    ensures { IfOk result (λ copies. copies.items ≡ answers.now) }
{
    let mut copies = Vec::new(alloc);
    for answer in answers {
        copies.push(copy_answer(answer)?)?;
    }
    Ok(copies)
}
