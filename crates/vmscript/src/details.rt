//! A script of calls, performed once more to find what its errors are about.
use call_details::explain::explained;
use call_details::moment::Moment;
use call_lines::parse::parse;
use call_lines::request::Request;
use call_scripts::perform::perform;
use invocation_vm::CoreVM;
use lines::line::Line;
use lines::text::first_line;
use std::alloc::{AllocError, Global};

/// What the VM is before a line, if there is one.
fn moment_of(vm: &Option<CoreVM>) -> Result<Option<Moment>, AllocError> {
    match vm {
        Some(vm) => Moment::of(vm),
        None => Ok(None),
    }
}

/// What a line asks for.
fn request_of(alloc: Global, line: &[u8]) -> Result<Request, AllocError> {
    let mut words = Vec::new(alloc);
    parse(alloc, &mut words, line)
}

/// What the error is about by which the call of a line has failed this VM.
fn explain_failed(
    alloc: Global,
    vm: &Option<CoreVM>,
    moment: &Option<Moment>,
    line: &[u8],
) -> Result<Option<Line>, AllocError> {
    let (Some(vm), Some(moment)) = (vm, moment) else {
        return Ok(None);
    };
    match request_of(alloc, line)? {
        Request::Call(call) => explained(alloc, vm, moment, call),
        _ => Ok(None),
    }
}

/// Performs a line. If its call has failed the VM, it returns what the error is about.
fn explain_line(
    alloc: Global,
    vm: &mut Option<CoreVM>,
    line: &[u8],
) -> Result<Option<Line>, AllocError> {
    let moment = moment_of(vm)?;
    let request = request_of(alloc, line)?;
    drop(perform(alloc, vm, request));
    explain_failed(alloc, vm, &moment, line)
}

/// Writes the number of a line, and what its error is about.
fn add_line(number: u64, told: &Line, details: &mut Line) -> Result<(), AllocError> {
    details.word("line ")?;
    details.number(number)?;
    details.word(": ")?;
    details.word(told.as_str())?;
    details.word("\n")
}

/// A line for each line of a script by whose call a VM fails, if more is known than its error says: its number, counted from 1, the error, and
/// what that is about.
pub fn explain_script(alloc: Global, script: &[u8]) -> Result<Line, AllocError> {
    let mut details = Line::new(alloc);
    let mut vm = None;
    let mut rest = script;
    for number in 1..u64::MAX {
        if rest.is_empty() {
            break;
        }
        let (line, behind) = first_line(rest);
        if let Some(told) = explain_line(alloc, &mut vm, line)? {
            add_line(number, &told, &mut details)?;
        }
        rest = behind;
    }
    Ok(details)
}
