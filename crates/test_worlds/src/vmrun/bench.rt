// What rows over runs of `vmrun` share.
use program_runs::exit_status::ExitStatus;
use program_runs::streams::Plain;
use program_vmrun::run::run;
use std::alloc::Global;
use std::io::Cursor;
use std::process::Abort;

pub const V7: &str = "application/vnd.restate.invocation.v7";

/// The run of this handler over these bytes writes those, and ends so.
pub fn assert_written(
    rt: &impl Abort,
    alloc: Global,
    handler: &str,
    input: &[u8],
    wanted: &[u8],
    status: ExitStatus,
) {
    let mut reader = Plain(Cursor::new(input));
    let mut writer = Plain(Vec::new(alloc));
    let found = run(alloc, V7, handler, &mut reader, &mut writer).status();
    assert_eq!(rt; found, status);
    assert_eq!(rt; writer.0.as_slice(), wanted);
}
