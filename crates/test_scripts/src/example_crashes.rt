// Each handler of `examples` through a crash at every step. Steps count from 1, the input; an await and the take after it are two steps.
use examples::approval::Approval;
use examples::race::Race;
use examples::reminder::Reminder;
use examples::retry::Retry;
use examples::saga::Saga;
use examples::sleeper::Sleeper;
use palqytun::handler::Durable;
use palqytun::testing::{
    cancel, crash_at_each_step, crash_at_each_step_with_runs, expect_end, expect_entry, failed,
    failed_output, invocation_id, output, signal, sleep, value, void, world_of,
};
use std::test::Fail;

#[test]
fn the_sleeper_wakes(rt: HostRuntime) -> Result<(), Fail> {
    let alloc = rt.alloc();
    let (handler, world) = (
        Durable {
            alloc,
            flow: Sleeper,
        },
        world_of(alloc, b"Till")?,
    );
    let arrivals = [(2, void(alloc, 1)?)];
    let world = crash_at_each_step(alloc, &handler, world, 6, &arrivals)?;
    expect_end(&world, &output(alloc, b"")?)?;
    Ok(())
}

#[test]
fn the_second_try_succeeds(rt: HostRuntime) -> Result<(), Fail> {
    let alloc = rt.alloc();
    let (handler, world) = (Durable { alloc, flow: Retry }, world_of(alloc, b"42")?);
    let arrivals = [
        (2, void(alloc, 1)?),
        (5, value(alloc, 3, b"busy")?),
        (8, void(alloc, 4)?),
        (11, value(alloc, 6, b"paid")?),
    ];
    let world = crash_at_each_step(alloc, &handler, world, 16, &arrivals)?;
    expect_end(&world, &output(alloc, b"paid")?)?;
    Ok(())
}

#[test]
fn the_answer_is_first(rt: HostRuntime) -> Result<(), Fail> {
    let alloc = rt.alloc();
    let (handler, world) = (Durable { alloc, flow: Race }, world_of(alloc, b"Till")?);
    let arrivals = [(3, value(alloc, 2, b"Hello, Till")?)];
    let world = crash_at_each_step(alloc, &handler, world, 9, &arrivals)?;
    expect_end(&world, &output(alloc, b"Hello, Till")?)?;
    Ok(())
}

#[test]
fn the_deadline_is_first(rt: HostRuntime) -> Result<(), Fail> {
    let alloc = rt.alloc();
    let (handler, world) = (Durable { alloc, flow: Race }, world_of(alloc, b"Till")?);
    let arrivals = [(3, void(alloc, 3)?)];
    let world = crash_at_each_step(alloc, &handler, world, 7, &arrivals)?;
    expect_end(&world, &output(alloc, b"timeout")?)?;
    Ok(())
}

#[test]
fn the_flight_is_given_back(rt: HostRuntime) -> Result<(), Fail> {
    let alloc = rt.alloc();
    let (handler, world) = (Durable { alloc, flow: Saga }, world_of(alloc, b"Oslo")?);
    let arrivals = [
        (2, value(alloc, 2, b"LH 1")?),
        (5, failed(alloc, 4, 500, "full")?),
    ];
    let world = crash_at_each_step(alloc, &handler, world, 10, &arrivals)?;
    assert_eq!(rt; world.journal().len(), 7);
    expect_end(&world, &failed_output(alloc, 500, "full")?)?;
    Ok(())
}

#[test]
fn a_cancelled_trip_gives_the_flight_back(rt: HostRuntime) -> Result<(), Fail> {
    let alloc = rt.alloc();
    let (handler, world) = (Durable { alloc, flow: Saga }, world_of(alloc, b"Oslo")?);
    let arrivals = [
        (2, invocation_id(alloc, 1, "flight")?),
        (2, value(alloc, 2, b"LH 1")?),
        (5, invocation_id(alloc, 3, "hotel")?),
        (5, cancel(alloc)?),
    ];
    let world = crash_at_each_step(alloc, &handler, world, 10, &arrivals)?;
    expect_end(&world, &failed_output(alloc, 409, "cancelled")?)?;
    Ok(())
}

#[test]
fn the_person_approves(rt: HostRuntime) -> Result<(), Fail> {
    let alloc = rt.alloc();
    let (handler, world) = (
        Durable {
            alloc,
            flow: Approval,
        },
        world_of(alloc, b"trip")?,
    );
    let arrivals = [(4, signal(alloc, 17, b"yes")?)];
    let world = crash_at_each_step(alloc, &handler, world, 7, &arrivals)?;
    assert_eq!(rt; world.journal().len(), 4);
    expect_end(&world, &output(alloc, b"yes")?)?;
    Ok(())
}

#[test]
fn the_reminder_comes_an_hour_after_the_first_time(rt: HostRuntime) -> Result<(), Fail> {
    let alloc = rt.alloc();
    let (handler, world) = (
        Durable {
            alloc,
            flow: Reminder,
        },
        world_of(alloc, b"tea")?,
    );
    // 1,000,000,000 seconds since the Unix epoch.
    let runs: [(usize, u32, &'static [u8]); 1] = [(3, 17, b"\x00\x00\x00\x00\x3b\x9a\xca\x00")];
    let arrivals = [(6, void(alloc, 2)?)];
    let world = crash_at_each_step_with_runs(alloc, &handler, world, 10, &runs, &arrivals)?;
    // Input, the run and its result, the sleep and its end, the call, the output.
    assert_eq!(rt; world.journal().len(), 7);
    expect_entry(&world, 3, &sleep(alloc, 1_000_003_600_000, 2)?)?;
    expect_end(&world, &output(alloc, b"")?)?;
    Ok(())
}
