//! Which fault is reported if several come in one session of the small server (`SMALL`: four records in a half of the log).
use crate::assertions::{assert_ended, assert_true};
use crate::serving_common::{ALL_AT_ONCE, End, Left, SMALL, Streams, Way, session};
use crate::serving_noting::Notes;
use checkpoint::OpenFault;
use disk::MemDisk;
use harness::{Wrong, device_with};
use serving::ServeFault;
use std::alloc::Global;
use std::process::Abort;
use std::sync::Wait;
use std::test::Fail;
use std::thread::Threads;
use workers::OpenGate;

/// Some lines, after which the input can't be read. The first one changes nothing, so its reply still waits to be sent when the first
/// change is logged: if that fails, the reply is sent all the same, and that can fail, too.
const LINES: &[u8] = b"no message
makevol 0 0
create 0 0 0
write 0 0 0 0 61
write 0 0 0 1 62
read 0 0 0 0
";

/// Which call of the device fails, and which of the writer (a write or a flush), counted from 1. 0: none.
#[derive(Clone, Copy)]
struct Failing {
    device: u64,
    writer: u64,
}

/// Which of them did fail.
#[derive(Clone, Copy)]
struct Failed {
    device: bool,
    writer: bool,
}

/// How a session has to end when these have failed. Where it has not begun (nothing was read), a device that failed did so at its
/// opening.
fn end_of(failed: Failed, has_begun: bool) -> End {
    match (failed.writer, failed.device) {
        (true, _) => End::Fault(ServeFault::Write),
        (false, true) if has_begun => End::Fault(ServeFault::Device),
        (false, true) => End::Unopened(OpenFault::Device),
        (false, false) => End::Fault(ServeFault::Read),
    }
}

/// Serves the lines, and fails unless the session ends as `end_of` says. Returns what has failed.
fn serve_failing<T: Threads + Wait + Sync + Abort>(
    rt: &T,
    alloc: Global,
    way: Way,
    failing: Failing,
) -> Result<Failed, Wrong> {
    let notes = Notes::new();
    // The reader fails at the end of the input, and this call of the writer fails; else all is read and written at once.
    let streams = Streams {
        fails: true,
        fails_at: failing.writer,
        ..ALL_AT_ONCE
    };
    let mut device: MemDisk = device_with(alloc, SMALL, &[])?;
    if failing.device != 0 {
        device.fail_at(failing.device);
    }
    let before = device.calls();
    let left = session(rt, alloc, device, way, LINES, streams, &OpenGate, &notes);
    let Left { device, end, .. } = left;
    let calls = device.calls().saturating_sub(before);
    let failed = Failed {
        device: failing.device != 0 && calls >= failing.device,
        writer: failing.writer != 0 && notes.writes.get() >= failing.writer,
    };
    assert_ended(rt, end, end_of(failed, notes.reads.get() != 0));
    Ok(failed)
}

/// More calls than a session has.
const MOST_CALLS: u64 = 1000;

/// Lets each call of the device fail in turn, together with this call of the writer. Returns whether both failed in some session.
fn fail_each_call<T: Threads + Wait + Sync + Abort>(
    rt: &T,
    alloc: Global,
    way: Way,
    writer: u64,
) -> Result<bool, Wrong> {
    let mut both = false;
    for device in 1..MOST_CALLS {
        let failed = serve_failing(rt, alloc, way, Failing { device, writer })?;
        if !failed.device {
            return Ok(both);
        }
        both = both || failed.writer;
    }
    Err(Wrong::Endless)
}

#[test]
fn an_output_fault_is_reported_before_a_device_fault_and_that_before_a_read_fault(
    rt: HostRuntime,
) -> Result<(), Fail> {
    // A checkpoint is due only where the log is full, and then after each record.
    for every in [0, 1] {
        let way = Way {
            workers: 2,
            slots: 4,
            every,
        };
        let mut both = false;
        for writer in 0..4 {
            both = fail_each_call(&rt, rt.alloc(), way, writer)? || both;
        }
        assert_true(&rt, both);
    }
    Ok(())
}
