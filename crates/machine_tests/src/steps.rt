//! Machines over devices in memory, and lists of steps with their outcomes.
use crate::assertions::{assert_equal, assert_text};
use checkpoint::OpenFault;
use disk::MemDisk;
use harness::Wrong;
use histories::{Outcome, Step};
use machine::Machine;
use message::{LONGEST_REPLY, Msg, Reply, parse_line, write_reply};
use scheduler::Core;
use std::alloc::Global;
use std::process::Abort;

/// One volume of two files of four blocks, in two stripes that hold two blocks each, and four records in a half. Neighboring blocks of a
/// file lie in different stripes. In order: aggregates, volumes, stripes, width (adjacent blocks in one stripe), files, blocks, quota,
/// records in a half.
pub(crate) const SMALL: [u16; 8] = [1, 1, 2, 1, 2, 4, 2, 4];

/// One volume of one file of four blocks, each in a stripe of its own, and eight records in a half. The order is the same.
pub(crate) const FLAT: [u16; 8] = [1, 1, 4, 1, 1, 4, 1, 8];

/// A step of a machine, and its outcome.
#[derive(Clone, Copy, Drop)]
pub(crate) enum Row {
    /// The message of this line arrives.
    Arrives(&'static str, Outcome),
    Does(Step, Outcome),
    /// The message of the first line arrives, is run by hand 0, and is answered with the second line.
    Serves(&'static str, &'static str),
}

/// All that is done with one message after its arrival. `Run` and `Back` have the number of a hand, `Log` the most messages to log.
pub(crate) const WHOLE: [Step; 5] = [
    Step::Grant,
    Step::Run(0),
    Step::Back(0),
    Step::Log(1),
    Step::Answer,
];

/// A machine with these numbers of slots (1 to 1024) and hands on this device; where it is refused, the device and why.
pub(crate) fn open_machine(
    alloc: Global,
    device: MemDisk,
    slots: usize,
    hands: usize,
) -> Result<Machine<MemDisk>, (MemDisk, OpenFault)> {
    let core = match Core::open(alloc, device, slots.min(1024).max(1)) {
        Ok(core) => core,
        Err(e) => return Err((e.disk, e.fault)),
    };
    match Machine::new(alloc, core, hands) {
        Ok(machine) => Ok(machine),
        Err(e) => Err((e.core.into_disk(), OpenFault::OutOfMemory)),
    }
}

/// The same on a device that isn't refused; an error where it is, `Unfit` if for another reason than memory.
pub(crate) fn machine_on(
    alloc: Global,
    device: MemDisk,
    slots: usize,
    hands: usize,
) -> Result<Machine<MemDisk>, Wrong> {
    match open_machine(alloc, device, slots, hands) {
        Ok(machine) => Ok(machine),
        Err((_, OpenFault::OutOfMemory)) => Err(Wrong::OutOfMemory),
        Err(_) => Err(Wrong::Unfit),
    }
}

/// What comes of one step.
pub(crate) fn one(machine: &mut Machine<MemDisk>, step: Step) -> Outcome {
    let steps = [step];
    let mut outcomes = [Outcome::Idle];
    machine.run(&steps, &mut outcomes);
    outcomes[0]
}

/// The message of a line.
fn message_of(rt: &impl Abort, line: &str) -> Msg {
    parse_line(line.as_bytes()).expect(rt, "a message")
}

/// Makes all steps of `WHOLE` for this message, and returns its reply. No other message may wait or be held.
fn serve(rt: &impl Abort, machine: &mut Machine<MemDisk>, message: Msg) -> Option<Reply> {
    let Outcome::Ticket(ticket) = one(machine, Step::Arrive(message)) else {
        return None;
    };
    let mut outcomes = [Outcome::Idle; 5];
    machine.run(&WHOLE, &mut outcomes);
    match outcomes[4] {
        Outcome::Answered(answered, reply) => {
            assert_equal(rt, answered, ticket);
            Some(reply)
        }
        _ => None,
    }
}

/// Asserts that the message of this line is served with this reply.
fn assert_served(rt: &impl Abort, machine: &mut Machine<MemDisk>, line: &str, want: &str) {
    let reply = serve(rt, machine, message_of(rt, line)).expect(rt, "an answer");
    let mut out = [0; LONGEST_REPLY];
    let size = write_reply(&reply, &mut out);
    assert_text(rt, &out[..size - 1], want.as_bytes());
}

/// The machine does these things; asserts that they have these outcomes.
pub(crate) fn assert_outcomes(rt: &impl Abort, machine: &mut Machine<MemDisk>, rows: &[Row]) {
    for row in rows {
        match *row {
            Row::Arrives(line, want) => {
                let arrives = Step::Arrive(message_of(rt, line));
                assert_equal(rt, one(machine, arrives), want);
            }
            Row::Does(step, want) => assert_equal(rt, one(machine, step), want),
            Row::Serves(line, want) => assert_served(rt, machine, line, want),
        }
    }
}
