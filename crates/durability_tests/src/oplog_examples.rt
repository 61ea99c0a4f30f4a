//! Worked examples on a device of 8,840 bytes.
//!
//! Offsets there: root byte 64; half 0: chain byte 128, gates 192, records (520 bytes each) 196; half 1: the same at 2276, 2340, 2344.
//!
//! The 4 of `Server::new` is the number of records in a half; `takes(Way::Named, ..)` clears the other half, names it and appends there. Of
//! a call of the log `does` gives the answer, `front` how many records a front has, and `record` a record.
use crate::assertions::{assert_equal, assert_true};
use crate::oplog_common::{Server, Step, Way};
use affinity::Geometry;
use disk::Disk;
use message::Msg;
use oplog::{Halves, LogFault};
use std::process::Abort;
use std::test::Fail;

/// Asserts that the server has, in this order: the root byte, the room, the named half, and the current one, which records are appended to.
fn assert_numbers(rt: &impl Abort, server: &Server, want: [u64; 4]) {
    let log = &server.log;
    let (room, named, current) = (log.room() as u64, log.named() as u64, log.current() as u64);
    assert_equal(rt, [server.byte(64), room, named, current], want);
}

/// Asserts that these calls succeed, one after the other, and that after each the server has the four numbers of its row, those of
/// `assert_numbers`.
fn assert_steps(rt: &impl Abort, server: &mut Server, rows: &[(Step, [u64; 4])]) {
    for (step, want) in rows {
        assert_equal(rt, server.does(*step), Ok(()));
        assert_numbers(rt, server, *want);
    }
}

/// Half 1 is cleared and named: it has room for four records.
const ROOM: [(Step, [u64; 4]); 2] = [(Step::Clear, [0, 0, 0, 0]), (Step::Flip, [1, 4, 1, 1])];

/// A chain is opened to half 1, and then that half is named.
const CHAIN: [(Step, [u64; 4]); 2] = [(Step::Chain, [0, 4, 0, 1]), (Step::Flip, [1, 4, 1, 1])];

/// A half that a flip names has room only if it was cleared since it was last named. One that `name` names has none.
const CHANGES: [(Step, [u64; 4]); 8] = [
    (Step::Flip, [1, 0, 1, 1]),
    (Step::Clear, [1, 0, 1, 1]),
    (Step::Flip, [0, 4, 0, 0]),
    (Step::Flip, [1, 0, 1, 1]),
    (Step::Flip, [0, 0, 0, 0]),
    (Step::Clear, [0, 0, 0, 0]),
    (Step::Name(1), [0, 0, 1, 1]),
    (Step::Flip, [0, 0, 0, 0]),
];

const WALKS: [&[(Step, [u64; 4])]; 3] = [&ROOM, &CHAIN, &CHANGES];

#[test]
fn a_half_that_was_cleared_has_room(rt: HostRuntime) -> Result<(), Fail> {
    for &rows in &WALKS {
        assert_steps(&rt, &mut Server::new(rt.alloc(), 4)?, rows);
    }
    Ok(())
}

#[test]
fn a_record_is_appended_and_read(rt: HostRuntime) -> Result<(), Fail> {
    let mut server = Server::new(rt.alloc(), 4)?;
    assert_equal(&rt, server.disk.len(), 8840);
    assert_numbers(&rt, &server, [0, 0, 0, 0]);
    assert_true(&rt, server.takes(Way::Named, &[Msg::MakeVol(0, 0)]));
    assert_true(&rt, !server.log.failed());
    assert_numbers(&rt, &server, [1, 3, 1, 1]);
    // The root byte, the gate, and the first byte of the record.
    assert_equal(&rt, server.byte(2340), 1);
    assert_equal(&rt, server.byte(2344), 1);
    assert_equal(&rt, server.nonzero(), 3);
    assert_equal(&rt, server.front(1), Ok(1));
    assert_equal(&rt, server.record(1, 0), Ok(Msg::MakeVol(0, 0)));
    Ok(())
}

#[test]
fn zeros_are_no_record(rt: HostRuntime) -> Result<(), Fail> {
    let mut server = Server::new(rt.alloc(), 4)?;
    assert_true(&rt, server.takes(Way::Named, &[Msg::MakeVol(0, 0)]));
    // The gate of record 1 is opened; the record itself is zeros.
    assert_true(&rt, server.writes(2341, &[1]));
    assert_equal(&rt, server.front(1), Ok(2));
    assert_equal(&rt, server.record(1, 0), Ok(Msg::MakeVol(0, 0)));
    assert_equal(&rt, server.record(1, 1), Err(LogFault::BadRecord(1, 1)));
    Ok(())
}

/// The first bytes of record 3 of half 0 (kind, aggregate, volume), and what reading it gives. Kind 1 makes a volume, 5 seals one, 13
/// labels one, 9 reads a block, 10 lists the files, and 14 asks for the label. There is no volume 1, and no kind 15.
const RECORDS: [([u8; 3], Result<Msg, LogFault>); 8] = [
    ([1, 0, 0], Ok(Msg::MakeVol(0, 0))),
    ([5, 0, 0], Ok(Msg::Seal(0, 0))),
    ([13, 0, 0], Ok(Msg::SetLabel(0, 0, [0; 32]))),
    ([9, 0, 0], Err(LogFault::BadRecord(0, 3))),
    ([10, 0, 0], Err(LogFault::BadRecord(0, 3))),
    ([14, 0, 0], Err(LogFault::BadRecord(0, 3))),
    ([1, 0, 1], Err(LogFault::BadRecord(0, 3))),
    ([15, 0, 0], Err(LogFault::BadRecord(0, 3))),
];

#[test]
fn only_changes_in_range_are_read(rt: HostRuntime) -> Result<(), Fail> {
    for &(first, wanted) in &RECORDS {
        let mut server = Server::new(rt.alloc(), 4)?;
        assert_true(&rt, server.writes(196 + 3 * 520, &first));
        assert_equal(&rt, server.record(0, 3), wanted);
    }
    Ok(())
}

/// The gates of a half, and how many records its front has.
const GATES: [([u8; 4], usize); 4] = [
    ([1, 77, 1, 0], 1),
    ([0, 1, 1, 1], 0),
    ([1, 1, 1, 1], 4),
    ([1, 1, 0, 1], 2),
];

#[test]
fn the_front_ends_at_a_gate_that_is_not_open(rt: HostRuntime) -> Result<(), Fail> {
    for &(gates, wanted) in &GATES {
        let mut server = Server::new(rt.alloc(), 4)?;
        assert_true(&rt, server.writes(2340, &gates));
        assert_equal(&rt, server.front(1), Ok(wanted));
        assert_equal(&rt, server.front(0), Ok(0));
    }
    Ok(())
}

#[test]
fn clearing_keeps_the_records(rt: HostRuntime) -> Result<(), Fail> {
    let mut server = Server::new(rt.alloc(), 4)?;
    // All bytes of half 1, and no others.
    assert_true(&rt, server.writes(2276, &[7; 2148]));
    assert_equal(&rt, server.does(Step::Clear), Ok(()));
    // The chain byte, the 63 bytes after it and the four gates are zeros now: 68 bytes.
    assert_equal(&rt, server.nonzero(), 2080);
    assert_equal(&rt, server.byte(2276), 0);
    assert_equal(&rt, server.byte(2343), 0);
    assert_equal(&rt, server.byte(2344), 7);
    Ok(())
}

/// `tests/run calls` also runs this test with each request for memory refused in turn.
#[test]
fn a_refused_log_is_made_at_the_next_try(rt: HostRuntime) -> Result<(), Fail> {
    let g = Geometry::default();
    let log = match Halves::new(rt.alloc(), &g) {
        Ok(log) => log,
        Err(_) => Halves::new(rt.alloc(), &g)?,
    };
    assert_equal(&rt, log.room() as u64, 0);
    assert_true(&rt, !log.failed());
    Ok(())
}

/// The number of the device call that fails, and the call of a new log in which it is made.
const FAULTS: [(u64, Step); 5] = [
    (1, Step::Clear),
    (2, Step::Flip),
    // The first two calls clear the other half, the third writes the chain byte.
    (3, Step::Chain),
    (1, Step::Front(0)),
    (1, Step::Record(0, 0)),
];

#[test]
fn a_failed_log_says_so(rt: HostRuntime) -> Result<(), Fail> {
    for &(n, step) in &FAULTS {
        let mut server = Server::new(rt.alloc(), 4)?;
        // `false`: calls after the n-th work.
        server.fails_at(n, false);
        assert_equal(&rt, server.does(step), Err(LogFault::Device));
        assert_true(&rt, server.log.failed());
    }
    Ok(())
}
