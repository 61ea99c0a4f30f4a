//! Devices that fail or stop at each call, and crashes of every kind.
//!
//! `KINDS` is how many kinds of crash there are. A server takes messages into its other half, which is cleared, and then named
//! (`Way::Named`) or chained to the named one (`Way::Chained`).
use crate::assertions::{assert_equal, assert_true};
use crate::oplog_common::{Server, Way};
use harness::{KINDS, MIXED};
use message::Msg;
use std::alloc::Global;
use std::process::Abort;
use std::test::Fail;

const MESSAGES: [Msg; 3] = [Msg::MakeVol(0, 0), Msg::Seal(0, 0), Msg::Unseal(0, 0)];

/// What a crash leaves of a server whose halves hold four records each.
#[derive(Drop)]
struct Left {
    /// Whether the messages were appended before the crash without a fault.
    went_well: bool,
    /// The root byte, and the chain byte of half 0.
    root: u64,
    chain: u64,
    /// The messages in the front of the last half that is in force.
    read: Vec<Msg>,
}

/// What is found on a server after a crash, before which its messages were appended or not.
fn recovered(alloc: Global, way: Way, server: Server, went_well: bool) -> Result<Left, Fail> {
    let mut server = server;
    let (root, chain) = (server.byte(64), server.byte(128));
    // A half that isn't named may hold anything while it is cleared; and unless the chain byte of half 0 is 1, half 1 isn't in force.
    let last = match way {
        Way::Named => root,
        Way::Chained => chain,
    };
    let read = server.messages(alloc, usize::from(last == 1))?;
    Ok(Left {
        went_well,
        root,
        chain,
        read,
    })
}

/// What a crash of this kind leaves of a server that takes the messages, where the n-th call of its device fails, and all later ones too if
/// it stops there.
fn left_at(alloc: Global, way: Way, n: u64, stops: bool, kind: usize) -> Result<Left, Fail> {
    let mut server = Server::new(alloc, 4)?;
    server.fails_at(n, stops);
    let went_well = server.takes(way, &MESSAGES);
    recovered(alloc, way, server.crashed(alloc, kind)?, went_well)
}

/// Asserts that the messages that were read, after a fault at the n-th call and a crash of this kind, are a prefix of `MESSAGES`.
fn assert_beginning(rt: &impl Abort, read: &[Msg], n: u64, kind: usize) {
    let count = read.len();
    assert_equal(rt, read, &MESSAGES[..count.min(MESSAGES.len())]);
    // The seventh call writes the gates and the eighth syncs them. A fault before the seventh leaves no record. Nine means no fault,
    // as no ninth call is made: then all records are there.
    assert_true(rt, n > 6 || count == 0);
    assert_true(rt, n < 9 || count == 3);
    // `MIXED` leaves 1, 77, 1 in turn in unsynced bytes: here the three gates, whose write failed. A gate of 77 is shut.
    assert_true(rt, n != 7 || kind != MIXED || count == 1);
}

#[test]
fn each_crash_leaves_a_beginning_of_the_messages(rt: HostRuntime) -> Result<(), Fail> {
    for n in 1..10 {
        for stops in [true, false] {
            for kind in 0..KINDS {
                let left = left_at(rt.alloc(), Way::Named, n, stops, kind)?;
                assert_equal(&rt, left.went_well, (n == 9));
                assert_beginning(&rt, &left.read, n, kind);
            }
        }
    }
    Ok(())
}

#[test]
fn each_crash_of_a_chain_leaves_one_too(rt: HostRuntime) -> Result<(), Fail> {
    for n in 1..10 {
        for stops in [true, false] {
            for kind in 0..KINDS {
                let left = left_at(rt.alloc(), Way::Chained, n, stops, kind)?;
                assert_equal(&rt, left.went_well, (n == 9));
                // Half 0 is named, and its chain byte is written by the third call and synced by the fourth.
                assert_equal(&rt, left.root, 0);
                assert_true(&rt, n > 2 || left.chain == 0);
                assert_true(&rt, n < 5 || left.chain == 1);
                assert_beginning(&rt, &left.read, n, kind);
            }
        }
    }
    Ok(())
}
