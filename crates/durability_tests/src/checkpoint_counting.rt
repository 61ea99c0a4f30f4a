//! How often each call of a journal calls the device, and how many bytes it writes.
use crate::assertions::{assert_equal, assert_true};
use crate::common::SMALL;
use disk::MemDisk;
use harness::{
    Act, Counts, Halt, NEW, OLD, Server, Wrong, assert_shown, device_with, messages_of, torn,
};
use message::Msg;
use oplog::LogFault;
use std::alloc::Global;
use std::process::Abort;
use std::test::Fail;

/// What is done, and then the writes, the syncs and the bytes that it takes. A record has 520 bytes and a gate of one. A half has four
/// gates after 64 bytes, which a checkpoint clears (68), as it writes the root byte (1). An image has 2,208 bytes: a head of 64, a volume's
/// piece of 64 and two stripes' of 1,040. `End` writes the pieces that are left of a cut, and ends it.
const ACTS: [(Act, [u64; 3]); 18] = [
    (Act::Log(&[]), [0, 0, 0]),
    (Act::Log(&["makevol 0 0"]), [2, 2, 521]),
    (
        Act::Log(&["create 0 0 0", "seal 0 0", "unseal 0 0"]),
        [2, 2, 1563],
    ),
    // Into area 0, of which all is out of date.
    (Act::Point, [3, 3, 68 + 2208 + 1]),
    // The volume's piece, with the head.
    (Act::Point, [3, 3, 68 + 128 + 1]),
    // Nothing has changed since.
    (Act::Point, [2, 3, 68 + 1]),
    // The volume's piece and its last stripe's, which don't lie side by side.
    (
        Act::Log(&["setlabel 0 0 07", "write 0 0 0 1 61"]),
        [2, 2, 1042],
    ),
    (Act::Point, [4, 3, 68 + 128 + 1040 + 1]),
    // All three pieces in one write: this area lacks the volume's and the last stripe's too, and the first stripe's lies between them.
    (Act::Log(&["write 0 0 0 0 62"]), [2, 2, 521]),
    (Act::Point, [3, 3, 68 + 2208 + 1]),
    (Act::Cut, [2, 2, 68 + 1]),
    // The one piece that has changed since this area was written, a stripe's.
    (Act::Piece, [1, 0, 1040]),
    (Act::Piece, [0, 0, 0]),
    (Act::End, [1, 2, 1]),
    (Act::Cut, [2, 2, 68 + 1]),
    (Act::Piece, [0, 0, 0]),
    (Act::Log(&["delete 0 0 0"]), [2, 2, 521]),
    (Act::End, [1, 2, 1]),
];

/// Asserts that there are `reads` more reads, and `more` writes, syncs and bytes.
fn assert_more(rt: &impl Abort, before: &Counts, after: &Counts, reads: u64, more: [u64; 3]) {
    let [writes, syncs, written] = more;
    assert_equal(rt, after.reads, before.reads.saturating_add(reads));
    assert_equal(rt, after.writes, before.writes.saturating_add(writes));
    assert_equal(rt, after.syncs, before.syncs.saturating_add(syncs));
    assert_equal(rt, after.written, before.written.saturating_add(written));
}

/// Asserts that an act takes this many more writes, syncs and bytes.
fn assert_takes(
    rt: &impl Abort,
    alloc: Global,
    server: &mut Server<MemDisk>,
    act: &Act,
    more: [u64; 3],
) -> Result<(), Wrong> {
    let before = server.counts();
    let messages = messages_of(alloc, act.changes())?;
    assert_equal(rt, server.act(act, messages.as_slice()), Ok(()));
    assert_more(rt, &before, &server.counts(), 0, more);
    Ok(())
}

#[test]
fn each_act_takes_few_calls(rt: HostRuntime) -> Result<(), Fail> {
    let alloc = rt.alloc();
    let Ok(mut server) = Server::open(alloc, device_with(alloc, SMALL, &[])?) else {
        return Err(Wrong::Unfit.into());
    };
    for &(act, more) in &ACTS {
        assert_true(
            &rt,
            assert_takes(&rt, alloc, &mut server, &act, more).is_ok(),
        );
    }
    let _device = server.into_device();
    Ok(())
}

/// Asserts what opening a device with these patches takes: reads, then writes, syncs and bytes. `Wrong::Unfit`, here and below: it didn't
/// go as it was written.
fn assert_opening_takes(
    rt: &impl Abort,
    alloc: Global,
    patches: &[(usize, u8)],
    reads: u64,
    want: [u64; 3],
) -> Result<(), Wrong> {
    let Ok(server) = Server::open(alloc, device_with(alloc, SMALL, patches)?) else {
        return Err(Wrong::Unfit);
    };
    let (_, after) = server.into_device();
    let before = Counts {
        reads: 0,
        writes: 0,
        syncs: 0,
        written: 0,
    };
    assert_more(rt, &before, &after, reads, want);
    Ok(())
}

#[test]
fn opening_takes_few_calls(rt: HostRuntime) -> Result<(), Fail> {
    // A sync, and a checkpoint of the whole image. It reads the header, the root byte, the image's head and its three pieces, the chain
    // byte and the gates.
    assert_opening_takes(&rt, rt.alloc(), &[], 8, [3, 4, 68 + 2208 + 1])?;
    // Byte 128, the chain byte of half 0, says that a cut was in progress: opening finishes it first, by writing an image and the
    // root byte. The chain byte and the gates of the other half are read too.
    let ended = 2 * (2208 + 1) + 68;
    assert_opening_takes(&rt, rt.alloc(), &[(128, 1)], 10, [5, 6, ended])?;
    Ok(())
}

/// The numbers of the small server, with 128 records in a half.
const LONG: [u16; 8] = [1, 1, 2, 1, 2, 4, 2, 128];

/// A message that makes the volume, and others that seal it again and again.
fn seals(alloc: Global, count: usize) -> Result<Vec<Msg>, Wrong> {
    let mut messages = vec![in alloc; Msg::Seal(0, 0); count]?;
    if let Some(first) = messages.first_mut() {
        *first = Msg::MakeVol(0, 0);
    }
    Ok(messages)
}

/// How many calls opening the long device makes.
fn calls_of_opening(alloc: Global) -> Result<u64, Wrong> {
    match Server::open(alloc, device_with(alloc, LONG, &[])?) {
        Ok(server) => Ok(server.into_device().0.calls()),
        Err(_) => Err(Wrong::Unfit),
    }
}

/// Logs these messages by one `log`. Gives whether that succeeded, and the device; the only fault may be `LogFault::Device`.
fn logged_on(alloc: Global, device: MemDisk, messages: &[Msg]) -> Result<(bool, MemDisk), Wrong> {
    let Ok(mut server) = Server::open(alloc, device) else {
        return Err(Wrong::Unfit);
    };
    let logged = server.log(messages);
    let is_reported = logged == Ok(()) || logged == Err(Halt::Failed(LogFault::Device));
    // It failed exactly if the journal has failed.
    let is_noted = logged.is_err() == server.failed();
    let (device, _) = server.into_device();
    if is_reported && is_noted {
        Ok((logged.is_ok(), device))
    } else {
        Err(Wrong::Unfit)
    }
}

/// The same on a device that stops at the n-th device call of that `log`.
fn logged_until(alloc: Global, messages: &[Msg], n: u64) -> Result<(bool, MemDisk), Wrong> {
    let mut device = device_with(alloc, LONG, &[])?;
    device.stop_at(calls_of_opening(alloc)?.saturating_add(n.max(1)));
    logged_on(alloc, device, messages)
}

#[test]
fn a_batch_is_four_calls(rt: HostRuntime) -> Result<(), Fail> {
    let messages = messages_of(rt.alloc(), &["makevol 0 0", "seal 0 0", "unseal 0 0"])?;
    for (stop, is_logged) in [(4, false), (5, true)] {
        let (was_logged, _) = logged_until(rt.alloc(), messages.as_slice(), stop)?;
        assert_equal(&rt, was_logged, is_logged);
    }
    Ok(())
}

/// Asserts that where the device stops at the n-th device call of one `log` of `count` messages, `records` of them are in force after a
/// crash of this kind.
fn assert_in_force(
    rt: &impl Abort,
    alloc: Global,
    count: usize,
    n: u64,
    kind: usize,
    records: usize,
) -> Result<(), Wrong> {
    let (is_logged, device) = logged_until(alloc, seals(alloc, count)?.as_slice(), n)?;
    assert_true(rt, !is_logged);
    let device = device.crash(torn(alloc, kind)?);
    let volumes = u32::from(records > 0);
    // The opening has named area 1.
    assert_shown(alloc, device, 1, records, [volumes, 0, 0])?;
    Ok(())
}

/// The number of the device call at which the device stopped, and how many of 70 messages are in force then: after a crash that leaves the
/// synced bytes (`OLD`), and after one that leaves the last ones written (`NEW`). The seventh call writes the gates of the second batch.
const LEFT: [(u64, usize, usize); 8] = [
    (1, 0, 0),
    (2, 0, 0),
    (3, 0, 64),
    (4, 0, 64),
    (5, 64, 64),
    (6, 64, 64),
    (7, 64, 70),
    (8, 64, 70),
];

#[test]
fn a_long_log_is_two_batches(rt: HostRuntime) -> Result<(), Fail> {
    let many = seals(rt.alloc(), 70)?;
    let device = device_with(rt.alloc(), LONG, &[])?;
    let (is_logged, device) = logged_on(rt.alloc(), device, many.as_slice())?;
    assert_true(&rt, is_logged);
    let calls = calls_of_opening(rt.alloc())?;
    assert_equal(&rt, device.calls(), calls.saturating_add(8));
    for &(n, old, new) in &LEFT {
        assert_in_force(&rt, rt.alloc(), 70, n, OLD, old)?;
        assert_in_force(&rt, rt.alloc(), 70, n, NEW, new)?;
    }
    Ok(())
}
