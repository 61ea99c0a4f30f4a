//! Run queues for which there is memory, or none at first.
ghost use Rattle.std.specs.Prelude.{◌≡◌, IfOk};
ghost use Rattle.run_queue.specs.RunQueue.{queue_at_start};

use crate::assertions::{assert_equal, assert_true};
use affinity::{Affinity, Geometry, Place};
use run_queue::{QueuedMessage, RunQueue};
use std::alloc::{AllocError, Global};
use std::test::Fail;

// A run queue of three slots. If memory is refused, the call is made once more, and has to succeed then: the script `tests/run`,
// with the argument `calls`, refuses each request in turn.
fn made(alloc: Global, g: &Geometry) -> Result<RunQueue, AllocError>
    ensures { IfOk result (λ run_queue. run_queue ≡ queue_at_start g.now 3) }
{
    match RunQueue::new(alloc, g, 3) {
        Ok(run_queue) => Ok(run_queue),
        Err(_) => RunQueue::new(alloc, g, 3),
    }
}

/// The test passes also if any one request for memory in it is refused.
#[test]
fn a_run_queue_is_made_at_the_next_try(rt: HostRuntime) -> Result<(), Fail> {
    let g = Geometry::default();
    let mut run_queue = made(rt.alloc(), &g)?;
    let queued = &QueuedMessage {
        slot: 2,
        affinity: Affinity::at(&g, Place::Serial),
        changing: true,
        ticket: 0,
    };
    // `next` gives the first message that may be dispatched, and leaves it in the queue; `true`: the log has room.
    assert_true(&rt, run_queue.next(true).is_none());
    run_queue.arrive(*queued);
    assert_equal(&rt, run_queue.next(true), Some(*queued));
    Ok(())
}
