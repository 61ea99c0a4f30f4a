//! Which of the conflict-free messages is dispatched first.
ghost use Rattle.std.specs.Prelude.{◌≡◌, ◌*◌, ◌^◌, ◌≤◌, option_copied};
ghost use Rattle.run_queue.specs.RunQueue.{has_room};
ghost use Rattle.run_queue.specs.Order.{is_earlier, earlier};
ghost use Rattle.run_queue.specs.ReadyTable.{earliest_from, if_passes, ready_in};

use crate::QueuedMessage;
use crate::ready_table::{CHUNK, ReadyTable};

// Whether the log has room for the message, if it needs any.
fn has_room(log_has_room: bool, queued: &QueuedMessage) -> bool
    ensures { result ≡ has_room log_has_room queued.now }
{
    log_has_room || !queued.changing
}

// Whether the message came before the best one so far.
fn is_earlier(best: Option<&QueuedMessage>, queued: &QueuedMessage) -> bool
    ensures { result ≡ is_earlier (option_copied best.entry) queued.now }
{
    match best {
        Some(other) => queued.ticket < other.ticket,
        None => true,
    }
}

// Of two affinity numbers, the one whose ready message is older: `best`, or `number` if the log has room for its message.
fn better(log_has_room: bool, ready_table: &ReadyTable, best: usize, number: usize) -> usize
    ensures { ready_in ready_table.now result
        ≡ earlier (ready_in ready_table.now best) (if_passes (has_room log_has_room) (ready_in ready_table.now number)) }
{
    let Some(queued) = ready_table.at(number) else {
        return best;
    };
    if is_earlier(ready_table.at(best), queued) && has_room(log_has_room, queued) {
        number
    } else {
        best
    }
}

/// The affinity number at which the earliest of some ready messages waits. Candidates are the one at number `best`, and those in a chunk
/// (`CHUNK` numbers in a row) for which the log has room.
pub(crate) fn best_in(
    log_has_room: bool,
    ready_table: &ReadyTable,
    best: usize,
    chunk: usize,
) -> usize
    requires { CHUNK * chunk ≤ 2 ^ 16 }
    ensures { ready_in ready_table.now result
        ≡ earliest_from (has_room log_has_room) ready_table.now (CHUNK * chunk) CHUNK (ready_in ready_table.now best) }
{
    let mut found = best;
    let mut bound = ready_table.bound(best);
    for number in chunk * CHUNK..(chunk + 1) * CHUNK {
        // Most are skipped for their rank (the ticket) alone: one above the bound can't be earlier.
        if ready_table.rank(number) <= bound {
            found = better(log_has_room, ready_table, found, number);
            bound = ready_table.bound(found);
        }
    }
    found
}
