//! How many workers, outstanding lines and records between checkpoints a server on a device has.
ghost use Rattle.std.specs.Prelude.{◌≤◌};
ghost use Rattle.affinity.specs.declared.limits.TheConstants.{MOST_SLOTS, MOST_WORKERS};

use affinity::limits::{MOST_SLOTS, MOST_WORKERS};

/// The options of a server on a device.
#[derive(Clone, Copy, Debug)]
pub struct ServeOptions {
    /// Threads that run messages, at most `MOST_WORKERS`. With none of them nothing is served.
    pub workers: u16,

    /// How many lines may be outstanding: read, and the answer not sent. 1 to `MOST_SLOTS`.
    pub slots: u16,

    /// How many records are logged before a checkpoint is made. With 0 a checkpoint is made only where the log has no room, and at the end
    /// of the input.
    pub every: u16,
    pub ghost few_workers: { workers ≤ MOST_WORKERS },
    pub ghost some_slot: { 1 ≤ slots },
    pub ghost few_slots: { slots ≤ MOST_SLOTS },
}

impl ServeOptions {
    ghost use Rattle.std.specs.Prelude.{◌≡◌, ◌∷◌, []};
    ghost use Rattle.commands.specs.Services.{options_in_order};
    ghost use Rattle.commands.specs.Services.{within_limits};

    /// These options, with at most `MOST_WORKERS` workers and 1 to `MOST_SLOTS` slots.
    pub fn new(workers: u16, slots: u16, every: u16) -> ServeOptions
        ensures { options_in_order result ≡ within_limits (workers ∷ slots ∷ every ∷ []) }
    {
        ServeOptions {
            workers: workers.min(MOST_WORKERS),
            slots: slots.min(MOST_SLOTS).max(1),
            every,
        }
    }
}
