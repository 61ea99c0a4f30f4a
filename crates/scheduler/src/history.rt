//! What contracts know of a core's past: the tree when it was opened, and the batches appended to its log since. These are snapshots,
//! which exist in proofs alone, so they take no memory.
ghost use Rattle.std.specs.Prelude.{◌≡◌, ◌++◌, []};

use parcel::Tree;
use protocol::Msg;
use std::marker::Model;
use std::mem;
use std::snapshot::Snapshot;

/// The batches appended so far: none, or the last one and those before it.
#[derive(Drop)]
pub(crate) enum Appended {
    Nothing,
    After(Snapshot<Vec<Msg>>, Snapshot<Appended>),
}

/// A history takes no memory. After a device failure neither the device's bytes nor the tree show what was committed; this does.
#[derive(Drop)]
pub(crate) struct History {
    opened: Snapshot<Tree>,
    appended: Snapshot<Appended>,
}

impl Model for History {
    ghost use Rattle.scheduler.specs.History.{HistoryView, messages_in};

    ghost Value = { HistoryView };

    ghost view = { λ h. record { opened = h.opened.value; since_open = messages_in h.appended.value } };
}

impl History {
    /// A core was opened with this tree.
    pub(crate) fn begun(tree: &Tree) -> History
        ensures { (result.opened ≡ tree.now) × (result.since_open ≡ []) }
    {
        History {
            opened: Snapshot::of(tree),
            appended: Snapshot::of(&Appended::Nothing),
        }
    }

    /// Notes that this batch was appended to the log.
    pub(crate) fn note(&mut self, batch: &Vec<Msg>)
        ensures { self.new ≡ record self.old { since_open = self.old.since_open ++ batch.now.items } }
    {
        let before = mem::replace(&mut self.appended, Snapshot::of(&Appended::Nothing));
        self.appended = Snapshot::of(&Appended::After(Snapshot::of(batch), before));
    }
}
