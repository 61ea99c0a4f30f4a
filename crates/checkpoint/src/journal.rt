//! The journal of a server: what was carried out, on a device that a crash may tear at any moment.
ghost use Rattle.std.specs.Prelude.{◌≡◌, ◌≢◌, ◌-◌, ◌*◌, ◌≤◌, ◌++◌, ℕ, List, true, false, Some, None, [], length, is_some, option_map, OnOk, OnErr, IfOk};
ghost use Rattle.recovery.specs.Version.{named_version};
ghost use Rattle.disk.specs.CrashImages.{CrashImagesAre};
ghost use Rattle.image.specs.Pieces.{piece_count};
ghost use Rattle.image.specs.declared.layout.TheConstants.{VERSION};
ghost use Rattle.checkpoint.specs.Costs.{longest_point, point_cost};
ghost use Rattle.checkpoint.specs.Images.{KeepsImages, PatchesUnnamed};
ghost use Rattle.checkpoint.specs.Journal.{JournalView, AreCarriedOut, RecoversWithPrefix, IsRecoverable, after_call, records, committed, RecoversStill};
ghost use Rattle.checkpoint.specs.DirtyPieces.{AreBothTouched, count_dirty, cut_dirty, flipped_dirty, pointed_dirty};
ghost use Rattle.oplog.specs.Beyond.{KeepsBeyond};
ghost use Rattle.disk.specs.Device.{Costs};
ghost use Rattle.oplog.specs.Log.{batch_count, ReadsNoRecord};
ghost use Rattle.device_map.specs.Layout.{layout_of};
ghost use Rattle.oplog.specs.ChangeRecords.{AreChangesInRange, records_of};
ghost use Rattle.parcel.specs.Tree.{IsWholeTree, state_in};
ghost use Rattle.meaning.specs.Step.{state_after_all};
ghost use Rattle.meaning.specs.State.{State};

use crate::checkpoint_steps::{cut_on, flip_on, point_on};
use crate::dirty::{clear_dirty, count_dirty, dirty_touched, first_dirty, swap_and_clear_dirty};
use crate::extents::write_extent;
use crate::snapshot::update_snapshot;
use affinity::Geometry;
use disk::Disk;
use oplog::{Halves, LogFault, other};
use parcel::Tree;
use protocol::Msg;
use std::marker::Model;
use std::mem;

/// The memory that a journal has besides its log: an image, and three flags for each of its pieces.
#[derive(Drop)]
pub(crate) struct Buffers {
    /// The image of the state that the last point or cut was made of.
    pub(crate) snapshot: Vec<u8>,

    /// The dirty flags of the named image: which pieces may differ from those of what is committed.
    pub(crate) named_dirty: Vec<bool>,

    /// The same of the other image: as it is, or, during a cut, as it will be once the cut is written.
    pub(crate) other_dirty: Vec<bool>,

    /// Which pieces of a cut are still to be written.
    pub(crate) pending: Vec<bool>,
}

/// The log of a server and the images that keep it short, on a device that it owns.
///
/// No call takes memory. After a device fault it has failed: only calls that don't use the device may be made.
#[derive(Drop)]
pub struct Journal<D: Disk> {
    disk: D,
    halves: Halves,

    buffers: Buffers,

    /// No piece before this one is pending: the next pending one is looked for from here on.
    next_pending: usize,

    /// How many are pending, while a cut is in progress.
    pieces_left: Option<usize>,
}

impl<D: Disk> Model for Journal<D> {
    ghost use Rattle.checkpoint.specs.Journal.{JournalView};

    ghost Value = { JournalView };

    ghost use Rattle.checkpoint.specs.View.{IsJournal, journal_view};

    ghost view = { journal_view D.medium };

    ghost invariant = { IsJournal D.medium D.keeps };
}

impl<D: Disk> Journal<D> {
    ghost use Rattle.checkpoint.specs.IsSoundJournal.{IsSoundJournal};
    ghost use Rattle.checkpoint.specs.Journal.{journal_view_of};
    ghost use Rattle.oplog.specs.Calls.{IsUsable};
    ghost use Rattle.checkpoint.specs.Buffers.{FitBuffers};

    /// A journal with no cut in progress.
    pub(crate) fn new(disk: D, halves: Halves, buffers: Buffers) -> Journal<D>
        requires usable { IsUsable halves (D.medium disk) }
        requires current_is_named { halves.current ≡ halves.named }
        requires used { halves.used ≤ halves.geometry.half }
        requires buffers { FitBuffers halves.geometry buffers }
        requires sound { D.keeps → IsSoundJournal halves buffers.snapshot.items buffers.named_dirty.items buffers.other_dirty.items
            buffers.pending.items None (D.medium disk) }
        ensures { result ≡ journal_view_of halves buffers.named_dirty.items buffers.other_dirty.items None (D.medium disk) }
    {
        Journal {
            disk,
            halves,
            buffers,
            next_pending: 0,
            pieces_left: None,
        }
    }

    /// Logs these messages, in order: changes that were carried out one after the other, from the committed state on.
    pub fn log(&mut self, messages: &[Msg]) -> Result<(), LogFault>
        requires not_failed { self.old.failed ≡ false }
        requires room { length messages.now ≤ self.old.room }
        requires changes { AreChangesInRange self.old.geometry messages.now }
        requires carried_out { D.keeps → (x : State) → committed self.old ≡ Some x → AreCarriedOut self.old.geometry x messages.now }

        // A crash at any moment of the call leaves a device that recovers to what was committed, with the first m of
        // the messages run on it.
        ensures any_moment { D.keeps → (x : State) → committed self.old ≡ Some x →
            CrashImagesAre self.old.medium self.new.medium (RecoversWithPrefix self.old.geometry x messages.now) }
        ensures beyond { D.keeps → KeepsBeyond (layout_of self.old.geometry) self.old.medium self.new.medium }
        ensures committed { OnOk result (D.keeps →
            committed self.new ≡ option_map (λ x. state_after_all self.old.geometry x messages.now) (committed self.old)) }
        ensures records { OnOk result (D.keeps → records self.new ≡ records self.old ++ records_of messages.now) }
        ensures recoverable { OnOk result (D.keeps → IsRecoverable self.new) }
        ensures dirties { OnOk result (AreBothTouched self.old.geometry messages.now self.old.dirty self.new.dirty) }
        ensures none { length messages.now ≡ 0 → self.new ≡ self.old }
        ensures costs { D.keeps → Costs result (4 * batch_count (length messages.now)) self.old.medium self.new.medium }
        ensures after { self.new ≡ after_call result
            (record self.old { room = self.old.room - length messages.now; dirty = self.new.dirty; medium = self.new.medium })
            self.old }
        ensures call { ReadsNoRecord result self.old.medium self.new.medium }
    {
        self.halves.append(&mut self.disk, messages)?;
        let g = self.halves.geometry();
        dirty_touched(
            &g,
            messages,
            &mut self.buffers.named_dirty,
            &mut self.buffers.other_dirty,
        );
        Ok(())
    }

    /// Writes an image of the committed state, which the tree has (no part of it is lent), and begins a new log.
    pub fn point(&mut self, tree: &Tree) -> Result<(), LogFault>
        requires not_failed { self.old.failed ≡ false }
        requires no_cut { self.old.pieces_left ≡ None }
        requires geometry { tree.now.geometry ≡ self.old.geometry }
        requires whole { IsWholeTree tree.now }
        requires state { D.keeps → committed self.old ≡ Some (state_in tree.now) }

        // A crash at any moment of the call leaves a device that recovers to what was committed.
        ensures any_moment { D.keeps → RecoversStill self.old.geometry self.old.medium self.new.medium }
        ensures beyond { D.keeps → KeepsBeyond (layout_of self.old.geometry) self.old.medium self.new.medium }
        ensures committed { OnOk result (D.keeps → committed self.new ≡ committed self.old) }
        ensures recoverable { OnOk result (D.keeps → IsRecoverable self.new) }
        ensures emptied { OnOk result (D.keeps → records self.new ≡ []) }

        // The named image is of the newest version.
        ensures version { OnOk result (D.keeps → named_version self.new.geometry self.new.medium.now ≡ VERSION) }

        // Dirty pieces that lie side by side take one write.
        ensures costs { D.keeps → Costs result (point_cost self.old.dirty.other) self.old.medium self.new.medium }
        ensures few { point_cost self.old.dirty.other ≤ longest_point self.old.geometry }
        ensures after { self.new ≡ after_call result
            (record self.old { room = self.old.geometry.half; dirty = pointed_dirty self.old.dirty; medium = self.new.medium })
            self.old }
        ensures call { ReadsNoRecord result self.old.medium self.new.medium }
    {
        update_snapshot(tree, &self.buffers.named_dirty, &mut self.buffers.snapshot);
        point_on(
            &mut self.halves,
            &mut self.disk,
            &self.buffers.snapshot,
            &self.buffers.other_dirty,
        )?;
        // No piece of the image that was just written is dirty.
        swap_and_clear_dirty(&mut self.buffers.named_dirty, &mut self.buffers.other_dirty);
        Ok(())
    }

    /// Begins a checkpoint of a snapshot of the committed state, which the tree has (no part of it is lent): records go to the other
    /// half from now on, after those in force. As many pieces are left to write as are dirty in the other image.
    pub fn cut(&mut self, tree: &Tree) -> Result<(), LogFault>
        requires not_failed { self.old.failed ≡ false }
        requires no_cut { self.old.pieces_left ≡ None }
        requires geometry { tree.now.geometry ≡ self.old.geometry }
        requires whole { IsWholeTree tree.now }
        requires state { D.keeps → committed self.old ≡ Some (state_in tree.now) }
        ensures any_moment { D.keeps → RecoversStill self.old.geometry self.old.medium self.new.medium }
        ensures beyond { D.keeps → KeepsBeyond (layout_of self.old.geometry) self.old.medium self.new.medium }
        ensures committed { OnOk result (D.keeps → committed self.new ≡ committed self.old) }
        ensures recoverable { OnOk result (D.keeps → IsRecoverable self.new) }
        ensures records { OnOk result (D.keeps → records self.new ≡ records self.old) }
        ensures begun { OnOk result (self.new ≡ record self.old {
          room = self.old.geometry.half;
          pieces_left = Some (count_dirty self.old.dirty.other);
          dirty = cut_dirty self.old.dirty;
          medium = self.new.medium;
        }) }
        ensures few { OnOk result (count_dirty self.old.dirty.other ≤ piece_count self.old.geometry) }
        ensures images { OnOk result (D.keeps → KeepsImages self.old.geometry self.old.medium.now self.new.medium.now) }
        ensures costs { D.keeps → Costs result 4 self.old.medium self.new.medium }
        ensures broken { OnErr result (self.new ≡ record self.old { failed = true; medium = self.new.medium }) }
        ensures call { ReadsNoRecord result self.old.medium self.new.medium }
    {
        update_snapshot(tree, &self.buffers.named_dirty, &mut self.buffers.snapshot); // later messages don't change it
        cut_on(&mut self.halves, &mut self.disk)?;
        mem::swap(&mut self.buffers.pending, &mut self.buffers.other_dirty);
        clear_dirty(&mut self.buffers.other_dirty);
        self.next_pending = 0;
        self.pieces_left = Some(count_dirty(&self.buffers.pending));
        Ok(())
    }

    /// Writes the next piece of the state of the cut (with the first piece the image's head), and gives how many are left. With none left
    /// it touches nothing.
    pub fn piece(&mut self) -> Result<usize, LogFault>
        requires not_failed { self.old.failed ≡ false }
        requires running { is_some self.old.pieces_left ≡ true }
        ensures any_moment { D.keeps → RecoversStill self.old.geometry self.old.medium self.new.medium }
        ensures beyond { D.keeps → KeepsBeyond (layout_of self.old.geometry) self.old.medium self.new.medium }
        ensures committed { OnOk result (D.keeps → committed self.new ≡ committed self.old) }

        // The piece isn't synced: it lies in the image that isn't named, and `flip` syncs it.
        ensures recoverable { OnOk result (D.keeps → IsRecoverable self.new) }
        ensures records { OnOk result (D.keeps → records self.new ≡ records self.old) }
        ensures pieces_left { IfOk result (λ n. option_map (λ l. l - 1) self.old.pieces_left ≡ Some n) }

        // It writes one piece, in one write, unless none is left.
        ensures one { OnOk result (self.old.pieces_left ≢ Some 0 → D.keeps →
            PatchesUnnamed self.old.geometry self.old.medium.now self.new.medium.now) }
        ensures costs { self.old.pieces_left ≢ Some 0 → D.keeps → Costs result 1 self.old.medium self.new.medium }
        ensures none { self.old.pieces_left ≡ Some 0 → self.new ≡ self.old }
        ensures after { self.new ≡ after_call result
            (record self.old { pieces_left = option_map (λ l. l - 1) self.old.pieces_left; medium = self.new.medium }) self.old }
        ensures call { ReadsNoRecord result self.old.medium self.new.medium }
    {
        let Some(n) = first_dirty(&self.buffers.pending, self.next_pending) else {
            return Ok(0);
        };
        let g = self.halves.geometry();
        let area = other(self.halves.named());
        // Extent n is piece n, the first one with the head before it.
        if write_extent(&mut self.disk, &g, area, &self.buffers.snapshot, n).is_err() {
            return Err(self.halves.fail());
        }
        self.buffers.pending[n] = false;
        self.next_pending = n + 1;
        let Some(before) = self.pieces_left else {
            unreachable!()
        };
        let left = before - 1;
        self.pieces_left = Some(left);
        Ok(left)
    }

    /// Ends a cut of which every piece is written: the image becomes the named one. The records that were in
    /// force before the cut aren't any more; those logged since then are.
    pub fn flip(&mut self) -> Result<(), LogFault>
        requires not_failed { self.old.failed ≡ false }
        requires written { self.old.pieces_left ≡ Some 0 }
        ensures any_moment { D.keeps → RecoversStill self.old.geometry self.old.medium self.new.medium }
        ensures beyond { D.keeps → KeepsBeyond (layout_of self.old.geometry) self.old.medium self.new.medium }
        ensures committed { OnOk result (D.keeps → committed self.new ≡ committed self.old) }
        ensures recoverable { OnOk result (D.keeps → IsRecoverable self.new) }
        ensures records { OnOk result (D.keeps → (first : List (List ℕ)) × (records self.old ≡ first ++ records self.new)) }

        // The named image is of the newest version.
        ensures version { OnOk result (D.keeps → named_version self.new.geometry self.new.medium.now ≡ VERSION) }

        // It writes no piece: all were written before.
        ensures images { OnOk result (D.keeps → KeepsImages self.old.geometry self.old.medium.now self.new.medium.now) }
        ensures costs { D.keeps → Costs result 3 self.old.medium self.new.medium }
        ensures after { self.new ≡ after_call result
            (record self.old { pieces_left = None; dirty = flipped_dirty self.old.dirty; medium = self.new.medium }) self.old }
        ensures call { ReadsNoRecord result self.old.medium self.new.medium }
    {
        flip_on(&mut self.halves, &mut self.disk, &self.buffers.snapshot)?;
        mem::swap(&mut self.buffers.named_dirty, &mut self.buffers.other_dirty);
        self.pieces_left = None;
        Ok(())
    }

    /// How many more records the current half takes.
    pub fn room(&self) -> usize
        ensures room { result ≡ self.now.room }
        ensures recoverable { self.now.failed ≡ false → D.keeps → IsRecoverable self.now }
    {
        self.halves.room()
    }

    /// How many pieces of a cut are still to be written, while one is in progress.
    pub fn pieces_left(&self) -> Option<usize>
        ensures { result ≡ self.now.pieces_left }
    {
        self.pieces_left
    }

    /// The geometry of the device.
    pub fn geometry(&self) -> Geometry
        ensures { result ≡ self.now.geometry }
    {
        self.halves.geometry()
    }

    /// Whether the device has failed in a call.
    pub fn failed(&self) -> bool
        ensures { result ≡ self.now.failed }
    {
        self.halves.failed()
    }

    /// The device.
    pub fn disk(&self) -> &D
        ensures { D.medium result.now ≡ self.now.medium }
    {
        &self.disk
    }

    /// The device.
    pub fn into_disk(self) -> D
        ensures { D.medium result ≡ self.medium }
    {
        self.disk
    }
}
