//! The core: the messages that it has taken in, what they run on, and the journal of what was carried out.
ghost use Rattle.std.specs.Prelude.{cond, nat_lt, ◌≡◌, ◌≢◌, ◌<◌, ◌+◌, ◌*◌, ◌≤◌, ℕ, false, List, Some, None, [], length, OnOk, IfOk, IfSome, IfErr, MatchResult};
ghost use Rattle.affinity.specs.declared.geometry.Geometry.{Geometry};
ghost use Rattle.recovery.specs.Header.{HasHeader};
ghost use Rattle.recovery.specs.Recovery.{recovered_state};
ghost use Rattle.recovery.specs.Refusals.{IsRefused};
ghost use Rattle.recovery.specs.declared.fault.OpenFault.{OpenFault};
ghost use Rattle.recovery.specs.declared.fault.OpenFault.TheVariants as faults;
ghost use Rattle.disk.specs.Device.{moment_number};
ghost use Rattle.image.specs.Pieces.{piece_count};
ghost use Rattle.checkpoint.specs.Costs.{longest_point, opening_cost};
ghost use Rattle.checkpoint.specs.Opening.{IsLeftByRefusal, OpeningCrashImages};
ghost use Rattle.histories.specs.Events.{answer, arrive, batch, flip_refusal, give_back, find_in_flight, point_refusal, touches_device};
ghost use Rattle.histories.specs.IsSoundCoreState.{IsSoundCoreState};
ghost use Rattle.histories.specs.CoreState.{Entry};
ghost use Rattle.histories.specs.declared.outcomes.Step.TheVariants as steps;
ghost use Rattle.oplog.specs.Beyond.{KeepsBeyond};
ghost use Rattle.disk.specs.Device.{Costs};
ghost use Rattle.oplog.specs.Log.{batch_count};
ghost use Rattle.device_map.specs.Layout.{layout_of};
ghost use Rattle.oplog.specs.Recovery.{records_in};
ghost use Rattle.meaning.specs.State.{State};
ghost use Rattle.scheduler.specs.Calls.{CountsFailure, IsGranted, IsLogStep, IsPieceStep, IsCheckpointStep, answer_outcome, arrive_outcome, log_device_failed, checkpoint_device_failed};
ghost use Rattle.arena.specs.ArenaView.{chain_at};
ghost use Rattle.scheduler.specs.Slots.{HasChains};
ghost use Rattle.scheduler.specs.Jobs.{IsResultOf};
ghost use Rattle.scheduler.specs.CoreView.{IsJustOpened, CoreView, RecoversNow, RecoversThroughout, core_state_of};
ghost use Rattle.scheduler.specs.OpenFaults.{IsShownByBytes};
ghost use Rattle.affinity.specs.declared.limits.TheConstants.{MOST_SLOTS};

use crate::Granted;
use crate::core_memory::{CoreMemory, IN_FLIGHT, LOGGED, RAN, Slot, WAITING, take_memory};
use crate::granted::choose;
use crate::history::History;
use crate::log_batch::{collect_recorded, move_ran};
use affinity::{changing, place_of};
use arena::Arena;
use checkpoint::{Journal, OpenError, OpenFault};
use disk::Disk;
use histories::{ArriveRefusal, CoreFault, PointRefusal};
use parcel::{Done, Job, Tree};
use protocol::{Msg, Reply, know_message};
use run_queue::{QueuedMessage, RunQueue};
use std::alloc::Global;
use std::marker::Model;

/// The messages that a server has taken in, the tree that they run on, and the journal of what was carried out.
///
/// All memory is taken by `open`. After a fault of the device nothing more arrives, is dispatched or is logged, and no checkpoint goes on;
/// jobs in flight are still given back, and what was logged is still answered.
#[derive(Drop)]
pub struct Core<D: Disk> {
    slots: Arena<Slot>,

    /// By slot: the reply to the message there, once it ran.
    replies: Vec<Reply>,
    queue: RunQueue,
    tree: Tree,
    journal: Journal<D>,

    /// The changes that a call of `log` hands to the journal. If the device fails then, they stay here, as `doubt`: the log may hold any
    /// prefix of them.
    batch: Vec<Msg>,

    /// The ticket of the next message.
    next: u64,

    /// How many changing messages are in flight, or ran and are not logged yet.
    unlogged: usize,

    /// How many messages ran and are not logged yet: those on the chain `RAN` of `slots`.
    ran: usize,
    history: History,
}

impl<D: Disk> Model for Core<D> {
    ghost use Rattle.scheduler.specs.CoreView.{CoreView};

    ghost Value = { CoreView };

    ghost use Rattle.scheduler.specs.View.{core_view};
    ghost use Rattle.scheduler.specs.IsCore.{IsSoundCore};

    ghost view = { core_view };

    ghost invariant = { IsSoundCore D.keeps };
}

/// 1 where it is so, and else 0.
pub(crate) fn one_if(is_so: bool) -> usize
    ensures { result ≡ cond is_so 1 0 }
{
    if is_so { 1 } else { 0 }
}

// Whether any message is held: in flight, ran or logged.
fn holds_any(slots: &Arena<Slot>) -> bool
    requires { HasChains slots.now }
    ensures { result ≡ nat_lt 0
        (length (chain_at slots.now LOGGED) + (length (chain_at slots.now RAN) + length (chain_at slots.now IN_FLIGHT))) }
{
    slots.front(IN_FLIGHT).is_some() || slots.front(RAN).is_some() || slots.front(LOGGED).is_some()
}

impl<D: Disk> Core<D> {
    /// Opens a device that a crash may have left, for as many messages at once as there are slots.
    ///
    /// Takes its own memory first: where there is none, the device is handed back as it was given. Then the device is opened as by
    /// `checkpoint::open`, with the same faults: it is read, a cut that was in progress is finished, and a checkpoint is made. In the
    /// opened core no message waits or is held, the next ticket is 0, and the log has all its room, with no record in force.
    pub fn open(alloc: Global, d: D, slots: usize) -> Result<Core<D>, OpenError<D>>
        // With no slot no message could ever arrive.
        requires slots { (0 < slots) × (slots ≤ MOST_SLOTS) }
        ensures opened { IfOk result (IsJustOpened slots) }
        ensures header { IfOk result (λ core. D.keeps → HasHeader core.geometry (D.medium d).now) }
        ensures recovered_before { IfOk result (λ core. D.keeps →
            recovered_state core.geometry (D.medium d).now ≡ Some (core_state_of core).committed) }
        ensures emptied { IfOk result (λ core. D.keeps → records_in core.geometry core.medium.now ≡ []) }

        // Until the first sync of the call is over, a crash leaves what a crash just before the call could have left. After it, what a
        // crash leaves recovers to the state to which the device recovered before the call, or is refused for the fault that it had.
        ensures any_moment { D.keeps → MatchResult result
            (λ core. OpeningCrashImages (D.medium d) core.medium)
            (λ e. OpeningCrashImages (D.medium d) (D.medium e.disk)) }

        // The bytes of the device after its last part stay, even after a crash.
        ensures beyond { D.keeps → (g : Geometry) → HasHeader g (D.medium d).now → MatchResult result
            (λ core. KeepsBeyond (layout_of g) (D.medium d) core.medium)
            (λ e. KeepsBeyond (layout_of g) (D.medium d) (D.medium e.disk)) }

        // How many writes and syncs it takes: 11 at most where it returns a fault.
        ensures costs { D.keeps → MatchResult result
            (λ core. moment_number core.medium ≡ moment_number (D.medium d) + opening_cost core.geometry (D.medium d).now)
            (λ e. moment_number (D.medium e.disk) ≤ moment_number (D.medium d) + 11) }

        // The bytes call for the fault; but `IsRefused` asks nothing of `Device` and `OutOfMemory`, which no bytes show.
        ensures refused { IfErr result (λ e. D.keeps → IsRefused (D.medium d).now e.fault) }

        // A refusal writes nothing, unless the device fails, or the fault is a bad record in the half after the named one, while
        // a cut was in progress: the cut is finished before these records are run.
        ensures unwritten { IfErr result (λ e. D.keeps → IsLeftByRefusal (D.medium d) e.fault (D.medium e.disk)) }

        // A device that recovers to a state is opened, and one whose bytes call for a refusal is refused with just that fault,
        // unless the device fails or `OutOfMemory` is reported.
        ensures opens { (g : Geometry) (x : State) → D.keeps → recovered_state g (D.medium d).now ≡ Some x
            → IfErr result (λ e. IsShownByBytes e.fault → ⊥) }
        ensures exact { (fault : OpenFault) → D.keeps → IsRefused (D.medium d).now fault → IsShownByBytes fault
            → MatchResult result (λ core. ⊥) (λ e. IsShownByBytes e.fault → e.fault ≡ fault) }
        ensures device { IfErr result (λ e. (e.fault ≡ faults.Device → (D.medium e.disk).faults ≡ (D.medium d).faults + 1)
            × (e.fault ≢ faults.Device → (D.medium e.disk).faults ≡ (D.medium d).faults)) }
        ensures no_fault { IfOk result (λ core. core.medium.faults ≡ (D.medium d).faults) }
        ensures len { MatchResult result
            (λ core. length core.medium.now ≡ length (D.medium d).now)
            (λ e. length (D.medium e.disk).now ≡ length (D.medium d).now) }
    {
        let Ok(memory) = take_memory(alloc, slots) else {
            return Err(OpenError {
                disk: d,
                fault: OpenFault::OutOfMemory,
            });
        };
        let (journal, tree) = checkpoint::open(alloc, d)?;
        let CoreMemory {
            slots,
            replies,
            mut queue,
            batch,
        } = memory;
        queue.set_geometry(&journal.geometry());
        Ok(Core {
            slots,
            replies,
            queue,
            history: History::begun(&tree),
            tree,
            journal,
            batch,
            next: 0,
            unlogged: 0,
            ran: 0,
        })
    }

    /// Takes a message in, and gives it the next ticket: it waits. Tickets count from 0.
    pub fn arrive(&mut self, m: &Msg) -> Result<u64, ArriveRefusal>
        ensures state_after { (arrive_outcome result, core_state_of self.new) ≡ arrive self.old.geometry (core_state_of self.old) m.now }
        ensures geometry { self.new.geometry ≡ self.old.geometry }
        ensures untouched { self.new.medium ≡ self.old.medium }
    {
        if self.journal.failed() {
            return Err(ArriveRefusal::Failed);
        }
        let g = self.journal.geometry();
        let Some(affinity) = place_of(&g, m.kind(), m.numbers()) else {
            return Err(ArriveRefusal::Range);
        };
        if self.next == u64::MAX {
            return Err(ArriveRefusal::Exhausted);
        }
        know_message(m);
        let ticket = self.next;
        let Ok(slot) = self.slots.put(Slot {
            ticket,
            message: *m,
            affinity,
        })
        else {
            return Err(ArriveRefusal::Full);
        };
        self.slots.move_to(slot, WAITING);
        let queued = QueuedMessage {
            slot,
            affinity,
            changing: changing(m.kind()),
            ticket,
        };
        self.queue.arrive(queued);
        self.next += 1;
        Ok(ticket)
    }

    /// Dispatches the eligible message with the least ticket, with what it needs of the tree. Eligible is a waiting message that conflicts
    /// with no held one and no earlier waiting one, if the log has room for the record that it may need.
    pub fn grant(&mut self) -> Granted
        ensures state_after { IsGranted self.old.geometry (core_state_of self.old) (core_state_of self.new) result }
        ensures geometry { self.new.geometry ≡ self.old.geometry }
        ensures untouched { self.new.medium ≡ self.old.medium }
    {
        if self.journal.failed() {
            return Granted::Failed;
        }
        let log_has_room = self.unlogged < self.journal.room();
        let queued = match choose(&self.queue, log_has_room) {
            Ok(queued) => queued,
            Err(why) => return why,
        };
        let number = queued.slot;
        let more = one_if(queued.changing);
        let Some(slot) = self.slots.get(number) else {
            unreachable!()
        };
        let ticket = slot.ticket;
        let message = slot.message;
        let Some((standing, parcels)) = self.tree.lend(queued.affinity) else {
            unreachable!()
        };
        let g = self.journal.geometry();
        self.queue.dispatch(queued);
        self.slots.move_to(number, IN_FLIGHT);
        self.unlogged += more;
        Granted::Job(Job::new(g, ticket, message, standing, parcels))
    }

    /// Takes back the result of a job in flight.
    pub fn give_back(&mut self, d: Done)
        requires { IsResultOf self.old.geometry (core_state_of self.old) d }
        ensures state_after { (found : Entry × List Entry) × (find_in_flight (core_state_of self.old) d.ticket ≡ Some found)
            × (found.0 ≡ (d.ticket, d.message))
            × (core_state_of self.new ≡ give_back self.old.geometry (core_state_of self.old) found) }
        ensures geometry { self.new.geometry ≡ self.old.geometry }
        ensures untouched { self.new.medium ≡ self.old.medium }
    {
        let g = self.journal.geometry();
        let Some(affinity) = place_of(&g, d.msg().kind(), d.msg().numbers()) else {
            unreachable!()
        };
        let Some(slot) = self.queue.holder(affinity) else {
            unreachable!()
        };
        self.replies[slot] = *d.reply();
        let Ok(()) = self.tree.restore(affinity, d.into_parcels()) else {
            unreachable!()
        };
        self.slots.move_to(slot, RAN);
        self.ran += 1;
    }

    /// Logs the first `n` messages that ran, in the order in which they were given back, or all where fewer ran, and
    /// returns how many these were. The changes among them that were carried out are appended to the log in one go; reads
    /// and refused messages have no record. With no change the device isn't touched.
    pub fn log(&mut self, n: usize) -> Result<usize, CoreFault>
        ensures state_after { IsLogStep self.old.geometry (core_state_of self.old) (core_state_of self.new) n result }
        ensures geometry { self.new.geometry ≡ self.old.geometry }
        ensures counts { CountsFailure (log_device_failed result) self.old.medium.faults self.new.medium.faults }

        // A crash at any moment of the call leaves what was committed, with the first m of what is appended, for some m; or of `doubt`,
        // where the device had failed before.
        ensures any_moment { D.keeps → RecoversThroughout (batch (core_state_of self.old) n) self.old self.new }
        ensures beyond { D.keeps → KeepsBeyond (layout_of self.old.geometry) self.old.medium self.new.medium }

        // It takes four writes and syncs for each write of records; where it fails, at most that.
        ensures costs { D.keeps
            → Costs result (4 * batch_count (length (batch (core_state_of self.old) n))) self.old.medium self.new.medium }
        ensures untouched { touches_device (core_state_of self.old) (steps.Log n) ≡ false → self.new.medium ≡ self.old.medium }
    {
        if self.journal.failed() {
            return Err(CoreFault::Failed);
        }
        let count = n.min(self.ran);
        let changing_count = collect_recorded(&self.slots, &self.replies, count, &mut self.batch);
        if self.journal.log(&self.batch).is_err() {
            return Err(CoreFault::Device);
        }
        self.history.note(&self.batch);
        self.batch.clear();
        move_ran(&mut self.slots, count);
        self.unlogged -= changing_count;
        self.ran -= count;
        Ok(count)
    }

    /// Answers the oldest logged message: returns its ticket and its reply. The message leaves the core, which frees its
    /// affinity and its slot. `None` where no message is logged.
    pub fn answer(&mut self) -> Option<(u64, Reply)>
        ensures state_after { (answer_outcome result, core_state_of self.new) ≡ answer (core_state_of self.old) self.old.logged }
        ensures geometry { self.new.geometry ≡ self.old.geometry }
        ensures untouched { self.new.medium ≡ self.old.medium }
    {
        let slot = self.slots.front(LOGGED)?;
        let Some(taken) = self.slots.take(slot) else {
            unreachable!()
        };
        self.queue.free(taken.affinity);
        let reply = self.replies[slot];
        Some((taken.ticket, reply))
    }

    // Why a checkpoint can't begin.
    fn point_refusal(&self) -> Option<PointRefusal>
        ensures { result ≡ point_refusal (core_state_of self.now) }
    {
        if self.journal.failed() {
            return Some(PointRefusal::Failed);
        }
        if self.journal.pieces_left().is_some() {
            return Some(PointRefusal::Running);
        }
        if holds_any(&self.slots) {
            return Some(PointRefusal::Held);
        }
        None
    }

    /// Makes a checkpoint in one call, where no message is held: no record is in force afterwards, and the log has room for a whole half
    /// (`geometry.half` records).
    pub fn point(&mut self) -> Result<(), PointRefusal>
        ensures state_after { IsCheckpointStep (core_state_of self.old) (core_state_of self.new) (point_refusal (core_state_of self.old))
            (core_state_of self.new ≡ record (core_state_of self.old) { room = self.old.geometry.half }) result }
        ensures geometry { self.new.geometry ≡ self.old.geometry }
        ensures counts { CountsFailure (checkpoint_device_failed result) self.old.medium.faults self.new.medium.faults }

        // A crash at any moment of the call leaves what was committed; where the device had failed before, with a prefix of `doubt`.
        ensures any_moment { D.keeps → RecoversThroughout [] self.old self.new }
        ensures beyond { D.keeps → KeepsBeyond (layout_of self.old.geometry) self.old.medium self.new.medium }
        ensures emptied { OnOk result (D.keeps → records_in self.new.geometry self.new.medium.now ≡ []) }
        ensures costs { D.keeps → moment_number self.new.medium ≤ moment_number self.old.medium + longest_point self.old.geometry }
        ensures untouched { touches_device (core_state_of self.old) steps.Point ≡ false → self.new.medium ≡ self.old.medium }
    {
        if let Some(why) = self.point_refusal() {
            return Err(why);
        }
        self.journal
            .point(&self.tree)
            .map_err(|_| PointRefusal::Device)
    }

    /// Begins an online checkpoint, where no message is held. It will hold what is committed now, and goes on while messages are served.
    pub fn cut(&mut self) -> Result<(), PointRefusal>
        ensures state_after { IsCheckpointStep (core_state_of self.old) (core_state_of self.new) (point_refusal (core_state_of self.old))
            ((n : ℕ) × (n ≤ piece_count self.old.geometry)
            × (core_state_of self.new ≡ record (core_state_of self.old) { room = self.old.geometry.half; pieces_left = Some n })) result }
        ensures geometry { self.new.geometry ≡ self.old.geometry }
        ensures counts { CountsFailure (checkpoint_device_failed result) self.old.medium.faults self.new.medium.faults }
        ensures any_moment { D.keeps → RecoversThroughout [] self.old self.new }
        ensures beyond { D.keeps → KeepsBeyond (layout_of self.old.geometry) self.old.medium self.new.medium }
        ensures costs { D.keeps → Costs result 4 self.old.medium self.new.medium }
        ensures untouched { touches_device (core_state_of self.old) steps.Cut ≡ false → self.new.medium ≡ self.old.medium }
    {
        if let Some(why) = self.point_refusal() {
            return Err(why);
        }
        match self.journal.cut(&self.tree) {
            Ok(()) => Ok(()),
            Err(_) => Err(PointRefusal::Device),
        }
    }

    /// Writes the next piece of the online checkpoint in progress, and returns how many are left. With none left it touches nothing.
    pub fn piece(&mut self) -> Result<usize, PointRefusal>
        ensures state_after { IsPieceStep (core_state_of self.old) (core_state_of self.new) result }
        ensures geometry { self.new.geometry ≡ self.old.geometry }
        ensures counts { CountsFailure (checkpoint_device_failed result) self.old.medium.faults self.new.medium.faults }
        ensures any_moment { D.keeps → RecoversThroughout [] self.old self.new }
        ensures beyond { D.keeps → KeepsBeyond (layout_of self.old.geometry) self.old.medium self.new.medium }
        ensures costs { self.old.pieces_left ≢ Some 0 → D.keeps → Costs result 1 self.old.medium self.new.medium }
        ensures untouched { touches_device (core_state_of self.old) steps.Piece ≡ false → self.new.medium ≡ self.old.medium }
    {
        if self.journal.failed() {
            return Err(PointRefusal::Failed);
        }
        let Some(_) = self.journal.pieces_left() else {
            return Err(PointRefusal::NotRunning);
        };
        self.journal.piece().map_err(|_| PointRefusal::Device)
    }

    /// Ends the online checkpoint in progress, once every piece is written.
    pub fn flip(&mut self) -> Result<(), PointRefusal>
        ensures state_after { IsCheckpointStep (core_state_of self.old) (core_state_of self.new) (flip_refusal (core_state_of self.old))
            (core_state_of self.new ≡ record (core_state_of self.old) { pieces_left = None }) result }
        ensures geometry { self.new.geometry ≡ self.old.geometry }
        ensures counts { CountsFailure (checkpoint_device_failed result) self.old.medium.faults self.new.medium.faults }
        ensures any_moment { D.keeps → RecoversThroughout [] self.old self.new }
        ensures beyond { D.keeps → KeepsBeyond (layout_of self.old.geometry) self.old.medium self.new.medium }
        ensures costs { D.keeps → Costs result 3 self.old.medium self.new.medium }
        ensures untouched { touches_device (core_state_of self.old) steps.Flip ≡ false → self.new.medium ≡ self.old.medium }
    {
        if self.journal.failed() {
            return Err(PointRefusal::Failed);
        }
        let Some(pieces_left) = self.journal.pieces_left() else {
            return Err(PointRefusal::NotRunning);
        };
        if pieces_left > 0 {
            return Err(PointRefusal::Unfinished);
        }
        self.journal.flip().map_err(|_| PointRefusal::Device)
    }

    /// How many messages the core can have at once, waiting or held.
    pub fn slots(&self) -> usize
        ensures slots { result ≡ self.now.slots }
        ensures some { 0 < result }
        ensures sound { IsSoundCoreState self.now.geometry (core_state_of self.now) }
    {
        self.slots.capacity()
    }

    /// How many pieces are left to write, while an online checkpoint is in progress; else `None`.
    pub fn pieces_left(&self) -> Option<usize>
        ensures { result ≡ self.now.pieces_left }
    {
        self.journal.pieces_left()
    }

    /// Whether the device has failed. If so, it has to be opened again.
    pub fn failed(&self) -> bool
        ensures { result ≡ self.now.failed }
    {
        self.journal.failed()
    }

    /// Does nothing: its contract states what a core keeps true, that its core state is sound, and what a crash leaves now.
    pub fn know_recovery(&self)
        ensures sound { IsSoundCoreState self.now.geometry (core_state_of self.now) }
        ensures no_doubt { self.now.failed ≡ false → self.now.doubt ≡ [] }
        ensures now { D.keeps → RecoversNow self.now }
        ensures few_pieces { IfSome self.now.pieces_left (λ n. n ≤ piece_count self.now.geometry) }
    {
        let _next = self.next; // what a core keeps true is known where a field is read
    }

    /// The device, which is handed back.
    pub fn into_disk(self) -> D
        ensures { D.medium result ≡ self.medium }
    {
        self.journal.into_disk()
    }
}
