//! What holds of the jobs that a core has dispatched, of a run of a core on a device, and of a device over many incarnations (the law
//! of incarnations). No function here does anything; its contract is the law.
ghost use Rattle.affinity.specs.declared.geometry.Geometry.{Geometry};
ghost use Rattle.disk.specs.CrashImages.{IsCrashImage};
ghost use Rattle.disk.specs.Device.{IsSynced, Medium};
ghost use Rattle.disk.specs.Device.{moment_number};
ghost use Rattle.histories.specs.CoreState.{CoreState, IsIdle};
ghost use Rattle.histories.specs.Events.{Event, IsAllowed};
ghost use Rattle.histories.specs.MachineState.{MachineState};
ghost use Rattle.histories.specs.Incarnations.{HoldsAnswered, Ran};
ghost use Rattle.histories.specs.IsSoundCoreState.{IsSoundCoreState};
ghost use Rattle.histories.specs.Runs.{IsLegal, end_state};
ghost use Rattle.scheduler.specs.DeviceEvents.{AgreeWithDevice, DeviceEvent, IsFailStop, RecoversForRun, device_after, events_of};
ghost use Rattle.scheduler.specs.DeviceIncarnations.{DeviceIncarnation, HasIncarnations, HaveGeometry, LeftByLast, RecoversForIncarnations, incarnations_of};
ghost use Rattle.scheduler.specs.Machine.{MachineView, machine_of};
ghost use Rattle.scheduler.specs.Runs.{IsEndOfRun};
ghost use Rattle.meaning.specs.State.{empty};
ghost use Rattle.parcel.specs.JobRun.{JobView, IsJobRun};
ghost use Rattle.parcel.specs.declared.job.Done.{Done};
ghost use Rattle.recovery.specs.Header.{HasHeader};
ghost use Rattle.recovery.specs.Recovery.{recovered_state};
ghost use Rattle.recovery.specs.Refusals.{refused};
ghost use Rattle.scheduler.specs.CoreView.{CoreView, core_state_of};
ghost use Rattle.scheduler.specs.Jobs.{IsJobOf, IsResultOf};
ghost use Rattle.std.specs.List.{Contains};
ghost use Rattle.std.specs.Prelude.{◌≡◌, ◌+◌, ℕ, List, Some, None, cond, false, length};

/// Running a job of the core gives its result. While the job is in flight no other event touches what it needs of the state: it stays a
/// job of the core (`IsJobOf`), and its result stays the result (`IsResultOf`).
pub fn jobs_stay()
    ensures ran { (g : Geometry) (w : CoreState) (job : JobView) (done : Done) → IsJobOf g w job → IsJobRun job done → IsResultOf g w done }
    ensures job { (g : Geometry) (old : MachineState) (event : Event) (job : JobView) → IsAllowed g old event → IsSoundCoreState g old.core
        → IsJobOf g old.core job → Contains event.state_after.core.in_flight (job.ticket, job.message)
        → IsJobOf g event.state_after.core job }
    ensures result { (g : Geometry) (old : MachineState) (event : Event) (done : Done) → IsAllowed g old event → IsSoundCoreState g old.core
        → IsResultOf g old.core done → Contains event.state_after.core.in_flight (done.ticket, done.message)
        → IsResultOf g event.state_after.core done }
{}

/// A device is formatted. Then it has any number of incarnations, one after the other: in each it is opened, a machine makes a run
/// of any steps, and a crash comes at any moment, also while it is opened and within a call, and leaves any bytes where something
/// was unsynced. Each server that is opened has the geometry with which the device was formatted. Whatever the last crash leaves
/// recovers to the state that the serial server reaches, from the empty one on, by the logs of all incarnations in order. The log
/// of each incarnation begins with every change that was answered before its crash. What the last crash leaves has the header of
/// the format and isn't refused: the next opening gives that state, unless the device fails or there is no memory (`Core::open`).
pub fn incarnations_leave_what_was_answered()
    ensures geometry { (g : Geometry) (formatted : Medium) (incarnations : List DeviceIncarnation)
        → recovered_state g formatted.now ≡ Some empty
        → IsSynced formatted → HasIncarnations formatted (moment_number formatted) incarnations → HaveGeometry g incarnations }
    ensures recovers { (g : Geometry) (formatted : Medium) (incarnations : List DeviceIncarnation) (c : List ℕ)
        → recovered_state g formatted.now ≡ Some empty
        → IsSynced formatted → HasIncarnations formatted (moment_number formatted) incarnations
        → LeftByLast formatted (moment_number formatted) incarnations c
        → RecoversForIncarnations g (incarnations_of incarnations) c }
    ensures opens { (g : Geometry) (formatted : Medium) (incarnations : List DeviceIncarnation) (c : List ℕ)
        → recovered_state g formatted.now ≡ Some empty
        → IsSynced formatted → HasIncarnations formatted (moment_number formatted) incarnations
        → LeftByLast formatted (moment_number formatted) incarnations c
        → HasHeader g c × (refused g c ≡ None) }
{}

/// A run has ended, and the crash comes after all of its events. Whatever it leaves of the device recovers to where the log of
/// the run leads, with the first m of the messages that were to be appended when the device failed. Where no message was in the
/// core at its start, that log begins with every change that was answered.
pub fn a_crash_behind_a_run_leaves_what_was_answered()
    ensures run { (start : MachineView) (events : List Event) (new : CoreView) (c : List ℕ)
        → IsSoundCoreState start.core.geometry (core_state_of start.core)
        → IsEndOfRun start events new → IsCrashImage new.medium c
        → RecoversForRun start.core.geometry (machine_of start) events (length events) c }
    ensures answered { (start : MachineView) (events : List Event) (new : CoreView) (c : List ℕ) → IsIdle (core_state_of start.core)
        → IsEndOfRun start events new → IsCrashImage new.medium c
        → (h : RecoversForRun start.core.geometry (machine_of start) events (length events) c)
        × HoldsAnswered (Ran (machine_of start) events (length events)) h.left.log }
{}

/// After the event in which a call of the device has failed, none is made any more: neither another write, nor a sync again after one that
/// failed. If the device has failed in the first k events of a run, it is left as it was after these. So no call of the device failed in a
/// run in which the core didn't fail, and one did in a run in which it did.
pub fn a_device_that_failed_is_not_called_again()
    ensures fail_stop { (g : Geometry) (start : MachineState) (m : Medium) (device_events : List DeviceEvent)
        → IsLegal g start (events_of device_events) → AgreeWithDevice start m device_events → IsFailStop start m device_events }
    ensures counts { (g : Geometry) (start : MachineState) (m : Medium) (device_events : List DeviceEvent)
        → IsLegal g start (events_of device_events) → AgreeWithDevice start m device_events → start.core.failed ≡ false
        → (device_after m device_events).faults ≡ m.faults + cond (end_state start (events_of device_events)).core.failed 1 0 }
{}
