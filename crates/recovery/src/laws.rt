//! What holds of devices by the definitions: a law. The function here does nothing; its contract is the law.
ghost use Rattle.std.specs.Prelude.{◌≡◌, ℕ, List, Some, None};
ghost use Rattle.affinity.specs.declared.geometry.Geometry.{Geometry};
ghost use Rattle.recovery.specs.Header.{HasHeader};
ghost use Rattle.recovery.specs.Recovery.{recovered_state};
ghost use Rattle.recovery.specs.Refusals.{refused};
ghost use Rattle.disk.specs.CrashImages.{AreBytes};
ghost use Rattle.meaning.specs.State.{State};

/// A device that recovers to a state isn't refused.
pub fn a_device_that_recovers_is_not_refused()
    ensures { (g : Geometry) (c : List ℕ) (x : State) → AreBytes c → recovered_state g c ≡ Some x → (HasHeader g c) × (refused g c ≡ None) }
{}
