//! Messages at a volume: they seal and unseal it, and ask how much it holds.

ghost use Rattle.std.specs.Prelude.{◌≡◌, if◌then◌else◌};
ghost use Rattle.affinity.specs.declared.geometry.Geometry.{Geometry};
ghost use Rattle.protocol.specs.declared.messages.Msg.{Msg};
ghost use Rattle.parcel.specs.Fits.{FitsVolume, IsRunnable};
ghost use Rattle.parcel.specs.JobRun.{IsStepOn};
ghost use Rattle.parcel.specs.Shown.{volume_facts};
ghost use Rattle.parcel.specs.VolumeStep.{IsVolumeStep, reply_to_change};
ghost use Rattle.parcel.specs.declared.parts.Parcels.{Parcels};
ghost use Rattle.parcel.specs.declared.parts.Standing.{Standing};

use super::refusals::{guard, reply_to_change};
use super::totals::volume_totals;
use crate::Vol;
use affinity::Geometry;
use protocol::{Msg, Refusal, Reply};

/// Seals or unseals the volume, whether it was sealed or not.
fn set_sealed(volume: &mut Vol, sealed: bool) -> Result<(), Refusal>
    ensures step { (g : Geometry) → IsVolumeStep g (λ a v. if sealed then Msg.Seal a v else Msg.Unseal a v) (volume_facts g volume.old)
        (reply_to_change result) (volume_facts g volume.new) }
    ensures logical { volume.new.logical ≡ volume.old.logical }
    ensures label { volume.new.label ≡ volume.old.label }
{
    guard(volume.made, Refusal::Volume)?;
    volume.sealed = sealed;
    Ok(())
}

/// How much the volume holds, and whether it is sealed.
fn usage(volume: &Vol, g: &Geometry) -> Reply
    requires fits { FitsVolume g.now volume.now }
    ensures { IsVolumeStep g.now Msg.Usage (volume_facts g.now volume.now) result (volume_facts g.now volume.now) }
{
    if !volume.made {
        return Reply::Refused(Refusal::Volume);
    }
    let totals = volume_totals(volume, g);
    Reply::Usage {
        files: totals.files,
        blocks: totals.blocks,
        sealed: volume.sealed,
    }
}

/// Runs a message at a volume. It sees nothing of what lies above.
pub(crate) fn run_at_volume(volume: &mut Vol, g: &Geometry, message: &Msg) -> Reply
    requires { IsRunnable g.now message.now (Parcels.Vol volume.old) }
    ensures step { (t : Standing) → IsStepOn g.now message.now t (Parcels.Vol volume.old) result (Parcels.Vol volume.new) }
    ensures runnable { IsRunnable g.now message.now (Parcels.Vol volume.new) }
{
    match message {
        Msg::Seal(..) => reply_to_change(set_sealed(volume, true)),
        Msg::Unseal(..) => reply_to_change(set_sealed(volume, false)),
        Msg::Usage(..) => usage(volume, g),
        _ => unreachable!(),
    }
}
