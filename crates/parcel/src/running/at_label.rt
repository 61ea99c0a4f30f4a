//! Messages at the label of a volume: they set it and ask for it.

ghost use Rattle.protocol.specs.declared.messages.Msg.{Msg};
ghost use Rattle.parcel.specs.Fits.{IsRunnable};
ghost use Rattle.parcel.specs.JobRun.{IsStepOn};
ghost use Rattle.parcel.specs.Shown.{label_facts};
ghost use Rattle.parcel.specs.VolumeStep.{IsVolumeStep, reply_to_change};
ghost use Rattle.parcel.specs.declared.parts.Parcels.{Parcels};

use super::refusals::{guard_open, reply_to_change};
use crate::{Label, Standing};
use affinity::Geometry;
use protocol::{LABEL_SIZE, Msg, Refusal, Reply};

/// Sets the label.
fn set_label(
    label: &mut Label,
    g: &Geometry,
    standing: Standing,
    bytes: &[u8; LABEL_SIZE],
) -> Result<(), Refusal>
    ensures { IsVolumeStep g.now (λ a v. Msg.SetLabel a v bytes.now) (label_facts standing label.old) (reply_to_change result)
        (label_facts standing label.new) }
{
    guard_open(standing.made, standing.sealed)?;
    label.bytes = Some(*bytes);
    Ok(())
}

/// The label.
fn get_label(label: &Label, g: &Geometry, standing: Standing) -> Reply
    ensures { IsVolumeStep g.now Msg.Label (label_facts standing label.now) result (label_facts standing label.now) }
{
    if !standing.made {
        return Reply::Refused(Refusal::Volume);
    }
    Reply::Label(label.bytes.unwrap_or([0; LABEL_SIZE]))
}

/// Runs a message at the label of a volume.
pub(crate) fn run_at_label(
    label: &mut Label,
    g: &Geometry,
    standing: Standing,
    message: &Msg,
) -> Reply
    requires { IsRunnable g.now message.now (Parcels.Label label.old) }
    ensures step { IsStepOn g.now message.now standing (Parcels.Label label.old) result (Parcels.Label label.new) }
    ensures runnable { IsRunnable g.now message.now (Parcels.Label label.new) }
{
    match message {
        Msg::SetLabel(_, _, bytes) => reply_to_change(set_label(label, g, standing, bytes)),
        Msg::Label(..) => get_label(label, g, standing),
        _ => unreachable!(),
    }
}
