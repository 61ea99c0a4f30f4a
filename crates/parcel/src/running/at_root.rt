//! Messages at the whole server: they ask how much all volumes hold.

ghost use Rattle.protocol.specs.declared.messages.Msg.{Msg};
ghost use Rattle.parcel.specs.Fits.{FitsRoot, IsRunnable};
ghost use Rattle.parcel.specs.JobRun.{IsSerialStep, IsStepOn};
ghost use Rattle.parcel.specs.Shown.{root_facts};
ghost use Rattle.parcel.specs.Volume.{state_with};
ghost use Rattle.parcel.specs.declared.parts.Parcels.{Parcels};
ghost use Rattle.parcel.specs.declared.parts.Standing.{Standing};

use super::totals::root_totals;
use crate::Root;
use affinity::Geometry;
use protocol::{Msg, Reply};

/// How much all volumes hold, and how many they are.
fn summary(root: &Root, g: &Geometry) -> Reply
    requires { FitsRoot g.now root.now }
    ensures { IsSerialStep g.now (state_with (root_facts g.now root.now)) Msg.Summary result (state_with (root_facts g.now root.now)) }
{
    let totals = root_totals(root, g);
    Reply::Summary {
        volumes: totals.volumes,
        files: totals.files,
        blocks: totals.blocks,
    }
}

/// Runs a message at the whole server. There is nothing above it.
pub(crate) fn run_at_root(root: &mut Root, g: &Geometry, message: &Msg) -> Reply
    requires { IsRunnable g.now message.now (Parcels.Root root.old) }
    ensures step { (t : Standing) → IsStepOn g.now message.now t (Parcels.Root root.old) result (Parcels.Root root.new) }
    ensures runnable { IsRunnable g.now message.now (Parcels.Root root.new) }
{
    match message {
        Msg::Summary => summary(root, g),
        _ => unreachable!(),
    }
}
