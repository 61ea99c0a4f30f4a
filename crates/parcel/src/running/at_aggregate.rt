//! Messages at an aggregate: they make and remove volumes.

ghost use Rattle.std.specs.Prelude.{◌≡◌, ℕ, ◌<◌, true, None, IfSome};
ghost use Rattle.affinity.specs.declared.geometry.Geometry.{Geometry};
ghost use Rattle.protocol.specs.declared.messages.Msg.{Msg};
ghost use Rattle.protocol.specs.Messages.{is_in_range};
ghost use Rattle.parcel.specs.Fits.{FitsAggregate, FitsLogical, FitsVolume, IsRunnable};
ghost use Rattle.parcel.specs.Whole.{IsWholeAggregate, IsWholeChild, IsWholeLogical, IsWholeVolume};
ghost use Rattle.parcel.specs.JobRun.{IsStepOn};
ghost use Rattle.parcel.specs.Shown.{blocks_of, child_facts, volume_facts};
ghost use Rattle.parcel.specs.VolumeStep.{reply_to_change};
ghost use Rattle.parcel.specs.Volume.{with_made, no_facts};
ghost use Rattle.parcel.specs.declared.parts.Parcels.{Parcels};
ghost use Rattle.parcel.specs.declared.parts.Standing.{Standing};

use super::at_logical::remove_blocks;
use super::refusals::{guard, guard_open, reply_to_change};
use crate::{Aggr, Label, Logical, Vol};
use affinity::Geometry;
use protocol::{LABEL_SIZE, Msg, Refusal, Reply};

/// Whether the volume at one index is made, and whether it is sealed.
fn marks(node: &Option<Vol>) -> (bool, bool)
    ensures made { (g : Geometry) → result.0 ≡ (child_facts (volume_facts g) node.now).made }
    ensures sealed { (g : Geometry) → result.1 ≡ (child_facts (volume_facts g) node.now).sealed }
{
    match node {
        Some(volume) => (volume.made, volume.sealed),
        None => (false, false),
    }
}

/// Makes the volume at one index, which isn't lent, with a label of zeros.
fn make(node: &mut Option<Vol>)
    requires { IsWholeChild IsWholeVolume node.old }
    ensures facts { (g : Geometry) → child_facts (volume_facts g) node.new ≡ with_made (child_facts (volume_facts g) node.old) }
    ensures whole { IsWholeChild IsWholeVolume node.new }
    ensures fits { (g : Geometry) → IfSome node.old (FitsVolume g) → IfSome node.new (FitsVolume g) }
{
    let Some(volume) = node else { unreachable!() };
    volume.made = true;
    volume.label = Some(Label {
        bytes: Some([0; LABEL_SIZE]),
    });
}

/// Removes all files and their blocks.
fn clear_files(logical: &mut Logical)
    ensures files { logical.new.files ≡ 0 }
    ensures blocks { (g : Geometry) (i j : ℕ) → blocks_of g logical.new.stripes.items i j ≡ None }
    ensures fits { (g : Geometry) → FitsLogical g logical.old → FitsLogical g logical.new }
    ensures whole { IsWholeLogical logical.old → IsWholeLogical logical.new }
{
    logical.files = 0;
    remove_blocks(&mut logical.stripes, None);
}

/// Removes the volume at one index, which isn't lent, with all that it has.
fn clear(node: &mut Option<Vol>)
    requires { IsWholeChild IsWholeVolume node.old }
    ensures facts { (g : Geometry) → child_facts (volume_facts g) node.new ≡ no_facts }
    ensures whole { IsWholeChild IsWholeVolume node.new }
    ensures fits { (g : Geometry) → IfSome node.old (FitsVolume g) → IfSome node.new (FitsVolume g) }
{
    let Some(volume) = node else { unreachable!() };
    volume.made = false;
    volume.sealed = false;
    if let Some(logical) = &mut volume.logical {
        clear_files(logical);
    }
    volume.label = Some(Label { bytes: None });
}

/// Makes a volume, or refuses to.
fn make_volume(aggregate: &mut Aggr, g: &Geometry, v: u16) -> Result<(), Refusal>
    requires volume { v < g.now.volumes }
    requires fits { FitsAggregate g.now aggregate.old }
    requires whole { IsWholeAggregate aggregate.old }
    ensures step { (a : ℕ) (t : Standing) → is_in_range g.now (Msg.MakeVol a v) ≡ true
        → IsStepOn g.now (Msg.MakeVol a v) t (Parcels.Aggr aggregate.old) (reply_to_change result) (Parcels.Aggr aggregate.new) }
    ensures fits { FitsAggregate g.now aggregate.new }
    ensures whole { IsWholeAggregate aggregate.new }
{
    let index = usize::from(v);
    let (made, _) = marks(&aggregate.volumes[index]);
    guard(!made, Refusal::Exists)?;
    make(&mut aggregate.volumes[index]);
    Ok(())
}

/// Removes a volume with all that it has, or refuses to.
fn drop_volume(aggregate: &mut Aggr, g: &Geometry, v: u16) -> Result<(), Refusal>
    requires volume { v < g.now.volumes }
    requires fits { FitsAggregate g.now aggregate.old }
    requires whole { IsWholeAggregate aggregate.old }
    ensures step { (a : ℕ) (t : Standing) → is_in_range g.now (Msg.DropVol a v) ≡ true
        → IsStepOn g.now (Msg.DropVol a v) t (Parcels.Aggr aggregate.old) (reply_to_change result) (Parcels.Aggr aggregate.new) }
    ensures fits { FitsAggregate g.now aggregate.new }
    ensures whole { IsWholeAggregate aggregate.new }
{
    let index = usize::from(v);
    let (made, sealed) = marks(&aggregate.volumes[index]);
    guard_open(made, sealed)?;
    clear(&mut aggregate.volumes[index]);
    Ok(())
}

/// Runs a message at an aggregate. It sees nothing of what lies above.
pub(crate) fn run_at_aggregate(aggregate: &mut Aggr, g: &Geometry, message: &Msg) -> Reply
    requires { IsRunnable g.now message.now (Parcels.Aggr aggregate.old) }
    ensures step { (t : Standing) → IsStepOn g.now message.now t (Parcels.Aggr aggregate.old) result (Parcels.Aggr aggregate.new) }
    ensures runnable { IsRunnable g.now message.now (Parcels.Aggr aggregate.new) }
{
    match message {
        Msg::MakeVol(_, v) => reply_to_change(make_volume(aggregate, g, *v)),
        Msg::DropVol(_, v) => reply_to_change(drop_volume(aggregate, g, *v)),
        _ => unreachable!(),
    }
}
